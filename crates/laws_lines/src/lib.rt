//! Where the place of a bad line is: behind the longest front of the line that ends behind a whole part of a lawful line.
//!
//! `specs/Places.antt` says which fronts these are, by a relation alone that names no reader, and then the law: each place that
//! reading gives is so. A wrong escape is at its backslash, a key not less than FF at its first byte, a missing line feed at the
//! line's length, the number of a machine past the last at its first digit, and a digit behind a leading zero at itself. It is a
//! law of the definitions by which lines are read (`model_lines`, `model_input`, `model_events`), proved once here.
#![tactic(auto)]

ghost use Rattle.laws_lines.specs.Places.{AreEventPlaces, AreOrderPlaces, ArePairPlaces};

/// Shows to a proof that the place that reading gives for a bad line of a pair, for one of an order, and for one of
/// an event, is the length of the line's longest front. It does nothing when it runs.
pub fn bad_places_are_longest_fronts()
    ensures pairs { ArePairPlaces }
    ensures orders { AreOrderPlaces }
    ensures events { AreEventPlaces }
{}
