//! The place of the one incomplete versionstamp of a tuple.

ghost use Rattle.std.specs.Prelude.{◌≡◌, ◌+◌, ◌≤◌, ◌<◌, ◌^◌, ℕ, true, false, List, [], ◌∷◌, ◌++◌, length, Err, option_to_list, IfOk, IfErr, OnOk};
ghost use Rattle.fdb_tuple.specs.Tuples.{Empty, Stamp};
ghost use Rattle.fdb_tuple.specs.Listed.{before};
ghost use Rattle.fdb_tuple.specs.Spelling.{spelled_in, spelling};
ghost use Rattle.fdb_tuple.specs.Stamps.{scalar_places, stamp_places, with_place};

use crate::fault::StampPackFault;
use crate::lengths::element_len;
use crate::tuple::{Elem, Tuple, Versionstamp};

// Ten FF bytes mark a versionstamp as incomplete.
const INCOMPLETE: [u8; 10] = [0xFF; 10];

// A walk over elements by the places of their spellings.
#[derive(Drop)]
struct Walk {
    // The place that it has come to.
    at: usize,
    // The place of the ten bytes of the one incomplete versionstamp so far.
    found: Option<usize>,
}

impl Walk {
    // Over the elements of the tuple, at the top or inside a nested tuple.
    #[cycle(walk)]
    fn over_tuple(&mut self, tuple: &Tuple, nested: bool) -> Result<(), StampPackFault>
        requires { self.old.at + length (spelled_in nested tuple.now) < 2 ^ 32 }
        ensures at { OnOk result (self.new.at ≡ self.old.at + length (spelled_in nested tuple.now)) }
        ensures found { OnOk result (option_to_list self.new.found ≡ option_to_list self.old.found ++ stamp_places nested self.old.at tuple.now) }
        ensures many { IfErr result (λ fault. (fault ≡ StampPackFault.ManyStamps)
            × (2 ≤ length (option_to_list self.old.found ++ stamp_places nested self.old.at tuple.now))) }
    {
        for element in tuple.as_slice() {
            self.over_element(element, nested)?;
        }
        Ok(())
    }

    // Over an element, at the top or inside a nested tuple.
    #[cycle(walk)]
    fn over_element(&mut self, element: &Elem, nested: bool) -> Result<(), StampPackFault>
        requires { self.old.at + length (spelled_in nested (before element.now Empty)) < 2 ^ 32 }
        ensures at { OnOk result (self.new.at ≡ self.old.at + length (spelled_in nested (before element.now Empty))) }
        ensures found { OnOk result (option_to_list self.new.found ≡ option_to_list self.old.found ++ stamp_places nested self.old.at (before element.now Empty)) }
        ensures many { IfErr result (λ fault. (fault ≡ StampPackFault.ManyStamps)
            × (2 ≤ length (option_to_list self.old.found ++ stamp_places nested self.old.at (before element.now Empty)))) }
    {
        element.shows_element();
        match element {
            Elem::Nested(tuple) => self.over_nested(tuple),
            Elem::Stamp(stamp) => self.over_stamp(stamp),
            _ => {
                self.at += element_len(element, nested);
                Ok(())
            }
        }
    }

    #[cycle(walk)]
    fn over_nested(&mut self, tuple: &Tuple) -> Result<(), StampPackFault>
        requires { self.old.at + length (spelled_in true tuple.now) + 2 < 2 ^ 32 }
        ensures at { OnOk result (self.new.at ≡ self.old.at + length (spelled_in true tuple.now) + 2) }
        ensures found { OnOk result (option_to_list self.new.found ≡ option_to_list self.old.found ++ stamp_places true (self.old.at + 1) tuple.now) }
        ensures many { IfErr result (λ fault. (fault ≡ StampPackFault.ManyStamps)
            × (2 ≤ length (option_to_list self.old.found ++ stamp_places true (self.old.at + 1) tuple.now))) }
    {
        self.at += 1;
        self.over_tuple(tuple, true)?;
        self.at += 1;
        Ok(())
    }

    fn over_stamp(&mut self, stamp: &Versionstamp) -> Result<(), StampPackFault>
        requires { self.old.at + 13 < 2 ^ 32 }
        ensures at { OnOk result (self.new.at ≡ self.old.at + 13) }
        ensures found { OnOk result (option_to_list self.new.found ≡ option_to_list self.old.found ++ scalar_places self.old.at (Stamp stamp.now.stamp stamp.now.user)) }
        ensures many { IfErr result (λ fault. (fault ≡ StampPackFault.ManyStamps)
            × (2 ≤ length (option_to_list self.old.found ++ scalar_places self.old.at (Stamp stamp.now.stamp stamp.now.user)))) }
    {
        if stamp.stamp == INCOMPLETE {
            if self.found.is_some() {
                return Err(StampPackFault::ManyStamps);
            }
            self.found = Some(self.at + 1);
        }
        self.at += 13;
        Ok(())
    }
}

// The place of the ten bytes of the one incomplete versionstamp, where the tuple's spelling begins at a place.
pub(crate) fn stamp_place(start: usize, tuple: &Tuple) -> Result<u32, StampPackFault>
    requires { start + length (spelling tuple.now) < 2 ^ 32 }
    ensures ok { IfOk result (λ place. stamp_places false start tuple.now ≡ place ∷ []) }
    ensures err { IfErr result (λ fault. (bytes : List ℕ) → with_place bytes (stamp_places false start tuple.now) ≡ Err fault) }
{
    let mut walk = Walk {
        at: start,
        found: None,
    };
    walk.over_tuple(tuple, false)?;
    match walk.found {
        Some(place) => Ok(place as u32),
        None => Err(StampPackFault::NoStamp),
    }
}
