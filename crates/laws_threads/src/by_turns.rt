//! Why pairs and arguments have one order by turns.

ghost use Rattle.laws_threads.specs.OneOrder.{HaveOneOrder};

/// Shows to a proof that the order by turns of a complete run is the only one. It does nothing when it runs.
pub fn turns_are_one()
    ensures { HaveOneOrder }
{}
