//! What holds of every history that a run leaves, whatever its order of requests: it is one legal history.
//!
//! A transaction whose commit made a version would get the same ordinary reads run whole at its commit, over the database just
//! before it, unless a write without a write conflict range fell between (`specs/Whole.antt`). It is a law of the definitions
//! (`model_machine`, `specs/Runs.antt`), proved once here, for each run, complete or not, and from step to step
//! (`specs/Steps.antt`). What its proof needs is in `specs/Held.antt`: what holds of each transaction while it is open, and of each
//! commit among those before it.
#![tactic(auto)]

ghost use Rattle.laws_history.specs.Steps.{AreBegunReached, AreReachedLegal, AreStepsReached};
ghost use Rattle.laws_history.specs.Whole.{AreRunsLegal};

/// Shows to a proof that every run of an order of fewer than 2^62 places, over pairs that an input may have,
/// leaves one legal history. It does nothing when it runs.
pub fn runs_are_legal()
    ensures { AreRunsLegal }
{}

/// Shows to a proof that each step keeps one legal history. What a world begins with, each request keeps, while
/// versions are left; and a world that has it has one legal history. It does nothing when it runs.
pub fn steps_are_legal()
    ensures begins { AreBegunReached }
    ensures keeps { AreStepsReached }
    ensures legal { AreReachedLegal }
{}
