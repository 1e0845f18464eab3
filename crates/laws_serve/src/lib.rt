//! What holds of the history that the requests of a client leave, whatever they are: it is one legal history.
//!
//! `fdb_serve` answers requests by the steps of one world (`fdb_serve`, `specs/Serving.antt`), and `laws_history` says what each step of a
//! world keeps. So what the committed transactions of any client read is serializable, but where a write without a write conflict
//! range fell between (`laws_history`, `specs/Whole.antt`).
#![tactic(auto)]

ghost use Rattle.laws_serve.specs.Legal.{AreServedLegal};

/// Shows to a proof that fewer than 2^62 requests leave one legal history. It does nothing when it runs.
pub fn served_are_legal()
    ensures { AreServedLegal }
{}
