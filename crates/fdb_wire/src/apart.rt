//! Laws of spellings.

ghost use Rattle.fdb_wire.specs.Apart.{AreRequestsApart, AreRepliesApart};

/// Shows to a proof that two requests of a client have two spellings, and so do two replies. It does nothing when it runs.
pub fn spellings_are_apart()
    ensures requests { AreRequestsApart }
    ensures replies { AreRepliesApart }
{}
