//! What holds of the layers over commits: of a queue in a subspace, in every history in which nothing but push and pop wrote there, that
//! each item comes out once, in the order in which transactions that committed pushed them; and of a map of counts, where nothing but add and
//! subtract wrote there, that each count is what those of its pair make of it.
//!
//! What a transaction pushed and popped is told by its script (`specs/Scripts.antt`): a push is a read of the last pair of the
//! subspace with a set of the next key behind it, a pop a read of the first pair with a clear of its key behind it, as
//! `model_recipes` has them. Each commit has to run whole over the database just before it, which in a run it does unless a write
//! without a write conflict range fell between (`laws_history`). `specs/Laws.antt` says so over commits, over a legal history and
//! over every run; `specs/Counts.antt` has the same of counts. `specs/Answered.antt` says of each call of each layer, those of byte strings too, that
//! it is at its commit the call on the database that the commits before it left. `specs/Indexes.antt` says which keys are those of indexes.
//! These are laws of the definitions, proved once.
#![tactic(auto)]

ghost use Rattle.laws_queue.specs.Answered.{AreNonePopped, AreTheCallsAtCommit};
ghost use Rattle.laws_queue.specs.Counts.{CountCallsGoOn, CountsFollow, LegalCountsFollow, RunsCountsFollow};
ghost use Rattle.laws_queue.specs.Indexes.{AreIndexesTold};
ghost use Rattle.laws_queue.specs.Laws.{AreBegunWithScripts, AreScriptsKept, ItemsComeOnce, LegalItemsComeOnce, RunsItemsComeOnce};
ghost use Rattle.laws_queue.specs.Scripts.{CallsGoOn};

/// Shows to a proof that each item of a queue comes out once, in the order of the commits that pushed them. It does nothing when it
/// runs.
pub fn queue_items_come_once()
    ensures commits { ItemsComeOnce }
    ensures histories { LegalItemsComeOnce }
    ensures runs { RunsItemsComeOnce }
{}

/// Shows to a proof what the first law asks: which script calls of push and pop leave, and that each request keeps that commits
/// did what their scripts wrote. It does nothing when it runs.
pub fn scripts_tell_of_queues()
    ensures calls { CallsGoOn }
    ensures begins { AreBegunWithScripts }
    ensures keeps { AreScriptsKept }
{}

/// Shows to a proof that each call of a layer, made by a transaction that runs whole at its commit, is the call on the database that
/// the commits before it left, and that a pop finds no item exactly in an empty queue. It does nothing when it runs.
pub fn layers_answer_at_their_commits()
    ensures calls { AreTheCallsAtCommit }
    ensures none { AreNonePopped }
{}

/// Shows to a proof that the counts of a map are those before, changed by the adds and subtracts of transactions that committed, in the
/// order of the commits, and which script the calls of the map leave. It does nothing when it runs.
pub fn counts_follow_commits()
    ensures commits { CountsFollow }
    ensures histories { LegalCountsFollow }
    ensures runs { RunsCountsFollow }
    ensures calls { CountCallsGoOn }
{}

/// Shows to a proof that a key is read as that of an index exactly where it is the index's. It does nothing when it runs.
pub fn keys_tell_their_indexes()
    ensures { AreIndexesTold }
{}
