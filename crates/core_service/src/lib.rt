//! Why a core in its thread and machines in theirs make one run.
//!
//! `network::serve` says which replies a service gave and in which order, `machine_threads` what each machine asked and came to by
//! itself, and that all that was taken is theirs. `CoreService` is the core as such a service. Here is the law that joins these: the
//! order in which the core answered leads from the start to a complete run, whose machines are those that came back
//! (`specs/Gathering.antt`).
//!
//! That the order is a run is one law over all that came back, and no clause of a thread: a thread sees its own machine
//! alone. `run_threaded` of `threaded_runs` calls it, where its premises are the clauses of `serve`, `run_machine` and
//! `settle_machines`.
#![tactic(auto)]

ghost use Rattle.core_service.specs.Gathering.{GatherToARun};

mod service;

pub use service::CoreService;

/// Shows to a proof that what the thread of a core and the threads of machines came back with is the run of the
/// order in which the core answered. It does nothing when it runs.
pub fn threads_gather_to_a_run()
    ensures { GatherToARun }
{}
