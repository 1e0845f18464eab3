//! The run of all machines in threads beside one another, over the core in a thread of its own, and its dump.
//!
//! `run_threaded` starts the thread of the core, has `machine_threads` run the machines, and settles what they used against what
//! the core answered: the end of a run by the order in which the requests were taken. Where the thread of the core can't be started the
//! machines run by turns. What comes to an end is rendered by `machine_runs`.
//!
//! # Choices
//!
//! - The order of a run has no condition of its own: any that leads to a complete run may be it. That it is the
//!   one in which `serve` took the requests is a step of the proof (`settled`), and nothing that a clause of `run_threaded` could name.
//! - The core is made before its thread is started, and comes back where the thread can't be started: the caller then runs
//!   what the thread would have run (`start_network`). No test shows that, since to start a thread is a step of the
//!   toolchain's own; the clause of `run_threaded` holds either way.
//! - As many machines have to come back as `serve` saw started. That is compared at run time, since no thread sees both.
//! - A run whose replies don't fit together, which no core brings about, is refused as for want of memory. It can't be proved away: a
//!   waiter that shows a value says nothing of the setter until both are settled, and settling needs the machines to fit.
//! - A machine that polls in vain rests before it polls again (`Gate::rest`): at once four times, then by growing sleeps of
//!   up to 64 microseconds, some 130 with the timer. The gate brings the clock, and `rest` has no clause: time is no part of
//!   any.
//! - `run_threaded` asks of its handle what starting a thread asks (`Clone`, `Drop`, `Send`, `'static`), since the thread of the
//!   core has a handle of its own.
//! - Who waits looks for a while before it sleeps, a machine for its reply (`Waiter::wait_in`) and the thread of the core for
//!   the next post (`Receiver::take`), since waking a thread takes longer than most replies do. How many looks there are was
//!   found by `bench/threads`. A machine makes its wake only where it has to sleep, and the cell of its next request while it
//!   waits (`Client::prepare`).
#![tactic(auto)]

mod threading;

pub use threading::run_threaded;
