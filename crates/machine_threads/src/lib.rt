//! A thread for each machine, over a line to the service that answers.
//!
//! `run_machine` runs a machine in its thread (`threaded_machine`) to its end, and beside it, by fork and join, each machine that it
//! starts, and those that these start; all of them come back.
//!
//! `specs/Teams.antt` says what comes back: who started whom, that all senders are of one line, and that their
//! spans cover the first one's. `settle_machines` closes the senders of all that have ended and settles their waiters;
//! `specs/Closing.antt` says what is known of each then.
//!
//! A machine that can't go on posts its Over too, and the one that it owes. So all that ran have posted as many Overs as the
//! service's thread awaits: one for the first machine, and one for each that a reply said was started (`AreOver` in
//! `specs/Crews.antt`).
//!
//! # Choices
//!
//! - The bound of the recursion is the newest machine number that a branch has seen, which rises with each machine that is
//!   started. A reply that names no higher number, which no core gives, is dealt with as where memory is wanting: both
//!   Overs are posted.
//! - Machines come back at a refusal too, kept by boxes that were taken before the fork (`Crew`): a refusal that dropped them
//!   could say nothing of what they have posted.
//! - Machines come back in the order of the joins and are sorted by their numbers before their senders are closed. Where
//!   these are not the numbers from 0 on, which no core gives, they are refused as for want of memory.
//! - `AreSettled` says that what was taken is of one of these machines (`of_these`), since the spans of all senders cover all
//!   numbers. Without it nothing would say that the core answered these machines alone.
//! - No test of this crate calls `settle_machines`, whose conditions are what `serve` and the machines' threads say. Each
//!   test of `tester_run` that runs machines calls it.
#![tactic(auto)]

mod closing;
mod crew;
mod team;

pub use closing::settle_machines;
pub use crew::Crew;
pub use team::{Ran, run_machine};
pub use threaded_machine::{Refused, ThreadedMachine};
