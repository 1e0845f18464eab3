//! A suspended machine: by itself, over the replies that it gets.
//!
//! A `SuspendedMachine` has a machine that has come to rest, and what it asks. `use_reply` gives the machine the reply, and it
//! comes to rest again: at its next request or at its end. `start` and `start_with` suspended machine a machine as it is started,
//! and `suspended_started` the one that a request and its reply started, if they started one. Whoever has requests answered, by
//! turns, by a given order or in threads, runs machines so.
//!
//! `specs/SuspendedMachines.antt` says what a suspended machine has come to (`progress_of`), what holds of each (`IsSuspended`),
//! and how much it has left (`work_left`), which falls with each reply that is not a poll's or a log's.
#![tactic(auto)]

mod starting;
mod suspended;

pub use starting::{
    is_no_memory, prefix_of, start, start_with, suspended_started, suspended_started_by,
};
pub use suspended::SuspendedMachine;
