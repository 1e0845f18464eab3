//! What the calls of a transaction are made of, without the transaction.
//!
//! - `codes`: the code of the first check of a call that fails.
//! - `intervals` and `resting`: the interval of a read, by its answer, and the keys of it that the pending mutations don't decide,
//!   which become read conflict ranges.
//! - `changing`: the changes of a commit, by one walk along the boundaries of its mutations.
//! - `write_conflicts`: the write conflict ranges of a commit's mutations, and its versionstamp.
//!
//! `txn_calls` has the transaction.
#![tactic(auto)]

mod changing;
mod codes;
mod intervals;
mod resting;
mod write_conflicts;

pub use changing::{changes_at_last, only_set};
pub use codes::{
    clear_code, commit_code, is_end_outside, op_code, phase_code, range_code, read_code, set_code,
    set_version_code,
};
pub use intervals::{selector_interval, slice_interval};
pub use resting::add_unless;
pub use write_conflicts::{push_ranges, push_written, stamp_of};
