//! Conflict ranges: sets of keys, and the last write version of each key.
//!
//! A `RangeSet` holds the read conflict ranges of a transaction, or its write conflict ranges. Contracts see the list of its
//! ranges, which are not empty, lie apart and rise (`specs/Segments.antt`), and say of each change which keys the set has then.
//!
//! A `WriteIndex` is the conflict set: it has for each key the version of the last commit with the key among its write conflict
//! ranges (`specs/Writes.antt`), so that a commit may be judged by the newest version that it has in each read conflict range of
//! the transaction. Versions up to one may be forgotten. It has them in two generations, what was installed up to some version and
//! what was installed since: the older one goes as a whole once all of it is forgotten.
//!
//! Both lie in a map of boundaries: each boundary has what all keys from it up to the next boundary have. But a set of one range,
//! as most are, keeps that range in place, and makes boundaries of its ends when another comes (`specs/Only.antt`); and a generation
//! of an index keeps a range of one key, as most are, as that key (`specs/Generations.antt`).
#![tactic(auto)]

mod boundary_ranges;
mod boundary_ranges_left;
mod generation;
mod members;
mod membership;
mod newest;
mod range_set;
mod ranges_left;
mod walking;
mod write_index;

pub use range_set::RangeSet;
pub use ranges_left::RangesLeft;
pub use write_index::WriteIndex;
