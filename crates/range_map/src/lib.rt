//! A map of boundaries over the keys: each boundary has what all keys from it up to the next boundary have.
//!
//! Contracts see `Boundaries`, the boundaries in the order of keys, each with what it has, and `base`, what the keys below the
//! first boundary have (`specs/Boundaries.antt`). What a key has is `held`. A new boundary changes what no key has, where it is
//! given what its key had; and a change of each boundary of a range, both of whose ends are boundaries, changes what the keys of
//! the range have and no other. Both laws stand in `proofs/Held.antt`.
#![tactic(auto)]

mod boundaries_left;
mod change;
mod levels;
mod range_map;
mod row;
mod spread;
mod tree;
mod tree_left;

pub use boundaries_left::BoundariesLeft;
pub use change::Change;
pub use range_map::RangeMap;
pub use spread::Spread;
