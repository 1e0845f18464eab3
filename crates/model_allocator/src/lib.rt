//! The high-contention allocator in definitions: which number a call of it grants, and by which calls of its transaction.
//!
//! `specs/Acts.antt` has calls of a transaction as data, and what they leave made one after the other, each by the calls' own
//! definitions; `specs/Counters.antt` the keys of an allocator and what they say; and `specs/Granting.antt` the number that a call
//! grants: it is chosen in a list of candidates, and the calls that find it are a list too. `proofs/` has what follows from these
//! definitions alone.
#![tactic(auto)]

/// How many random numbers of the window are tried, before its numbers are tried in order.
pub const RANDOM_TRIES: u32 = 32;

/// The greatest number that a counter may stand at.
pub const GREATEST_COUNTER: u64 = 4_611_686_018_427_387_904;
