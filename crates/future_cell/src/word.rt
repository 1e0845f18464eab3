//! The word of a cell, by which its halves meet.

/// No callback is parked, and the value is not there.
pub const EMPTY: u64 = 0;

/// A callback is parked, and the value is not there.
pub const PARKED: u64 = 1;

/// The value is there, for good.
pub const SET: u64 = 2;
