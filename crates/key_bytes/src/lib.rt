//! Byte strings as keys and values: their order, the key after a key, the key after all that begin with one,
//! ranges of keys, and lists of pairs.
//!
//! A key is a byte string, and keys are ordered byte by byte, a prefix before what it begins. Contracts see
//! a `Bytes` as the list of its bytes, a `KeyRange` as the record of its two ends, and `Pairs` as the list of
//! its keys with their values. The definitions stand in `specs/Keys.antt`, `specs/Successors.antt` and
//! `specs/Entries.antt`.
#![tactic(auto)]

mod bytes;
mod form;
mod pairs;
mod range;
mod short;

pub use bytes::{Bytes, Key, is_below};
pub use pairs::{Pair, Pairs};
pub use range::KeyRange;
