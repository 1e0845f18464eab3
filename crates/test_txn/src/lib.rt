//! Trials of a transaction over a store: what it changes, its read and write conflict ranges, and what a life keeps of its end.
//!
//! They call public functions alone, so they stand apart from txn_core: its own functions aren't proved again with them.
#![tactic(auto)]

#[cfg(test)]
mod tests;
