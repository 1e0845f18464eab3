//! Trials of the store and of a transaction's view of it.
//!
//! They call public functions alone: each call once with memory, many keys with many versions, and many reads of a transaction
//! with many mutations.
#![tactic(auto)]

#[cfg(test)]
mod tests;
