//! Trials of ordered maps and what is built of them: boundary maps, sets of keys, the index of writes, pending mutations and reads
//! of ranges.
//!
//! They call public functions alone: each call once with memory, and a large index.
#![tactic(auto)]

#[cfg(test)]
mod tests;
