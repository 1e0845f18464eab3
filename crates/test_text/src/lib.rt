//! Trials of what stands on byte strings alone, of which no case tells: keys, sources and sinks, tuples that aren't packed or can't be
//! unpacked, lines at their limits, dumps that are read, and generated instructions.
//!
//! They call public functions alone: each call once with memory, and the spellings that come from outside.
#![tactic(auto)]

#[cfg(test)]
mod tests;
