//! Trials of the stack, of a machine's list of directories, of the machine and of its suspended machine: each call on its happy
//! path.
//!
//! They call public functions alone, so they stand apart from the crates of these calls, whose own functions aren't proved
//! again with them.
#![tactic(auto)]

#[cfg(test)]
mod tests;
