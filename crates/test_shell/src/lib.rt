//! Trials of the shell where a source or a sink fails. What lines print is tried by the cases of the crate examples.
//!
//! They call `shell` alone, so they stand apart from it: its own functions aren't proved again with them.
#![tactic(auto)]

#[cfg(test)]
mod tests;
