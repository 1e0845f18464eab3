//! Trials of client_core, directory and prefix_allocator by their public calls, each on its happy path. What requests are answered is
//! tried by the cases of the crate examples.
//!
//! They call public functions alone, so they stand apart: the functions of those crates aren't proved again with them.
#![tactic(auto)]

#[cfg(test)]
mod tests;
