//! Trials of recipe_layers by its public calls, each over a transaction of its own on an empty store, and of the lines of the shell.
//!
//! They call public functions alone, so they stand apart: the functions of those crates aren't proved again with them.
#![tactic(auto)]

#[cfg(test)]
mod tests;
