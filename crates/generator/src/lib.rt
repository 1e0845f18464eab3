//! What `gen N` runs: the instructions of main, which starts workers and waits for them, those of each worker, and the keys
//! that main waits for.
//!
//! `gen_pairs` makes the pairs that are loaded. They are defined, instruction by instruction, in `specs/Generated.antt`.
#![tactic(auto)]

mod names;
mod pairs;
mod script;
mod worker;

pub use pairs::gen_pairs;
