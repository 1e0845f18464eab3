//! The whole program as one call: the word `shell` alone begins the shell, and all other words are those of `tester`.
#![tactic(auto)]

mod top;

pub use tester_run::{ArgWords, Outcome};
pub use top::program;
