//! The command line in definitions: which words are a command, and what that command asks for.
//!
//! `src/` has the types of what is asked. `specs/Grammar.antt` says which words are which command, by definitions that no reader
//! takes part in. `laws_commands` shows that a command of `clap` reads words so, and `command_words` reads them.
#![tactic(auto)]

mod args;

pub use args::{Args, RunArgs};
