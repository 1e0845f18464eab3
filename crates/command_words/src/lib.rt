//! Reads the words of the command line.
//!
//! `read_args` has the words read by a command of `clap`, and then reads the texts of the arguments: the prefix, the API
//! version and the numbers. Its clause is exact both ways, by the grammar of `model_commands` (`specs/Grammar.antt`): what
//! is asked for is what the words ask for, and words are refused only where they are no command.
//!
//! # Choices
//!
//! - The grammar is stated apart from `clap`'s walk over the words, so the clause of `read_args` doesn't repeat what `clap`
//!   says of itself.
//! - The command of `clap` is a value (`program` in `laws_commands`), and the builder's clause is that it made that one. So a
//!   builder that leaves something out is refused here, and the law on words needs no code.
//! - Words are texts (`ArgWords`), as the law on `clap` asks: in its definitions a word of a hyphen and bytes that begin no
//!   character would be positional. A word that isn't UTF-8 never becomes one of `ArgWords`.
//! - Usage is answered only for words that are no command. Want of memory may come for any: judging words takes some.
#![tactic(auto)]

mod args;
mod command;
mod fault;
mod reading;

pub use args::ArgWords;
pub use fault::ArgFault;
pub use model_commands::{Args, RunArgs};
pub use reading::read_args;
