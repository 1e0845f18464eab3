//! Why a command of `clap` reads the words of the command line by their grammar.
//!
//! `specs/Program.antt` is the command of `clap`, as a value, and `specs/Found.antt` what its matches ask for. `proofs/` has the
//! laws by which it and the grammar of `model_commands` agree on every list of words: `clap` refuses exactly the words that the
//! grammar doesn't have, but for the values of arguments, and hands out the same arguments. `command_words` reads words by them.
#![tactic(auto)]
