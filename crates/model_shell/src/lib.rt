//! The shell in definitions: what a line asks, what that does to the database, and what is printed.
//!
//! Nothing here runs but the types of what a line asks. `specs/Tokens.antt` has the words of a line and the bytes that a token
//! spells, `specs/Commands.antt` the command that a line is, `specs/Requests.antt` requests one behind the other and what is
//! printed of their replies, `specs/Recipes.antt` the calls of layers, and `specs/Sessions.antt` the table of the commands and `shell`, what is printed for a list of
//! lines. `proofs/Rows.antt` has lines that were worked out by hand.
#![tactic(auto)]

mod command;
mod recipe;

pub use command::Command;
pub use recipe::Recipe;
