//! Lines of the shell, both ways: the command that a line is, and what is printed.
//!
//! `model_shell` has the tokens, the commands and the printed lines. `command_of` reads a line, and is Bad exactly where the line is no
//! command. Each `add_` call adds a printed line, or the lines of a reply, to a text; after a refusal a part of it may stand there.
#![tactic(auto)]

mod command;
mod recipe;
mod recipe_text;
mod text;
mod words;

pub use command::command_of;
pub use recipe_text::{add_bytes, add_counts, add_item, add_size};
pub use text::{add_code, add_error, add_line, add_range, add_value, add_version};
pub use words::Unread;
