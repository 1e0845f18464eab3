//! The shell: lines of commands come in, each is done on a database that is empty at first, and what is printed for it goes out
//! before the next line is read.
//!
//! `shell` is the call; its clauses say what `out` holds at each status, and err. `model_shell` says what is printed for lines.
//! From below: `session.rt` does a command on the core (`shell_text` reads and prints its line, `shell_recipes` makes the calls of layers,
//! over `CoreTr`), `limits.rt` holds a line within its limit, `position.rt` says where reading stands, `reading.rt` takes the source's
//! bytes one by one, `telling.rt` writes the line on err, and `top.rt` has the call.
//!
//! # Choices
//!
//! - One byte is read at a time. Whoever reads more may read a line before the one in front of it is answered; and a person who
//!   types, or a program at the other end of a pipe, may wait for that answer before the next line is sent.
//! - A line is answered where its line feed, or the end of the source, was read. Of a line that is longer than a line may be, the
//!   first byte past the limit is the last one that is read.
//! - Each request uses the name of no byte, and a line outside a transaction makes that name's transaction anew.
//! - A core takes fewer than 2^62 requests. At the last one the shell ends as it does where memory runs out: no memory holds the
//!   order of so many, and no input within its limit asks so many.
#![tactic(auto)]

mod limits;
mod position;
mod reading;
mod session;
mod telling;
mod top;

pub use core_tr::CoreTr;
pub use top::shell;
