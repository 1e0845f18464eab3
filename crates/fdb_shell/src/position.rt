//! Where reading stands.
//!
//! The struct has a file of its own, since what it says of its fields speaks of no definition that names it.

ghost use Rattle.std.specs.Prelude.{◌≤◌, ◌+◌, length};
ghost use Rattle.fdb_shell.specs.Limits.{line_limit, input_limit};

use crate::limits::LineBuffer;
use crate::session::Session;

/// A session, what was read of the line that comes next, the number of that line, and how many bytes were read.
#[derive(Drop)]
pub struct Reading {
    pub session: Session,
    pub line: LineBuffer,
    pub number: u64,
    pub count: u64,
    ghost short: { length line ≤ line_limit },
    ghost few: { count ≤ input_limit },
    ghost numbered: { number + length line ≤ count + 1 },
}
