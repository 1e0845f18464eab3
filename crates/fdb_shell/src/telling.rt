//! How a session ends that wasn't answered to its end.

ghost use Rattle.std.specs.Prelude.{◌++◌, codes, decimal};
ghost use Rattle.fdb_shell.specs.Outcomes.{past_limit};
ghost use Rattle.fdb_shell.specs.Endings.{IsRefused, IsShort, IsToldAt};

use crate::reading::Halt;
use err_lines::{limit_line, tell};
use outside::Sink;
use std::alloc::Global;

/// The input or a line passes its limit.
const PAST_LIMIT: u8 = 2;

/// The source failed.
const READ_FAULT: u8 = 4;

/// The sink failed.
const WRITE_FAULT: u8 = 5;

/// Memory ran out.
const OUT_OF_MEMORY: u8 = 6;

/// Tells on err why the session ended, and returns its status. Where memory is wanting for the text, that is told.
pub fn refused<N: Sink>(alloc: Global, err: &mut N, halt: Halt) -> u8
    ensures { IsRefused halt result (N.written err.old) (N.written err.new) (N.faults err.old) (N.faults err.new) }
{
    match halt {
        Halt::Read => {
            tell(err, b"fdbtester: read fault\n");
            READ_FAULT
        }
        Halt::Write => {
            tell(err, b"fdbtester: write fault\n");
            WRITE_FAULT
        }
        Halt::TooLong { line } => past_limit(alloc, err, line, b": too long"),
        Halt::TooMany { line } => past_limit(alloc, err, line, b": too many"),
        Halt::NoMemory => out_of_memory(err),
    }
}

// Tells that a line passes a limit.
fn past_limit<N: Sink>(alloc: Global, err: &mut N, line: u64, ending: &[u8]) -> u8
    ensures { IsToldAt past_limit (codes "line " ++ decimal line ++ ending.now) result
        (N.written err.old) (N.written err.new) (N.faults err.old) (N.faults err.new) }
{
    match limit_line(alloc, line, ending) {
        Ok(text) => {
            tell(err, text.as_slice());
            PAST_LIMIT
        }
        Err(_) => out_of_memory(err),
    }
}

// Tells that memory ran out.
fn out_of_memory<N: Sink>(err: &mut N) -> u8
    ensures { IsShort result (N.written err.old) (N.written err.new) (N.faults err.old) (N.faults err.new) }
{
    tell(err, b"fdbtester: out of memory\n");
    OUT_OF_MEMORY
}
