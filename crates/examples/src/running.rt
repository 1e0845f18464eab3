//! A run of a case.

use crate::case::{Case, CaseFault, read_case};
use fdb_program::program;
use outside::{MemSink, MemSource, OpenGate};
use std::alloc::{AllocError, Global};
use std::rt::Files;
use std::sync::Wait;
use std::thread::Threads;
use thiserror::Error;

/// The most bytes that a run may write beside those that are wanted.
const ROOM: usize = 65_536;

/// The bytes of one read or write: fewer than most lines have, so that a run takes many.
const PIECE: usize = 16;

/// What a run gave in place of what its case wants. Lines are counted from 1.
#[derive(Debug, Drop, Error)]
pub enum Difference {
    #[error("{0}")]
    Unread(CaseFault),
    #[error("the status is {0}")]
    Status(u8),
    #[error("line {0} of the output is another one")]
    Out(usize),
    #[error("line {0} of what is said to be wrong is another one")]
    Err(usize),
}

/// Reads a case, runs it, and returns what differs.
pub fn run_case<R: Files + Threads + Wait + Sync + AllocGlobal + Clone + Drop + Send + 'static>(
    rt: &R,
    block: &[u8],
) -> Result<Option<Difference>, AllocError> {
    match read_case(rt, block) {
        Ok(case) => try_case(rt, rt.alloc(), &case),
        Err(fault) => Ok(Some(Difference::Unread(fault))),
    }
}

// Runs the program over the input of a case.
fn try_case<R: Threads + Wait + Sync + Clone + Drop + Send + 'static>(
    rt: &R,
    alloc: Global,
    case: &Case,
) -> Result<Option<Difference>, AllocError> {
    let mut source = MemSource::new(alloc, case.input.as_slice(), PIECE, &[])?;
    let mut out = MemSink::new(alloc, case.out.len().saturating_add(ROOM), PIECE, &[])?;
    let mut err = MemSink::new(alloc, ROOM, PIECE, &[])?;
    let outcome = program(
        rt,
        alloc,
        &case.words,
        &mut source,
        &mut out,
        &mut err,
        &OpenGate,
    );
    Ok(judge(case, outcome.status, out.written(), err.written()))
}

// The status decides before the output, and that before the line that says what is wrong.
fn judge(case: &Case, status: u8, out: &[u8], err: &[u8]) -> Option<Difference> {
    if status != case.status {
        return Some(Difference::Status(status));
    }
    if out != case.out.as_slice() {
        return Some(Difference::Out(first_other_line(out, case.out.as_slice())));
    }
    if err != case.err.as_slice() {
        return Some(Difference::Err(first_other_line(err, case.err.as_slice())));
    }
    None
}

// The number of the first line that differs, counted from 1.
fn first_other_line(one: &[u8], other: &[u8]) -> usize {
    let mut line: usize = 1;
    for (byte, beside) in one.iter().zip(other.iter()) {
        if *byte != *beside {
            return line;
        }
        if *byte == b'\n' {
            line = line.saturating_add(1);
        }
    }
    line
}
