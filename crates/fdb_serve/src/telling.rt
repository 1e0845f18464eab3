//! How serving ends that didn't answer its source to its end.

ghost use Rattle.std.specs.Prelude.{◌≡◌, ◌++◌, codes, decimal, IfOk, OnOk};
ghost use Rattle.err_lines.specs.Told.{told};
ghost use Rattle.fdb_serve.specs.Outcomes.{bad_frame, flaw_text, frame_text};
ghost use Rattle.fdb_serve.specs.Endings.{IsRefused, IsShort, IsToldAt};

use crate::halt::{Flaw, Halt};
use err_lines::tell;
use itoa::Buffer;
use outside::Sink;
use std::alloc::{AllocError, Global};

/// A frame is bad.
const BAD_FRAME: u8 = 2;

/// The source failed.
const READ_FAULT: u8 = 4;

/// The sink failed.
const WRITE_FAULT: u8 = 5;

/// Memory ran out.
const OUT_OF_MEMORY: u8 = 6;

// What is told of a flaw, behind the number of its frame.
fn flaw_text(flaw: Flaw) -> &'static [u8]
    ensures { result.now ≡ flaw_text flaw }
{
    match flaw {
        Flaw::NoRequest => b": no request",
        Flaw::TooLong => b": too long",
        Flaw::CutShort => b": cut short",
    }
}

// Adds the digits of a number.
fn add_number(to: &mut Vec<u8>, number: u64) -> Result<(), AllocError>
    ensures { OnOk result (to.new.items ≡ to.old.items ++ decimal number) }
{
    let mut buffer = Buffer::new();
    to.extend_from_slice(buffer.format(number).as_bytes())
}

// How the line of a frame begins.
fn begun(alloc: Global, number: u64) -> Result<Vec<u8>, AllocError>
    ensures { IfOk result (λ text. text.items ≡ codes "fdbtester: frame " ++ decimal number) }
{
    let mut text = Vec::from_slice(alloc, b"fdbtester: frame ")?;
    add_number(&mut text, number)?;
    Ok(text)
}

// The line of a bad frame.
fn frame_line(alloc: Global, number: u64, flaw: Flaw) -> Result<Vec<u8>, AllocError>
    ensures { IfOk result (λ text. text.items ≡ told (frame_text number flaw)) }
{
    let mut text = begun(alloc, number)?;
    text.extend_from_slice(flaw_text(flaw))?;
    text.push(b'\n')?;
    Ok(text)
}

/// Tells on err why serving ended, where the next frame has this number, and returns its status. Where memory is wanting for the text,
/// that is told.
pub fn refused<N: Sink>(alloc: Global, err: &mut N, number: u64, halt: Halt) -> u8
    ensures { IsRefused halt number result (N.written err.old) (N.written err.new) (N.faults err.old) (N.faults err.new) }
{
    match halt {
        Halt::Read => {
            tell(err, b"fdbtester: read fault\n");
            READ_FAULT
        }
        Halt::Write => {
            tell(err, b"fdbtester: write fault\n");
            WRITE_FAULT
        }
        Halt::Bad(flaw) => bad_frame(alloc, err, number, flaw),
        Halt::NoMemory => out_of_memory(err),
    }
}

// Tells that a frame is bad.
fn bad_frame<N: Sink>(alloc: Global, err: &mut N, number: u64, flaw: Flaw) -> u8
    ensures { IsToldAt bad_frame (frame_text number flaw) result
        (N.written err.old) (N.written err.new) (N.faults err.old) (N.faults err.new) }
{
    match frame_line(alloc, number, flaw) {
        Ok(text) => {
            tell(err, text.as_slice());
            BAD_FRAME
        }
        Err(_) => out_of_memory(err),
    }
}

// Tells that memory ran out.
fn out_of_memory<N: Sink>(err: &mut N) -> u8
    ensures { IsShort result (N.written err.old) (N.written err.new) (N.faults err.old) (N.faults err.new) }
{
    tell(err, b"fdbtester: out of memory\n");
    OUT_OF_MEMORY
}
