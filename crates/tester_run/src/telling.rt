//! What is told on err.

ghost use Rattle.std.specs.Prelude.{◌≡◌, ◌++◌, codes, decimal, IfOk, OnOk};
ghost use Rattle.tester_run.specs.Faults.{NoRequest};
ghost use Rattle.tester_run.specs.Refusals.{line_in, order_in, pair_in, IsLineOf};
ghost use Rattle.tester_run.specs.Tellings.{told, fault_text, IsWritten};

use dump_text::LineFault;
use instr_text::DisFault;
use itoa::Buffer;
use machine_runs::OrderFault;
use outside::{Sink, write_all};
use std::alloc::{AllocError, Global};

// Writes these bytes. Where err fails a front of them is written, and nothing else is done of it.
pub(crate) fn tell<N: Sink>(err: &mut N, bytes: &[u8])
    ensures { IsWritten bytes.now (N.written err.old) (N.written err.new) (N.faults err.old) (N.faults err.new) }
{
    let _whole = write_all(err, bytes);
}

// Adds the digits of a number.
fn add_number(to: &mut Vec<u8>, number: u64) -> Result<(), AllocError>
    ensures { OnOk result (to.new.items ≡ to.old.items ++ decimal number) }
{
    let mut buffer = Buffer::new();
    to.extend_from_slice(buffer.format(number).as_bytes())
}

// How each line of a fault begins.
fn begun(alloc: Global, line: u64) -> Result<Vec<u8>, AllocError>
    ensures { IfOk result (λ text. text.items ≡ codes "fdbtester: line " ++ decimal line) }
{
    let mut text = Vec::from_slice(alloc, b"fdbtester: line ")?;
    add_number(&mut text, line)?;
    Ok(text)
}

// The line of a byte that fits no rule.
fn bad_line(alloc: Global, line: u64, place: u64) -> Result<Vec<u8>, AllocError>
    ensures { IfOk result (λ text. text.items
        ≡ told (codes "line " ++ decimal line ++ codes ": bad at " ++ decimal place)) }
{
    let mut text = begun(alloc, line)?;
    text.extend_from_slice(b": bad at ")?;
    add_number(&mut text, place)?;
    text.push(b'\n')?;
    Ok(text)
}

// The line of what is wrong with a whole line.
fn whole_line(alloc: Global, line: u64, ending: &[u8]) -> Result<Vec<u8>, AllocError>
    ensures { IfOk result (λ text. text.items ≡ told (codes "line " ++ decimal line ++ ending.now)) }
{
    let mut text = begun(alloc, line)?;
    text.extend_from_slice(ending)?;
    text.push(b'\n')?;
    Ok(text)
}

// The line of a fault of a line.
pub(crate) fn line_fault_line(alloc: Global, fault: LineFault) -> Result<Vec<u8>, AllocError>
    ensures { IfOk result (λ text. IsLineOf (line_in fault) text.items) }
{
    match fault {
        LineFault::BadLine { line, place } => { bad_line(alloc, u64::from(line), u64::from(place)) }
        LineFault::TooLong { line } => whole_line(alloc, u64::from(line), b": too long"),
        LineFault::TooMany { line } => whole_line(alloc, u64::from(line), b": too many"),
        LineFault::NoMemory => Err(AllocError),
    }
}

// The line of a fault of a pair.
pub(crate) fn pair_fault_line(alloc: Global, fault: DisFault) -> Result<Vec<u8>, AllocError>
    ensures { IfOk result (λ text. IsLineOf (pair_in fault) text.items) }
{
    match fault {
        DisFault::NotInstruction { line } => {
            whole_line(alloc, u64::from(line), b": not an instruction")
        }
        DisFault::NoMemory => Err(AllocError),
    }
}

// The line of a machine that has no request at a place of the order.
fn no_request(alloc: Global, place: u64, machine: u64) -> Result<Vec<u8>, AllocError>
    ensures { IfOk result (λ text. text.items ≡ told (fault_text (NoRequest place machine))) }
{
    let mut text = Vec::from_slice(alloc, b"fdbtester: order place ")?;
    add_number(&mut text, place)?;
    text.extend_from_slice(b": machine ")?;
    add_number(&mut text, machine)?;
    text.extend_from_slice(b" has no request\n")?;
    Ok(text)
}

// The line of a fault of an order.
pub(crate) fn order_fault_line(alloc: Global, fault: OrderFault) -> Result<Vec<u8>, AllocError>
    ensures { IfOk result (λ text. IsLineOf (order_in fault) text.items) }
{
    match fault {
        OrderFault::NoRequest { place, machine } => no_request(alloc, place, u64::from(machine)),
        OrderFault::EndsEarly => Vec::from_slice(alloc, b"fdbtester: order ends early\n"),
        OrderFault::NoMemory => Err(AllocError),
    }
}
