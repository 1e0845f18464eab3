//! Lines at their limits, and the text of a fault. Cases have the lines that are read and written, and the place of each kind of fault.

use dump_text::{Form, LineFault, read_lines, write_pair_line};
use std::alloc::{AllocError, Global};
use std::test::Fail;

fn fault_of(alloc: Global, input: &[u8]) -> Option<LineFault> {
    read_lines(alloc, input, Form::Run).err()
}

// The fault of an input of one pair, whose key and value repeat a byte.
fn fault_of_pair(
    alloc: Global,
    key_len: usize,
    value_len: usize,
) -> Result<Option<LineFault>, AllocError> {
    let key = vec![in alloc; b'a'; key_len]?;
    let value = vec![in alloc; b'\0'; value_len]?;
    let mut input = Vec::new(alloc);
    write_pair_line(&mut input, key.as_slice(), value.as_slice())?;
    Ok(fault_of(alloc, input.as_slice()))
}

fn fault_of_line(alloc: Global, len: usize) -> Result<Option<LineFault>, AllocError> {
    let input = vec![in alloc; b'a'; len]?;
    Ok(fault_of(alloc, input.as_slice()))
}

// The faults of a pair at both limits, of one past each, and of a line at its limit and one past it.
fn faults_at_limits(alloc: Global) -> Result<[Option<LineFault>; 5], AllocError> {
    let whole = fault_of_pair(alloc, 10_000, 100_000)?;
    let key = fault_of_pair(alloc, 10_001, 1)?;
    let value = fault_of_pair(alloc, 1, 100_001)?;
    let line = fault_of_line(alloc, 440_004)?;
    Ok([whole, key, value, line, fault_of_line(alloc, 440_005)?])
}

#[test]
fn long_lines(rt: HostRuntime) -> Result<(), Fail> {
    let long = Some(LineFault::TooLong { line: 1 });
    let bad = Some(LineFault::BadLine { line: 1, place: 0 });
    assert_eq!(rt;
        faults_at_limits(rt.alloc())?,
        [None, long, long, bad, long]
    );
    Ok(())
}

#[test]
fn fault_text(rt: HostRuntime) -> Result<(), Fail> {
    let fault = LineFault::BadLine { line: 2, place: 5 };
    let text = format!(in rt.alloc(); "{fault}")?;
    assert_eq!(rt; text.as_str(), "line 2: the byte at 5 fits no rule");
    Ok(())
}
