//! The line of what passes a limit.

ghost use Rattle.std.specs.Prelude.{◌≡◌, ◌++◌, codes, decimal, IfOk, OnOk};
ghost use Rattle.err_lines.specs.Told.{told};

use itoa::Buffer;
use std::alloc::{AllocError, Global};

// Adds the digits of a number.
fn add_number(to: &mut Vec<u8>, number: u64) -> Result<(), AllocError>
    ensures { OnOk result (to.new.items ≡ to.old.items ++ decimal number) }
{
    let mut buffer = Buffer::new();
    to.extend_from_slice(buffer.format(number).as_bytes())
}

// How each line of a fault begins.
fn begun(alloc: Global, line: u64) -> Result<Vec<u8>, AllocError>
    ensures { IfOk result (λ text. text.items ≡ codes "fdbtester: line " ++ decimal line) }
{
    let mut text = Vec::from_slice(alloc, b"fdbtester: line ")?;
    add_number(&mut text, line)?;
    Ok(text)
}

/// Returns the line that names a line of the input, with this text behind its number.
pub fn limit_line(alloc: Global, line: u64, ending: &[u8]) -> Result<Vec<u8>, AllocError>
    ensures { IfOk result (λ text. text.items ≡ told (codes "line " ++ decimal line ++ ending.now)) }
{
    let mut text = begun(alloc, line)?;
    text.extend_from_slice(ending)?;
    text.push(b'\n')?;
    Ok(text)
}
