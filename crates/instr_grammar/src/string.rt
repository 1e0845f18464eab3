//! Reading of bytes in printable form, and by their hexadecimal digits.

ghost use Rattle.std.specs.Prelude.{◌≡◌, ◌<◌, length, Ok, Some, IfOk};
ghost use Rattle.dump_reading.specs.FieldAnswers.{Gives};
ghost use Rattle.instr_grammar.specs.Reading.{run_of, behind_quote, may_be_utf8, digits_at, hexadecimal_at};

use dump_reading::{FieldFault, Spelling, digit_of, spelling_of};
use key_bytes::Bytes;
use std::alloc::{AllocError, Global};

/// Reads bytes from their printable form, in which the byte `escaped`, where one is given, is spelled by its digits
/// too, up to the first byte that spells none; returns them, and what is left.
pub fn run_of(
    alloc: Global,
    escaped: Option<u8>,
    bytes: &[u8],
) -> Result<(Bytes, &[u8]), AllocError>
    ensures { IfOk result (λ run. (run.0, run.1.now) ≡ run_of escaped bytes.now) }
{
    let mut read = Vec::new(alloc);
    let mut left = bytes;
    loop {
        match spelling_of(escaped, left) {
            Spelling::Byte(byte, rest) => {
                read.push(byte)?;
                left = rest;
            }
            Spelling::Unfit => return Ok((Bytes::from_vec(read)?, left)),
        }
    }
}

/// Reads the quote that ends a string.
pub fn behind_quote(left: &[u8]) -> Result<&[u8], FieldFault>
    ensures { Gives (λ rest. rest.now) result (behind_quote left.now) }
{
    match left {
        [b'\'', rest @ ..] => Ok(rest),
        _ => Err(FieldFault::Bad(left.len())),
    }
}

/// Tells whether bytes are UTF-8, or may become UTF-8 by more bytes behind them.
pub fn may_be_utf8(bytes: &[u8]) -> bool
    ensures { result ≡ may_be_utf8 bytes.now }
{
    match std::str::from_utf8(bytes) {
        Ok(_) => true,
        Err(fault) => fault.error_len().is_none(),
    }
}

// Reads a byte by its two digits.
#[tactic(auto, unfolding(crate::specs::Reading::digits_at))]
fn digits_of(bytes: &[u8]) -> Result<(u8, &[u8]), FieldFault>
    ensures { Gives (λ x. (x.0, x.1.now)) result (digits_at bytes.now) }
{
    match bytes {
        [] => Err(FieldFault::Bad(0)),
        [high] => Err(FieldFault::Bad(usize::from(digit_of(*high) >= 16))),
        [high, low, rest @ ..] => {
            let high = digit_of(*high);
            let low = digit_of(*low);
            if high >= 16 {
                return Err(FieldFault::Bad(bytes.len()));
            }
            if low >= 16 {
                return Err(FieldFault::Bad(bytes.len() - 1));
            }
            Ok((16 * high + low, rest))
        }
    }
}

/// Reads `N` bytes, each by its two digits.
pub fn hexadecimal_of<const N: usize>(bytes: &[u8]) -> Result<([u8; N], &[u8]), FieldFault>
    ensures { Gives (λ x. (x.0, x.1.now)) result (hexadecimal_at N bytes.now) }
{
    let mut read = [0; N];
    let mut left = bytes;
    let mut i = 0;
    while i < N {
        let (byte, rest) = digits_of(left)?;
        read[i] = byte;
        left = rest;
        i += 1;
    }
    Ok((read, left))
}
