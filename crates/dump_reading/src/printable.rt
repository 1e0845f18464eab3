//! Reading of the printable form of bytes.

ghost use Rattle.std.specs.Prelude.{◌≡◌, ◌≤◌, ℕ, List, IfOk};
ghost use Rattle.key_bytes.specs.Keys.{IsByteString};
ghost use Rattle.model_lines.specs.Printing.{is_plain, printable_but};
ghost use Rattle.model_lines.specs.Reading.{digit_of};
ghost use Rattle.dump_reading.specs.Spellings.{is_by_digits, digits_at, escape_at, byte_at};
ghost use Rattle.dump_reading.specs.Seen.{spelling_is};
ghost use Rattle.dump_reading.specs.Printable.{IsBadAt, ReadsAs, FailsIn, StopsAt};

use crate::fault::PrintableFault;
use key_bytes::Bytes;
use std::alloc::Global;

/// What bytes begin with: a byte that is spelled, and what stands behind it, or nothing that is spelled.
#[derive(Clone, Copy)]
pub enum Spelling<'a> {
    /// A byte is spelled.
    Byte(u8, &'a [u8]),
    /// No rule fits.
    Unfit,
}

// Whether a byte stands for itself where no byte more is spelled by its digits.
fn is_plain(byte: u8) -> bool
    ensures { result ≡ is_plain byte }
{
    byte >= 0x20 && byte < 0x7f && byte != b'\\'
}

/// Returns the value of a lower-case hexadecimal digit, or 16 for any other byte.
pub fn digit_of(byte: u8) -> u8
    ensures value { result ≡ digit_of byte }
    ensures small { result ≤ 16 }
{
    match byte {
        b'0'..=b'9' => byte - b'0',
        b'a'..=b'f' => byte - b'a' + 10,
        _ => 16,
    }
}

// Whether a byte is spelled by its digits.
fn is_by_digits(escaped: Option<u8>, byte: u8) -> bool
    ensures { result ≡ is_by_digits escaped byte }
{
    match escaped {
        Some(escaped) if byte == escaped => true,
        _ => !is_plain(byte) && byte != b'\\',
    }
}

// The byte of the two digits at the front, where it is spelled by them.
fn digits_of(escaped: Option<u8>, bytes: &[u8]) -> Spelling<'_>
    ensures { spelling_is result ≡ digits_at escaped bytes.now }
{
    let [high, low, rest @ ..] = bytes else {
        return Spelling::Unfit;
    };
    let high = digit_of(*high);
    let low = digit_of(*low);
    if high >= 16 || low >= 16 || !is_by_digits(escaped, 16 * high + low) {
        return Spelling::Unfit;
    }
    Spelling::Byte(16 * high + low, rest)
}

// The byte that is spelled behind a backslash.
fn escape_of(escaped: Option<u8>, bytes: &[u8]) -> Spelling<'_>
    ensures { spelling_is result ≡ escape_at escaped bytes.now }
{
    match bytes {
        [b'\\', rest @ ..] if !is_by_digits(escaped, b'\\') => Spelling::Byte(b'\\', rest),
        [b'x', digits @ ..] => digits_of(escaped, digits),
        _ => Spelling::Unfit,
    }
}

/// Reads the byte that is spelled at the front of a printable form, in which the byte `escaped`, where one is given,
/// is spelled by its digits too.
#[tactic(auto, unfolding(crate::specs::Spellings::byte_at))]
pub fn spelling_of(escaped: Option<u8>, bytes: &[u8]) -> Spelling<'_>
    ensures { spelling_is result ≡ byte_at escaped bytes.now }
{
    match bytes {
        [b'\\', rest @ ..] => escape_of(escaped, rest),
        [byte, rest @ ..] if is_plain(*byte) && !is_by_digits(escaped, *byte) => {
            Spelling::Byte(*byte, rest)
        }
        _ => Spelling::Unfit,
    }
}

/// Reads bytes from their printable form, in which the byte `escaped`, where one is given, is spelled by its
/// digits too. An error is the first place where no byte is spelled, which for a wrong escape is that of its
/// backslash, or that memory ran out.
pub fn read_printable(
    alloc: Global,
    bytes: &[u8],
    escaped: Option<u8>,
) -> Result<Bytes, PrintableFault>
    // What is read is spelled so.
    ensures found { IfOk result (λ read. (bytes.now ≡ printable_but escaped read) × IsByteString read) }
    // What is spelled so is read, unless memory runs out.
    ensures only { (read : List ℕ) → IsByteString read → bytes.now ≡ printable_but escaped read → ReadsAs read result }
    // A fault is at a place where nothing is spelled.
    ensures exact { FailsIn escaped bytes.now result }
    // Where there is such a place, reading stops there, unless memory runs out.
    ensures stops { (place : ℕ) → IsBadAt escaped bytes.now place → StopsAt place result }
{
    let mut read = Vec::new(alloc);
    let mut left = bytes;
    while !left.is_empty() {
        match spelling_of(escaped, left) {
            Spelling::Byte(byte, rest) => {
                read.push(byte)?;
                left = rest;
            }
            Spelling::Unfit => {
                return Err(PrintableFault::Bad {
                    place: bytes.len() - left.len(),
                });
            }
        }
    }
    Ok(Bytes::from_vec(read)?)
}
