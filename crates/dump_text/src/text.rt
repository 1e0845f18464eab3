//! Reading of the printable form of bytes.

ghost use Rattle.std.specs.Prelude.{◌≡◌, ◌+◌, ◌≤◌, ◌∷◌, length, take, drop, IfOk, OnOk};
ghost use Rattle.std.specs.List.{prefix_len, take_while};
ghost use Rattle.std.specs.Vec.{vec_len};
ghost use Rattle.model_lines.specs.Printing.{is_plain};
ghost use Rattle.model_lines.specs.Reading.{piece_at, escaped_piece, hexadecimal_piece, digit_of, text_of};
ghost use Rattle.dump_text.specs.Texts.{piece_is, stop_is, text_is, with_front, passed};

use crate::plain::{is_plain, split_plain};
use crate::room::{put, put_plain};
use key_bytes::Bytes;
use std::alloc::{AllocError, Global};

/// What the bytes left of a line begin with; each piece that takes bytes has those behind it.
#[derive(Clone, Copy)]
pub enum Piece<'a> {
    /// No byte is left.
    Nothing,
    /// A byte is spelled, by itself or otherwise.
    Spelled(u8, &'a [u8]),
    /// The separator stands.
    Separator(&'a [u8]),
    /// No rule fits.
    Unfit,
}

/// Why reading stopped.
#[derive(Clone, Copy)]
pub enum Stop {
    /// No byte was left.
    AtEnd,
    /// The separator was passed.
    AtSeparator,
    /// The next byte fits no rule.
    AtFault,
}

/// What was read of a printable form, and what is left: behind the separator, or from the byte on that fits no rule.
#[derive(Drop)]
pub struct ReadText<'a> {
    pub bytes: Bytes,
    pub stop: Stop,
    pub left: &'a [u8],
}

/// The value of each byte as a hexadecimal digit, 16 where it is none.
pub(crate) const DIGITS: [u8; 256] = [
    16, 16, 16, 16, 16, 16, 16, 16, 16, 16, 16, 16, 16, 16, 16, 16, 16, 16, 16, 16, 16, 16, 16, 16,
    16, 16, 16, 16, 16, 16, 16, 16, 16, 16, 16, 16, 16, 16, 16, 16, 16, 16, 16, 16, 16, 16, 16, 16,
    0, 1, 2, 3, 4, 5, 6, 7, 8, 9, 16, 16, 16, 16, 16, 16, 16, 16, 16, 16, 16, 16, 16, 16, 16, 16,
    16, 16, 16, 16, 16, 16, 16, 16, 16, 16, 16, 16, 16, 16, 16, 16, 16, 16, 16, 16, 16, 16, 16, 10,
    11, 12, 13, 14, 15, 16, 16, 16, 16, 16, 16, 16, 16, 16, 16, 16, 16, 16, 16, 16, 16, 16, 16, 16,
    16, 16, 16, 16, 16, 16, 16, 16, 16, 16, 16, 16, 16, 16, 16, 16, 16, 16, 16, 16, 16, 16, 16, 16,
    16, 16, 16, 16, 16, 16, 16, 16, 16, 16, 16, 16, 16, 16, 16, 16, 16, 16, 16, 16, 16, 16, 16, 16,
    16, 16, 16, 16, 16, 16, 16, 16, 16, 16, 16, 16, 16, 16, 16, 16, 16, 16, 16, 16, 16, 16, 16, 16,
    16, 16, 16, 16, 16, 16, 16, 16, 16, 16, 16, 16, 16, 16, 16, 16, 16, 16, 16, 16, 16, 16, 16, 16,
    16, 16, 16, 16, 16, 16, 16, 16, 16, 16, 16, 16, 16, 16, 16, 16, 16, 16, 16, 16, 16, 16, 16, 16,
    16, 16, 16, 16, 16, 16, 16, 16, 16, 16, 16, 16, 16, 16,
];

// The value of a hexadecimal digit, 16 for any other byte.
#[inline(always)]
fn digit_of(byte: u8) -> u8
    ensures value { result ≡ digit_of byte }
    ensures small { result ≤ 16 }
{
    DIGITS[usize::from(byte)]
}

// A byte that has no shorter spelling, by its two digits.
#[inline(always)]
fn hexadecimal_piece(high: u8, low: u8, rest: &[u8]) -> Piece<'_>
    ensures { piece_is result ≡ hexadecimal_piece (high ∷ low ∷ rest.now) }
{
    let high = digit_of(high);
    let low = digit_of(low);
    if high >= 16 || low >= 16 {
        return Piece::Unfit;
    }
    let byte = 16 * high + low;
    if is_plain(byte) || byte == b'\\' {
        return Piece::Unfit;
    }
    Piece::Spelled(byte, rest)
}

// What stands behind a backslash.
#[inline(always)]
fn escaped_piece(bytes: &[u8]) -> Piece<'_>
    ensures { piece_is result ≡ escaped_piece bytes.now }
{
    match bytes {
        [b'x', high, low, rest @ ..] => hexadecimal_piece(*high, *low, rest),
        [b'=', rest @ ..] => Piece::Separator(rest),
        [b'\\', rest @ ..] => Piece::Spelled(b'\\', rest),
        _ => Piece::Unfit,
    }
}

// What `bytes` begins with.
#[inline]
#[tactic(auto, unfolding(model_lines::specs::Reading::piece_at))]
fn piece_of(bytes: &[u8]) -> Piece<'_>
    ensures { piece_is result ≡ piece_at bytes.now }
{
    match bytes {
        [] => Piece::Nothing,
        [b'\\', rest @ ..] => escaped_piece(rest),
        [byte, rest @ ..] if is_plain(*byte) => Piece::Spelled(*byte, rest),
        _ => Piece::Unfit,
    }
}

// A copy of what was read, with why reading stopped and what is left.
#[inline(always)]
fn copy_up_to<'a>(
    alloc: Global,
    bytes: &[u8],
    stop: Stop,
    left: &'a [u8],
) -> Result<ReadText<'a>, AllocError>
    ensures value { IfOk result (λ text. text_is text ≡ record { bytes = bytes.now; stop = stop_is stop; left = left.now }) }
    ensures place { IfOk result (λ text. length text.left.now + passed text.stop ≡ length left.now + passed stop) }
{
    let bytes = Bytes::from_slice(alloc, bytes)?;
    Ok(ReadText { bytes, stop, left })
}

// Room for so many bytes in the scratch buffer, whatever that holds.
#[inline(always)]
fn make_room(scratch: &mut Vec<u8>, len: usize) -> Result<(), AllocError>
    ensures { OnOk result (len ≤ vec_len scratch.new) }
{
    if scratch.len() < len {
        scratch.resize(len, 0)?;
    }
    Ok(())
}

// Puts bytes at a place that stand for themselves: those that `bytes` begins with, sixteen at a time, but not always all of
// them. Where they end, and what is left. No run is looked for among fewer than eight bytes, nor where a backslash stands
// at the front.
#[inline(always)]
fn put_run<'a>(room: &mut [u8], at: usize, bytes: &'a [u8]) -> (usize, &'a [u8])
    requires { at + length bytes.now ≤ length room.old }
    ensures read { with_front (take result.0 room.new) (text_of result.1.now) ≡ with_front (take at room.old) (text_of bytes.now) }
    ensures place { result.0 + length result.1.now ≡ at + length bytes.now }
    ensures within { length result.1.now ≤ length bytes.now }
    ensures len { length room.new ≡ length room.old }
{
    if bytes.len() < 8 || bytes[0] == b'\\' {
        return (at, bytes);
    }
    let mut end = at;
    let mut left = bytes;
    let mut count = 16;
    while count == 16 {
        count = put_plain(room, end, left);
        end += count;
        left = &left[count..];
    }
    (end, left)
}

// What bytes spell. It is built in the scratch buffer, whatever that held: no more bytes are spelled than are left.
#[inline(never)]
fn read_on<'a>(
    alloc: Global,
    scratch: &mut Vec<u8>,
    bytes: &'a [u8],
) -> Result<ReadText<'a>, AllocError>
    ensures value { IfOk result (λ text. text_is text ≡ text_of bytes.now) }
    ensures within { IfOk result (λ text. length text.left.now + passed text.stop ≤ length bytes.now) }
{
    make_room(scratch, bytes.len())?;
    let room = scratch.as_mut_slice();
    let mut len = 0;
    let mut left = bytes;
    loop {
        let (end, behind) = put_run(room, len, left);
        match piece_of(behind) {
            Piece::Spelled(byte, rest) => {
                put(room, end, byte);
                len = end + 1;
                left = rest;
            }
            Piece::Nothing => return copy_up_to(alloc, &room[..end], Stop::AtEnd, behind),
            Piece::Separator(rest) => {
                return copy_up_to(alloc, &room[..end], Stop::AtSeparator, rest);
            }
            Piece::Unfit => return copy_up_to(alloc, &room[..end], Stop::AtFault, behind),
        }
    }
}

// The bytes at the front that stand for themselves, and all from the first that does not. No run is looked for where a
// backslash stands at the front.
#[inline(always)]
fn split_run(bytes: &[u8]) -> (&[u8], &[u8])
    ensures front { result.0.now ≡ take_while is_plain bytes.now }
    ensures rest { result.1.now ≡ drop (prefix_len is_plain bytes.now) bytes.now }
{
    if let [b'\\', ..] = bytes {
        return bytes.split_at(0);
    }
    split_plain(bytes)
}

/// Reads the bytes that are spelled up to the end, the separator or a fault. One plain run is copied as it
/// stands; only a text with an escape in it is built in the scratch buffer, whatever that held.
#[inline(always)]
pub fn read_text<'a>(
    alloc: Global,
    scratch: &mut Vec<u8>,
    bytes: &'a [u8],
) -> Result<ReadText<'a>, AllocError>
    ensures value { IfOk result (λ text. text_is text ≡ text_of bytes.now) }
    ensures within { IfOk result (λ text. length text.left.now + passed text.stop ≤ length bytes.now) }
{
    let (run, left) = split_run(bytes);
    match left {
        [] => copy_up_to(alloc, run, Stop::AtEnd, left),
        [b'\\', b'=', rest @ ..] => copy_up_to(alloc, run, Stop::AtSeparator, rest),
        _ => read_on(alloc, scratch, bytes),
    }
}
