//! The printable form of bytes.

ghost use Rattle.std.specs.Prelude.{◌≡◌, ◌+◌, ◌*◌, ◌<◌, ◌≤◌, ◌++◌, false, Some, take, length, IfOk, OnOk, OnErr};
ghost use Rattle.std.specs.Vec.{vec_len, vec_capacity};
ghost use Rattle.model_lines.specs.Printing.{is_plain, in_digits, printed, printable, printable_but, hexadecimal_digit, pair_line};
ghost use Rattle.dump_text.specs.Growing.{Grew};

use crate::plain::split_plain;
use crate::room::{put_pair_line, put_printable};
use key_bytes::Bytes;
use memchr::memchr;
use std::alloc::AllocError;

// The digits.
const DIGITS: &[u8; 16] = b"0123456789abcdef";

// The digit of a number below 16.
#[inline(always)]
fn hexadecimal_digit(n: u8) -> u8
    requires { n < 16 }
    ensures { result ≡ hexadecimal_digit n }
{
    DIGITS[usize::from(n)]
}

// Adds a byte's spelling by its two digits, for which there is room.
#[inline(always)]
fn put_digits(to: &mut Vec<u8>, byte: u8)
    requires { vec_len to.old + 4 ≤ vec_capacity to.old }
    ensures items { to.new.items ≡ to.old.items ++ in_digits byte }
    ensures len { vec_len to.new ≡ vec_len to.old + 4 }
    ensures capacity { vec_capacity to.new ≡ vec_capacity to.old }
{
    let high = hexadecimal_digit(byte / 16);
    let low = hexadecimal_digit(byte % 16);
    to.push_reserved(b'\\');
    to.push_reserved(b'x');
    to.push_reserved(high);
    to.push_reserved(low);
}

// Adds a byte's spelling by its two digits. After a refusal `to` is unchanged.
#[inline(always)]
fn add_digits(to: &mut Vec<u8>, byte: u8) -> Result<(), AllocError>
    ensures ok { OnOk result (to.new.items ≡ to.old.items ++ in_digits byte) }
    ensures err { OnErr result (to.new.items ≡ to.old.items) }
{
    to.reserve(4)?;
    put_digits(to, byte);
    Ok(())
}

// The end of a room behind `len` bytes that has four bytes for each of `count`.
#[inline(always)]
fn end_of_room(len: usize, count: usize) -> Result<usize, AllocError>
    ensures { IfOk result (λ end. end ≡ len + 4 * count) }
{
    match count.checked_mul(4) {
        Some(most) => len.checked_add(most).ok_or(AllocError),
        None => Err(AllocError),
    }
}

// Adds the printable form of bytes with escapes among them. It is put into a room of four times as many bytes, which is
// cut off behind it. After a refusal `to` is unchanged.
#[inline(never)]
fn add_escaped(to: &mut Vec<u8>, bytes: &[u8]) -> Result<(), AllocError>
    ensures ok { OnOk result (to.new.items ≡ to.old.items ++ printable bytes.now) }
    ensures err { OnErr result (to.new.items ≡ to.old.items) }
{
    let len = to.len();
    let end = end_of_room(len, bytes.len())?;
    to.resize(end, 0)?;
    let added = put_printable(&mut to[len..], 0, bytes);
    to.truncate(len + added);
    Ok(())
}

/// Adds the line of a pair, which is put into one room that is cut off behind it. After a refusal `to` is unchanged.
#[inline(never)]
pub fn add_pair_at_once(to: &mut Vec<u8>, key: &[u8], value: &[u8]) -> Result<(), AllocError>
    requires { length key.now + length value.now ≤ 256 }
    ensures ok { OnOk result (to.new.items ≡ to.old.items ++ pair_line key.now value.now) }
    ensures err { OnErr result (to.new.items ≡ to.old.items) }
{
    let len = to.len();
    let end = end_of_room(len, key.len() + value.len() + 2)?;
    to.resize(end, 0)?;
    let added = put_pair_line(&mut to[len..], key, value);
    to.truncate(len + added);
    Ok(())
}

/// Adds the printable form of `bytes`. After a refusal a part of it stands behind what `to` held.
#[inline(always)]
pub fn add_printable(to: &mut Vec<u8>, bytes: &[u8]) -> Result<(), AllocError>
    ensures ok { OnOk result (to.new.items ≡ to.old.items ++ printable bytes.now) }
    ensures err { OnErr result (Grew to.old.items to.new.items) }
{
    let (run, left) = split_plain(bytes);
    if left.is_empty() {
        return to.extend_from_slice(run);
    }
    add_escaped(to, bytes)
}

/// Returns `written`, and cuts `to` back to `len` bytes where that is a refusal.
pub fn or_cut_back(
    to: &mut Vec<u8>,
    len: usize,
    written: Result<(), AllocError>,
) -> Result<(), AllocError>
    ensures told { result ≡ written }
    ensures ok { OnOk written (to.new.items ≡ to.old.items) }
    ensures err { OnErr written (to.new.items ≡ take len to.old.items) }
{
    if written.is_err() {
        to.truncate(len);
    }
    written
}

// Adds the printable form of `bytes` in which one byte more is spelled by its digits. After a refusal a part of
// it stands behind what `to` held.
fn add_printable_but(to: &mut Vec<u8>, bytes: &[u8], escaped: u8) -> Result<(), AllocError>
    ensures ok { OnOk result (to.new.items ≡ to.old.items ++ printable_but (Some escaped) bytes.now) }
    ensures err { OnErr result (Grew to.old.items to.new.items) }
{
    let mut left = bytes;
    while let Some(n) = memchr(escaped, left) {
        add_printable(to, &left[..n])?;
        add_digits(to, escaped)?;
        left = &left[n + 1..];
    }
    add_printable(to, left)
}

// Adds the printable form of `bytes`, in which one byte more, where one is given, is spelled by its digits. After a
// refusal a part of it stands behind what `to` held.
#[tactic(auto, unfolding(model_lines::specs::Printing::printable_but, model_lines::specs::Printing::printable))]
fn add_chosen(to: &mut Vec<u8>, bytes: &[u8], escaped: Option<u8>) -> Result<(), AllocError>
    ensures ok { OnOk result (to.new.items ≡ to.old.items ++ printable_but escaped bytes.now) }
    ensures err { OnErr result (Grew to.old.items to.new.items) }
{
    match escaped {
        Some(escaped) => add_printable_but(to, bytes, escaped),
        None => add_printable(to, bytes),
    }
}

/// Adds the printable form of `bytes` at the end, in which the byte `escaped`, where one is given, is spelled by its
/// digits too. After a refusal `to` is as before.
pub fn write_printable(to: &mut Bytes, bytes: &[u8], escaped: Option<u8>) -> Result<(), AllocError>
    ensures ok { OnOk result (to.new ≡ to.old ++ printable_but escaped bytes.now) }
    ensures err { OnErr result (to.new ≡ to.old) }
{
    let mut text = Vec::new(to.allocator());
    add_chosen(&mut text, bytes, escaped)?;
    to.extend(text.as_slice())
}
