//! How a file of requests spells bytes: those from 21 to 7E as they are, a backslash as `\\`, any other byte, a space too, as `\x` and
//! two digits. `\*N;` stands for N of the byte before it, and `''` for no byte at all.

use crate::spell_fault::SpellFault;
use key_bytes::{Bytes, Pairs};
use std::alloc::{AllocError, Global};
use std::fmt::Write;
use std::str::FromStr;

/// Reads the words of a line, apart by single spaces.
pub fn read_words(alloc: Global, line: &[u8]) -> Result<Vec<Bytes>, SpellFault> {
    let mut words = Vec::new(alloc);
    for word in line.split(is_space) {
        words.push(read_bytes(alloc, word)?)?;
    }
    Ok(words)
}

fn is_space(byte: &u8) -> bool {
    *byte == b' '
}

// Reads the bytes that a word spells.
fn read_bytes(alloc: Global, word: &[u8]) -> Result<Bytes, SpellFault> {
    if word == b"''".as_slice() {
        return Ok(Bytes::new(alloc));
    }
    let mut bytes = Vec::new(alloc);
    let mut rest = word;
    for _ in 0..word.len() {
        rest = take_byte(&mut bytes, rest)?;
    }
    Ok(Bytes::from_vec(bytes)?)
}

// Takes one byte off, or a count of the byte before, and returns what is left.
fn take_byte<'a>(bytes: &mut Vec<u8>, rest: &'a [u8]) -> Result<&'a [u8], SpellFault> {
    match rest {
        [] => Ok(rest),
        [b'\\', b'\\', after @ ..] => {
            bytes.push(b'\\')?;
            Ok(after)
        }
        [b'\\', b'x', high, low, after @ ..] => {
            bytes.push(digit(*high)?.wrapping_mul(16).wrapping_add(digit(*low)?))?;
            Ok(after)
        }
        [b'\\', b'*', after @ ..] => take_count(bytes, after),
        [b'\\', ..] => Err(SpellFault::Spelling),
        [byte, after @ ..] => {
            bytes.push(*byte)?;
            Ok(after)
        }
    }
}

fn digit(byte: u8) -> Result<u8, SpellFault> {
    match byte {
        b'0'..=b'9' => Ok(byte - b'0'),
        b'a'..=b'f' => Ok(byte - b'a' + 10),
        _ => Err(SpellFault::Spelling),
    }
}

// Takes a count and its semicolon off, and adds so many of the last byte, itself counted.
fn take_count<'a>(bytes: &mut Vec<u8>, rest: &'a [u8]) -> Result<&'a [u8], SpellFault> {
    let end = rest
        .iter()
        .position(|byte| *byte == b';')
        .unwrap_or(rest.len());
    let count = number::<usize>(rest.get(..end).unwrap_or(b""))?;
    let last = bytes.last().copied().unwrap_or(0);
    let len = bytes.len().saturating_add(count).saturating_sub(1);
    bytes.resize(len, last)?;
    Ok(rest.get(end.saturating_add(1)..).unwrap_or(b""))
}

/// Reads a number.
pub fn number<N: FromStr>(text: &[u8]) -> Result<N, SpellFault>
where
    <N as FromStr>::Err: Drop,
{
    let Ok(text) = str::from_utf8(text) else {
        return Err(SpellFault::Number);
    };
    match text.parse() {
        Ok(number) => Ok(number),
        Err(_) => Err(SpellFault::Number),
    }
}

/// Adds the spelling of bytes.
pub fn spell(to: &mut String, bytes: &[u8]) -> Result<(), AllocError> {
    if bytes.is_empty() {
        return to.push_str("''");
    }
    for byte in bytes {
        spell_byte(to, *byte)?;
    }
    Ok(())
}

fn spell_byte(to: &mut String, byte: u8) -> Result<(), AllocError> {
    match byte {
        b'\\' => to.push_str("\\\\"),
        0x21..=0x7e => to.push(char::from(byte)),
        _ => write!(to, "\\x{byte:02x}"),
    }
}

/// Adds each pair, with a space before it: its key, `\=` and its value.
pub fn spell_pairs(to: &mut String, pairs: &Pairs) -> Result<(), AllocError> {
    for pair in pairs.as_slice() {
        to.push(' ')?;
        spell(to, pair.key.as_slice())?;
        to.push_str("\\=")?;
        spell(to, pair.value.as_slice())?;
    }
    Ok(())
}
