//! Reading of the line of a pair.

ghost use Rattle.std.specs.Prelude.{◌≡◌, ◌+◌, ◌^◌, ◌<◌, ◌≤◌, nat_lt, length};
ghost use Rattle.key_bytes.specs.Entries.{entry_of};
ghost use Rattle.key_bytes.specs.Keys.{key_lt, top};
ghost use Rattle.model_lines.specs.Reading.{line_limit, is_pair, text_of, judged, pair_at, fields_at, value_at, pair_within};
ghost use Rattle.dump_text.specs.Reading.{Gives};
ghost use Rattle.dump_text.specs.InputLines.{line_is};

use crate::fault::LineFault;
use crate::text::{Stop, read_text};
use key_bytes::{Bytes, Pair};
use model_database::{KEY_LIMIT, VALUE_LIMIT};
use std::alloc::Global;

// How many bytes a line may have before its line feed.
const LINE_LIMIT: usize = 440_004;

/// A line of an input without its line feed, with its number, and whether the line feed is there.
#[derive(Clone, Copy)]
pub struct InputLine<'a> {
    pub number: u32,
    pub bytes: &'a [u8],
    pub is_whole: bool,
}

impl InputLine<'_> {
    /// Tells whether the line is of a pair, which its first byte tells.
    pub fn is_pair(&self) -> bool
        ensures { result ≡ is_pair self.now.bytes.now }
    {
        matches!(self.bytes, [b'K', ..])
    }

    /// Tells whether the line has too many bytes before its line feed.
    pub fn is_too_long(&self) -> bool
        ensures { result ≡ nat_lt line_limit (length self.now.bytes.now) }
    {
        self.bytes.len() > LINE_LIMIT
    }

    /// Returns the fault that the byte at this place fits no rule.
    pub fn bad_at(&self, place: usize) -> LineFault
        requires { place < 2 ^ 32 }
        ensures { result ≡ LineFault.BadLine self.now.number place }
    {
        LineFault::BadLine {
            line: self.number,
            place: place as u32,
        }
    }
}

/// Tells whether a key is less than `FF`, which its first byte tells.
pub fn is_below_top(key: &[u8]) -> bool
    ensures { result ≡ key_lt key.now top }
{
    match key {
        [] => true,
        [first, ..] => *first < 0xff,
    }
}

/// Reads the pair that a line spells, or returns the line's first fault.
#[tactic(auto, unfolding(model_lines::specs::Reading::pair_at))]
pub fn read_pair(
    alloc: Global,
    scratch: &mut Vec<u8>,
    line: &InputLine<'_>,
) -> Result<Pair, LineFault>
    requires { length line.now.bytes.now ≤ line_limit }
    ensures { Gives entry_of result
        (judged line.now.number (pair_at (line_is line.now) line.now.bytes.now)) }
{
    match line.bytes {
        [b'K', b' ', fields @ ..] => read_fields(alloc, scratch, line, fields),
        [b'K', ..] => Err(line.bad_at(1)),
        _ => Err(line.bad_at(0)),
    }
}

/// Reads the pair of the fields of a line, the key up to the separator and the value up to the line feed, or returns the line's
/// first fault. A text with an escape in it is built in the scratch buffer, whatever that held.
pub fn read_fields(
    alloc: Global,
    scratch: &mut Vec<u8>,
    line: &InputLine<'_>,
    fields: &[u8],
) -> Result<Pair, LineFault>
    requires limit { length line.now.bytes.now ≤ line_limit }
    requires within { length fields.now ≤ length line.now.bytes.now }
    ensures { Gives entry_of result
        (judged line.now.number (fields_at (line_is line.now) (text_of fields.now))) }
{
    let key = read_text(alloc, scratch, fields)?;
    if !is_below_top(key.bytes.as_slice()) {
        return Err(line.bad_at(2));
    }
    match key.stop {
        Stop::AtEnd => Err(line.bad_at(line.bytes.len())),
        Stop::AtSeparator => read_value(alloc, scratch, line, key.bytes, key.left),
        Stop::AtFault => Err(line.bad_at(line.bytes.len() - key.left.len())),
    }
}

// The pair of a key and what is left of the line: the value goes up to the line feed.
fn read_value(
    alloc: Global,
    scratch: &mut Vec<u8>,
    line: &InputLine<'_>,
    key: Bytes,
    left: &[u8],
) -> Result<Pair, LineFault>
    requires limit { length line.now.bytes.now ≤ line_limit }
    requires within { length left.now ≤ length line.now.bytes.now }
    ensures { let value = text_of left.now in Gives entry_of result
        (judged line.now.number (value_at (line_is line.now) key value.stop value)) }
{
    let value = read_text(alloc, scratch, left)?;
    match value.stop {
        Stop::AtEnd if line.is_whole => pair_within(line, key, value.bytes),
        Stop::AtEnd => Err(line.bad_at(line.bytes.len())),
        Stop::AtSeparator => Err(line.bad_at(line.bytes.len() - value.left.len() - 2)),
        Stop::AtFault => Err(line.bad_at(line.bytes.len() - value.left.len())),
    }
}

// The pair, where key and value are within their limits.
fn pair_within(line: &InputLine<'_>, key: Bytes, value: Bytes) -> Result<Pair, LineFault>
    ensures { Gives entry_of result (judged line.now.number (pair_within key value)) }
{
    if key.len() > KEY_LIMIT || value.len() > VALUE_LIMIT {
        return Err(LineFault::TooLong { line: line.number });
    }
    Ok(Pair { key, value })
}
