//! Reading of elements that are no tuples.

ghost use Rattle.std.specs.Prelude.{◌≡◌, List, ℕ, Result, IfOk, MatchOption, IsTrue, IsFalse};
ghost use Rattle.std.specs.Str.{is_utf8};
ghost use Rattle.fdb_tuple.specs.declared.tuple.Elem.{Elem};
ghost use Rattle.dump_reading.specs.FieldAnswers.{Gives};
ghost use Rattle.instr_grammar.specs.Reading.{word_at, bytes_at, with_string, text_in, text_at, uuid_at, stamp_at, scalar_at};

use crate::number::{negative_of, number_of, positive_of};
use crate::string::{behind_quote, hexadecimal_of, may_be_utf8, run_of};
use dump_reading::{FieldFault, behind};
use fdb_tuple::{Elem, Text, Versionstamp};
use key_bytes::Bytes;
use std::alloc::{AllocError, Global};

// Reads an element that is one word.
fn word_of<'a>(word: &[u8], element: Elem, bytes: &'a [u8]) -> Result<(Elem, &'a [u8]), FieldFault>
    ensures { Gives (λ x. (x.0, x.1.now)) result (word_at word.now element bytes.now) }
{
    let rest = behind(word, bytes)?;
    Ok((element, rest))
}

// Reads a byte string.
#[tactic(auto, unfolding(crate::specs::Reading::bytes_at))]
fn bytes_of(alloc: Global, bytes: &[u8]) -> Result<(Elem, &[u8]), FieldFault>
    ensures { Gives (λ x. (x.0, x.1.now)) result (bytes_at bytes.now) }
{
    let inside = behind(b"b'", bytes)?;
    let (string, left) = run_of(alloc, Some(b'\''), inside)?;
    let rest = behind_quote(left)?;
    Ok((Elem::Bytes(string), rest))
}

// Returns the Unicode string of these bytes, if they are UTF-8.
fn text_from(alloc: Global, string: Bytes) -> Result<Option<Text>, AllocError>
    ensures { IfOk result (λ text. MatchOption text (IsFalse (is_utf8 string)) (λ text. (text ≡ string) × IsTrue (is_utf8 string))) }
{
    match str::from_utf8(string.as_slice()) {
        Ok(text) => Ok(Some(Text::from_str(alloc, text)?)),
        Err(_) => Ok(None),
    }
}

// Returns the string between quotes, if it is UTF-8; `left` bytes of the line are left from its u on.
fn text_in(
    alloc: Global,
    left: usize,
    string: Bytes,
    behind: Result<&[u8], FieldFault>,
) -> Result<(Elem, &[u8]), FieldFault>
    ensures { (closing : Result (List ℕ) ℕ) → Gives (λ rest. rest.now) behind.entry closing
        → Gives (λ x. (x.0, x.1.now)) result (text_in left string (with_string string closing)) }
{
    match behind {
        Ok(rest) => match text_from(alloc, string)? {
            Some(text) => Ok((Elem::Text(text), rest)),
            None => Err(FieldFault::Bad(left)),
        },
        Err(FieldFault::Bad(_)) if !may_be_utf8(string.as_slice()) => Err(FieldFault::Bad(left)),
        Err(fault) => Err(fault),
    }
}

// Reads a Unicode string.
#[tactic(auto, unfolding(crate::specs::Reading::text_at))]
fn text_of(alloc: Global, bytes: &[u8]) -> Result<(Elem, &[u8]), FieldFault>
    ensures { Gives (λ x. (x.0, x.1.now)) result (text_at bytes.now) }
{
    let inside = behind(b"u'", bytes)?;
    let (string, left) = run_of(alloc, Some(b'\''), inside)?;
    text_in(alloc, bytes.len(), string, behind_quote(left))
}

// Reads a UUID.
#[tactic(auto, unfolding(crate::specs::Reading::uuid_at))]
fn uuid_of(bytes: &[u8]) -> Result<(Elem, &[u8]), FieldFault>
    ensures { Gives (λ x. (x.0, x.1.now)) result (uuid_at bytes.now) }
{
    let digits = behind(b"uuid:", bytes)?;
    let (uuid, rest) = hexadecimal_of::<16>(digits)?;
    Ok((Elem::Uuid(uuid), rest))
}

// Reads a versionstamp.
#[tactic(auto, unfolding(crate::specs::Reading::stamp_at))]
fn stamp_of(bytes: &[u8]) -> Result<(Elem, &[u8]), FieldFault>
    ensures { Gives (λ x. (x.0, x.1.now)) result (stamp_at bytes.now) }
{
    let digits = behind(b"stamp:", bytes)?;
    let (stamp, rest) = hexadecimal_of::<10>(digits)?;
    let number = behind(b".", rest)?;
    let (user, rest) = number_of(u128::from(u16::MAX), number)?;
    let stamp = Versionstamp {
        stamp,
        user: user as u16,
    };
    Ok((Elem::Stamp(stamp), rest))
}

/// Reads an element that is no tuple; its first byte tells its kind.
#[tactic(auto, unfolding(crate::specs::Reading::scalar_at))]
pub fn scalar_of(alloc: Global, bytes: &[u8]) -> Result<(Elem, &[u8]), FieldFault>
    ensures { Gives (λ x. (x.0, x.1.now)) result (scalar_at bytes.now) }
{
    match bytes {
        [] => Err(FieldFault::Bad(0)),
        [b'b', ..] => bytes_of(alloc, bytes),
        [b'u', b'u', ..] => uuid_of(bytes),
        [b'u', ..] => text_of(alloc, bytes),
        [b'n', ..] => word_of(b"null", Elem::Null, bytes),
        [b't', ..] => word_of(b"true", Elem::Bool(true), bytes),
        [b'f', ..] => word_of(b"false", Elem::Bool(false), bytes),
        [b's', ..] => stamp_of(bytes),
        [b'-', ..] => negative_of(bytes),
        _ => positive_of(bytes),
    }
}
