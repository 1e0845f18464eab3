//! Reading of the fields of a line.

ghost use Rattle.std.specs.Prelude.{◌≡◌, ◌^◌, [], ◌∷◌, Some, None, nat_lt, if◌then◌else◌, length, ◌≤◌, IfOk};
ghost use Rattle.std.specs.List.{prefix_len};
ghost use Rattle.model_input.specs.Orders.{is_digit, last_machine};
ghost use Rattle.dump_reading.specs.declared.field.FieldFault.TheVariants.{NoMemory};
ghost use Rattle.dump_reading.specs.FieldAnswers.{Gives};
ghost use Rattle.dump_reading.specs.Dumps.{greatest_machine, greatest_number};
ghost use Rattle.dump_reading.specs.Fields.{behind, value_after, number_at, number_field, end_of, end_at, end_field, is_word, word_at, word_field, text_at, text_field};

use crate::fault::PrintableFault;
use crate::printable::read_printable;
use dump_text::EndWord;
use key_bytes::Bytes;
use std::alloc::{AllocError, AllocFailed, Global};

// The greatest number of a machine that a line of the order may name.
const LAST_MACHINE: u64 = 63;

/// Why a field could not be read.
#[derive(Clone, Copy)]
pub enum FieldFault {
    /// A byte fits no rule, from which on so many bytes of the line are left.
    Bad(usize),
    /// Memory ran out.
    NoMemory,
}

impl From<AllocError> for FieldFault {
    ghost from_gives = { λ _ e. e ≡ NoMemory };

    fn from(_e: AllocError) -> FieldFault {
        FieldFault::NoMemory
    }
}

impl<T: Drop> From<AllocFailed<T>> for FieldFault {
    ghost from_gives = { λ _ e. e ≡ NoMemory };

    fn from(_e: AllocFailed<T>) -> FieldFault {
        FieldFault::NoMemory
    }
}

/// Reads a word at the front; returns the bytes behind it, or the place of the first byte that isn't the word's.
pub fn behind<'a>(word: &[u8], bytes: &'a [u8]) -> Result<&'a [u8], FieldFault>
    ensures { Gives (λ rest. rest.now) result (behind word.now bytes.now) }
{
    let mut i = 0;
    while i < word.len() {
        if i >= bytes.len() || bytes[i] != word[i] {
            return Err(FieldFault::Bad(bytes.len() - i));
        }
        i += 1;
    }
    Ok(&bytes[i..])
}

// What stands behind a space.
fn behind_space(bytes: &[u8]) -> Result<&[u8], FieldFault>
    ensures { Gives (λ rest. rest.now) result (behind (32 ∷ []) bytes.now) }
{
    behind(b" ", bytes)
}

// Whether a byte is a decimal digit.
fn is_digit(byte: u8) -> bool
    ensures { result ≡ is_digit byte }
{
    byte >= b'0' && byte <= b'9'
}

/// Returns how many decimal digits stand at the front.
pub fn digits_len(bytes: &[u8]) -> usize
    ensures value { result ≡ prefix_len is_digit bytes.now }
    ensures within { result ≤ length bytes.now }
{
    let mut i = 0;
    while i < bytes.len() && is_digit(bytes[i]) {
        i += 1;
    }
    i
}

// The number that digits write, where it is less than 2^64.
fn value_of(digits: &[u8]) -> Option<u64>
    ensures { result ≡ (if nat_lt (value_after 0 digits.now) (2 ^ 64) then Some (value_after 0 digits.now) else None) }
{
    let mut value: u64 = 0;
    for digit in digits {
        let next = u128::from(value) * 10 + u128::from(digit.saturating_sub(b'0'));
        if next > u128::from(u64::MAX) {
            return None;
        }
        value = next as u64;
    }
    Some(value)
}

/// Reads a number of at most `most` in decimal digits without a leading zero; returns it and the bytes behind it.
#[tactic(auto, unfolding(crate::specs::Fields::number_at))]
pub fn number_of(most: u64, bytes: &[u8]) -> Result<(u64, &[u8]), FieldFault>
    ensures value { Gives (λ x. (x.0, x.1.now)) result (number_at most bytes.now) }
    ensures within { IfOk result (λ x. x.0 ≤ most) }
{
    let len = digits_len(bytes);
    if len == 0 {
        return Err(FieldFault::Bad(bytes.len()));
    }
    if bytes[0] == b'0' && len != 1 {
        return Err(FieldFault::Bad(bytes.len() - 1));
    }
    match value_of(&bytes[..len]) {
        Some(value) if value <= most => Ok((value, &bytes[len..])),
        _ => Err(FieldFault::Bad(bytes.len())),
    }
}

// A space and a number of at most `most`.
#[tactic(auto, unfolding(crate::specs::Fields::number_field))]
fn number_up_to(most: u64, bytes: &[u8]) -> Result<(u64, &[u8]), FieldFault>
    ensures value { Gives (λ x. (x.0, x.1.now)) result (number_field most bytes.now) }
    ensures within { IfOk result (λ x. x.0 ≤ most) }
{
    let rest = behind_space(bytes)?;
    number_of(most, rest)
}

/// Reads a space and a number; returns the number and the bytes behind it.
pub fn number_field(bytes: &[u8]) -> Result<(u64, &[u8]), FieldFault>
    ensures { Gives (λ x. (x.0, x.1.now)) result (number_field greatest_number bytes.now) }
{
    number_up_to(u64::MAX, bytes)
}

/// Reads a space and the number of a machine; returns the number and the bytes behind it.
pub fn machine_field(bytes: &[u8]) -> Result<(u16, &[u8]), FieldFault>
    ensures { Gives (λ x. (x.0, x.1.now)) result (number_field greatest_machine bytes.now) }
{
    let (number, rest) = number_up_to(u64::from(u16::MAX), bytes)?;
    Ok((number as u16, rest))
}

/// Reads a space and the number of a machine of the order; returns the number and the bytes behind it.
pub fn ordered_machine_field(bytes: &[u8]) -> Result<(u16, &[u8]), FieldFault>
    ensures { Gives (λ x. (x.0, x.1.now)) result (number_field last_machine bytes.now) }
{
    let (number, rest) = number_up_to(LAST_MACHINE, bytes)?;
    Ok((number as u16, rest))
}

// The end whose word begins with a byte.
fn end_of(byte: u8) -> Option<EndWord>
    ensures { result ≡ end_of byte }
{
    match byte {
        b'e' => Some(EndWord::Ended),
        b'b' => Some(EndWord::BadInstruction),
        b'u' => Some(EndWord::Underflow),
        b'w' => Some(EndWord::WaitBound),
        b'm' => Some(EndWord::MachineLimit),
        _ => None,
    }
}

// The end whose word stands at the front.
#[tactic(auto, unfolding(crate::specs::Fields::end_at))]
fn end_word_of(bytes: &[u8]) -> Result<(EndWord, &[u8]), FieldFault>
    ensures { Gives (λ x. (x.0, x.1.now)) result (end_at bytes.now) }
{
    let [first, ..] = bytes else {
        return Err(FieldFault::Bad(0));
    };
    let Some(end) = end_of(*first) else {
        return Err(FieldFault::Bad(bytes.len()));
    };
    let rest = behind(end.word(), bytes)?;
    Ok((end, rest))
}

/// Reads a space and the word of an end; returns the end and the bytes behind it.
#[tactic(auto, unfolding(crate::specs::Fields::end_field))]
pub fn end_field(bytes: &[u8]) -> Result<(EndWord, &[u8]), FieldFault>
    ensures { Gives (λ x. (x.0, x.1.now)) result (end_field bytes.now) }
{
    let rest = behind_space(bytes)?;
    end_word_of(rest)
}

// Whether a byte is a letter or a digit.
fn is_word(byte: u8) -> bool
    ensures { result ≡ is_word byte }
{
    matches!(byte, b'0'..=b'9' | b'A'..=b'Z' | b'a'..=b'z')
}

// How many letters and digits stand at the front.
fn word_len(bytes: &[u8]) -> usize
    ensures value { result ≡ prefix_len is_word bytes.now }
    ensures within { result ≤ length bytes.now }
{
    let mut i = 0;
    while i < bytes.len() && is_word(bytes[i]) {
        i += 1;
    }
    i
}

/// Reads a space and a word up to the end.
#[tactic(auto, unfolding(crate::specs::Fields::word_field, crate::specs::Fields::word_at))]
pub fn word_field(alloc: Global, bytes: &[u8]) -> Result<Bytes, FieldFault>
    ensures { Gives (λ word. word) result (word_field bytes.now) }
{
    let word = behind_space(bytes)?;
    let len = word_len(word);
    if len == 0 || len < word.len() {
        return Err(FieldFault::Bad(word.len() - len));
    }
    Ok(Bytes::from_slice(alloc, word)?)
}

// The bytes whose printable form stands up to the end.
fn text_of(alloc: Global, bytes: &[u8]) -> Result<Bytes, FieldFault>
    ensures { Gives (λ text. text) result (text_at bytes.now) }
{
    match read_printable(alloc, bytes, None) {
        Ok(text) => Ok(text),
        Err(PrintableFault::Bad { place }) => Err(FieldFault::Bad(
            bytes.len().saturating_sub(place),
        )),
        Err(PrintableFault::NoMemory) => Err(FieldFault::NoMemory),
    }
}

/// Reads a space and the printable form of bytes up to the end.
#[tactic(auto, unfolding(crate::specs::Fields::text_field))]
pub fn text_field(alloc: Global, bytes: &[u8]) -> Result<Bytes, FieldFault>
    ensures { Gives (λ text. text) result (text_field bytes.now) }
{
    let text = behind_space(bytes)?;
    text_of(alloc, text)
}
