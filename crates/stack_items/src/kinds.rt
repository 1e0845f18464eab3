//! The kinds of operands: which elements are of a kind, and what the operand is.

ghost use Rattle.std.specs.Prelude.{◌≡◌, option_map};
ghost use Rattle.model_machine.specs.Operands.{bytes_of, string_of, int_of, flag_of, count_in, code_in, offset_in, limit_in, mode_in};

use fdb_tuple::Elem;
use key_bytes::Bytes;
use model_database::Mode;

// The greatest limit of a range.
const LIMIT_MOST: u128 = (1 << 31) - 1;

/// Returns the bytes of an element of the kind "bytes": of a byte string, or of a Unicode string's UTF-8.
pub fn bytes_of(element: &Elem) -> Option<&[u8]>
    ensures { option_map (λ bytes. bytes.now) result ≡ bytes_of element.now }
{
    match element {
        Elem::Bytes(bytes) => Some(bytes.as_slice()),
        Elem::Text(text) => Some(text.as_bytes()),
        _ => None,
    }
}

pub(crate) fn into_bytes(element: Elem) -> Option<Bytes>
    ensures { result ≡ bytes_of element }
{
    match element {
        Elem::Bytes(bytes) => Some(bytes),
        Elem::Text(text) => Some(text.into_bytes()),
        _ => None,
    }
}

pub(crate) fn string_of(element: &Elem) -> Option<&Elem>
    ensures { option_map (λ string. string.now) result ≡ string_of element.now }
{
    match element {
        Elem::Bytes(_) | Elem::Text(_) => Some(element),
        _ => None,
    }
}

pub(crate) fn int_of(element: &Elem) -> Option<i128>
    ensures { result ≡ int_of element.now }
{
    match element {
        Elem::Int(number) => Some(*number),
        _ => None,
    }
}

pub(crate) fn count_in(number: i128) -> Option<u128>
    ensures { result ≡ count_in number }
{
    if number.is_negative() {
        None
    } else {
        Some(number.unsigned_abs())
    }
}

pub(crate) fn code_in(number: u128) -> Option<u16>
    ensures { result ≡ code_in number }
{
    u16::try_from(number).ok()
}

pub(crate) fn flag_of(element: &Elem) -> Option<bool>
    ensures { result ≡ flag_of element.now }
{
    match element {
        Elem::Int(number) => Some(number.unsigned_abs() > 0),
        Elem::Bool(flag) => Some(*flag),
        _ => None,
    }
}

pub(crate) fn offset_in(number: i128) -> Option<i32>
    ensures { result ≡ offset_in number }
{
    i32::try_from(number).ok()
}

pub(crate) fn limit_in(number: u128) -> Option<u32>
    ensures { result ≡ limit_in number }
{
    if number <= LIMIT_MOST {
        Some(number as u32)
    } else {
        None
    }
}

pub(crate) fn mode_in(number: i128) -> Option<Mode>
    ensures { result ≡ mode_in number }
{
    match (number.is_negative(), number.unsigned_abs()) {
        (true, 2) => Some(Mode::WantAll),
        (true, 1) => Some(Mode::Iterator),
        (false, 0) => Some(Mode::Exact),
        (false, 1) => Some(Mode::Small),
        (false, 2) => Some(Mode::Medium),
        (false, 3) => Some(Mode::Large),
        (false, 4) => Some(Mode::Serial),
        _ => None,
    }
}
