//! How many bytes the spelling of a tuple has, counted no further than the greatest `usize`.

ghost use Rattle.std.specs.Prelude.{◌≡◌, ◌==◌, ◌+◌, ◌-◌, ◌^◌, min, Bool, true, false, length, count_by};
ghost use Rattle.fdb_tuple.specs.Tuples.{Empty};
ghost use Rattle.fdb_tuple.specs.Listed.{before};
ghost use Rattle.fdb_tuple.specs.Spelling.{string_spelled, least_bytes, signed_spelled, spelled_in, spelling};

use crate::tuple::{Elem, Tuple};

/// Returns how many bytes the spelling of the tuple has, counted no further than the greatest `usize`.
pub fn packed_len(tuple: &Tuple) -> usize
    ensures { result ≡ min (length (spelling tuple.now)) (2 ^ 64 - 1) }
{
    tuple_len(tuple, false)
}

// How many bytes its elements have, at the top or inside a nested tuple.
#[cycle(len)]
fn tuple_len(tuple: &Tuple, nested: bool) -> usize
    ensures { result ≡ min (length (spelled_in nested tuple.now)) (2 ^ 64 - 1) }
{
    let mut len: usize = 0;
    for element in tuple.as_slice() {
        len = len.saturating_add(element_len(element, nested));
    }
    len
}

// How many bytes an element has, at the top or inside a nested tuple.
#[cycle(len)]
pub(crate) fn element_len(element: &Elem, nested: bool) -> usize
    ensures { result ≡ min (length (spelled_in nested (before element.now Empty))) (2 ^ 64 - 1) }
{
    element.shows_element();
    match element {
        Elem::Null => 1 + usize::from(nested),
        Elem::Bytes(bytes) => string_len(bytes.as_slice()),
        Elem::Text(text) => string_len(text.as_bytes()),
        Elem::Nested(tuple) => tuple_len(tuple, true).saturating_add(2),
        Elem::Int(number) => int_len(number.unsigned_abs()),
        Elem::Bool(_) => 1,
        Elem::Uuid(_) => 17,
        Elem::Stamp(_) => 13,
    }
}

// A code, the bytes with a FF after each 00, and a 00.
fn string_len(bytes: &[u8]) -> usize
    ensures { result ≡ min (1 + length (string_spelled bytes.now)) (2 ^ 64 - 1) }
{
    bytes
        .len()
        .saturating_add(zeros_in(bytes))
        .saturating_add(2)
}

fn zeros_in(bytes: &[u8]) -> usize
    ensures { result ≡ count_by (λ b. b == 0) bytes.now }
{
    bytes.iter().filter(|byte| **byte == 0).count()
}

// The code of an integer, and the least bytes of its magnitude.
fn int_len(magnitude: u128) -> usize
    ensures { (negative : Bool) → result ≡ length (signed_spelled negative (least_bytes magnitude)) }
{
    let size = 16 - zero_bytes(magnitude);
    if size <= 8 { 1 + size } else { 2 + size }
}

// How many of the 16 bytes of the number are zeros in front of its least bytes.
pub(crate) fn zero_bytes(number: u128) -> usize
    ensures { result + length (least_bytes number) ≡ 16 }
{
    (number.leading_zeros() / 8) as usize
}
