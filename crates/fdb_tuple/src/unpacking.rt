//! Byte strings as tuples.

ghost use Rattle.std.specs.Prelude.{◌≡◌, ◌≢◌, suc, ◌≤◌, ◌<◌, [], ◌∷◌, ◌++◌, Ok, Err, length, Result, List, ℕ, IfOk, IfErr, IfSome, OnOk, MatchOption, IsFalse};
ghost use Rattle.fdb_tuple.specs.declared.fault.UnpackFault.{UnpackFault};
ghost use Rattle.fdb_tuple.specs.declared.tuple.Elem.{Elem};
ghost use Rattle.fdb_tuple.specs.Tuples.{Elements, IsTuple, greatest_magnitude};
ghost use Rattle.fdb_tuple.specs.Listed.{elements_of, IsElement};
ghost use Rattle.fdb_tuple.specs.Spelling.{spelling, signed_byte, with_sign};
ghost use Rattle.fdb_tuple.specs.Zeros.{IsNoEscape};
ghost use Rattle.fdb_tuple.specs.Kinds.{kind_of};
ghost use Rattle.fdb_tuple.specs.Reading.{Gives, string_at, bytes_at, text_at, leads_with_zero, number_high, int_of, short_at, sized_at, long_at, uuid_at, stamp_at, held, zero_at, coded_at, piece_at, elements_at, read_tuple};
ghost use Rattle.fdb_tuple.specs.Stops.{Stops};

use crate::code::{Kind, kind_of};
use crate::fault::{PushFault, UnpackFault};
use crate::piece::Piece;
use crate::text::Text;
use crate::tuple::{Elem, MAX_DEPTH, Tuple, Versionstamp};
use crate::zeros::split_at_zero;
use byteorder::{BigEndian, ByteOrder};
use key_bytes::Bytes;
use std::alloc::Global;

/// Unpacks the tuple that the bytes spell, all of them. Where they spell none it answers the fault of the first
/// faulty element from the left.
pub fn unpack(alloc: Global, bytes: &[u8]) -> Result<Tuple, UnpackFault>
    // What is unpacked is spelled so.
    ensures found { IfOk result (λ tuple. IsTuple tuple × (bytes.now ≡ spelling tuple)) }
    // What is spelled so is unpacked, unless memory runs out.
    ensures only { (tuple : Elements) → IsTuple tuple → bytes.now ≡ spelling tuple → Gives (λ t. t) result (Ok tuple) }
    // A fault is that of the first faulty element.
    ensures stops { IfErr result (λ fault. fault ≢ UnpackFault.NoMemory → Stops bytes.now fault) }
    // Bytes that have that fault are refused by it, unless memory runs out.
    ensures refused { (fault : UnpackFault) → Stops bytes.now fault → Gives (λ t. t) result (Err fault) }
    // The same, as one function of the bytes.
    ensures exact { Gives (λ t. t) result (read_tuple bytes.now) }
{
    tuple_of(alloc, bytes)
}

// The tuple that all of the bytes spell.
#[tactic(auto, unfolding(crate::specs::Reading::read_tuple))]
fn tuple_of(alloc: Global, bytes: &[u8]) -> Result<Tuple, UnpackFault>
    ensures { Gives (λ t. t) result (read_tuple bytes.now) }
{
    let (tuple, _) = elements_of(alloc, bytes.len(), 0, bytes)?;
    Ok(tuple)
}

// In the functions below `bytes` and `rest` are what is left of the input, `whole` is its length, `place` that of the
// code, and `around` the number of nested tuples that are open; what is read comes with the bytes after it.

// The elements up to the end of the tuple that they are in.
fn elements_of(
    alloc: Global,
    whole: usize,
    around: u8,
    bytes: &[u8],
) -> Result<(Tuple, &[u8]), UnpackFault>
    requires depth { around ≤ 100 }
    requires within { length bytes.now ≤ whole }
    ensures { Gives (λ x. (x.0, x.1.now)) result (elements_at (suc (length bytes.now)) whole around bytes.now) }
{
    let mut tuple = Tuple::new(alloc);
    let mut rest = bytes;
    loop {
        let (piece, after) = piece_of(alloc, whole, around, rest)?;
        match piece {
            Piece::Ends => return Ok((tuple, after)),
            Piece::Opens => {
                let (inner, others) = elements_of(alloc, whole, around + 1, after)?;
                add(&mut tuple, Elem::Nested(inner))?;
                rest = others;
            }
            Piece::Holds(element) => {
                add(&mut tuple, element)?;
                rest = after;
            }
        }
    }
}

// Adds an element that a tuple can hold. Where it is compiled into the loop, no element is copied twice.
#[inline(always)]
fn add(tuple: &mut Tuple, element: Elem) -> Result<(), UnpackFault>
    requires { IsElement element }
    ensures added { OnOk result (elements_of tuple.new ≡ elements_of tuple.old ++ element ∷ []) }
    ensures refused { IfErr result (λ fault. fault ≡ UnpackFault.NoMemory) }
{
    match tuple.push(element) {
        Ok(()) => Ok(()),
        Err(PushFault::NoMemory) => Err(UnpackFault::NoMemory),
        Err(PushFault::TooDeep) => unreachable!(),
    }
}

// What comes next.
#[tactic(auto, unfolding(crate::specs::Reading::piece_at))]
fn piece_of(
    alloc: Global,
    whole: usize,
    around: u8,
    bytes: &[u8],
) -> Result<(Piece, &[u8]), UnpackFault>
    requires { length bytes.now ≤ whole }
    ensures { Gives (λ x. (x.0, x.1.now)) result (piece_at whole around bytes.now) }
{
    match bytes {
        [] if around == 0 => Ok((Piece::Ends, bytes)),
        [] => Err(UnpackFault::Truncated(whole)),
        [code, rest @ ..] => coded(alloc, whole, whole - bytes.len(), around, *code, rest),
    }
}

// What comes with this code.
#[tactic(auto, unfolding(crate::specs::Reading::coded_at))]
fn coded(
    alloc: Global,
    whole: usize,
    place: usize,
    around: u8,
    code: u8,
    rest: &[u8],
) -> Result<(Piece, &[u8]), UnpackFault>
    ensures { Gives (λ x. (x.0, x.1.now)) result (coded_at whole place around (kind_of code) rest.now) }
{
    match kind_of(code) {
        None => Err(UnpackFault::BadCode(place)),
        Some(Kind::Null) => Ok(null_or_end(around, rest)),
        Some(Kind::Bytes) => held(byte_string_of(alloc, whole, rest)),
        Some(Kind::Text) => held(text_of(alloc, whole, place, rest)),
        Some(Kind::Nested) if around == MAX_DEPTH => Err(UnpackFault::TooDeep(place)),
        Some(Kind::Nested) => Ok((Piece::Opens, rest)),
        Some(Kind::ShortInt { negative, size }) => {
            held(short_int_of(whole, place, negative, size, rest))
        }
        Some(Kind::LongInt { negative }) => held(long_int_of(whole, place, negative, rest)),
        Some(Kind::Bool(value)) => Ok((Piece::Holds(Elem::Bool(value)), rest)),
        Some(Kind::Uuid) => held(uuid_of(whole, rest)),
        Some(Kind::Stamp) => held(stamp_of(whole, rest)),
    }
}

// An element that was read, as a piece.
fn held(read: Result<(Elem, &[u8]), UnpackFault>) -> Result<(Piece, &[u8]), UnpackFault>
    ensures { (said : Result (Elem × List ℕ) UnpackFault) → Gives (λ x. (x.0, x.1.now)) read.entry said → Gives (λ x. (x.0, x.1.now)) result (held said) }
{
    let (element, after) = read?;
    Ok((Piece::Holds(element), after))
}

// After a 00: null, or the end of a nested tuple, where no FF follows.
fn null_or_end(around: u8, rest: &[u8]) -> (Piece, &[u8])
    ensures { (result.0, result.1.now) ≡ zero_at around rest.now }
{
    if around == 0 {
        return (Piece::Holds(Elem::Null), rest);
    }
    match after_escape(rest) {
        Some(others) => (Piece::Holds(Elem::Null), others),
        None => (Piece::Ends, rest),
    }
}

#[tactic(auto, unfolding(crate::specs::Reading::bytes_at))]
fn byte_string_of(alloc: Global, whole: usize, rest: &[u8]) -> Result<(Elem, &[u8]), UnpackFault>
    ensures { Gives (λ x. (x.0, x.1.now)) result (bytes_at whole rest.now) }
{
    let (string, after) = string_of(alloc, whole, rest)?;
    Ok((Elem::Bytes(string), after))
}

#[tactic(auto, unfolding(crate::specs::Reading::text_at))]
fn text_of(
    alloc: Global,
    whole: usize,
    place: usize,
    rest: &[u8],
) -> Result<(Elem, &[u8]), UnpackFault>
    ensures { Gives (λ x. (x.0, x.1.now)) result (text_at whole place rest.now) }
{
    let (string, after) = string_of(alloc, whole, rest)?;
    let Some(text) = Text::from_utf8(string) else {
        return Err(UnpackFault::BadUtf8(place));
    };
    Ok((Elem::Text(text), after))
}

// The string up to its end.
fn string_of(alloc: Global, whole: usize, bytes: &[u8]) -> Result<(Bytes, &[u8]), UnpackFault>
    ensures { Gives (λ x. (x.0, x.1.now)) result (string_at whole bytes.now) }
{
    if let Some((run, after)) = unescaped_string(bytes) {
        return Ok((Bytes::from_slice(alloc, run)?, after));
    }
    let (string, after) = escaped_string_of(alloc, whole, bytes)?;
    Ok((Bytes::from_vec(string)?, after))
}

// The string up to its end, where no 00 stands in it.
fn unescaped_string(bytes: &[u8]) -> Option<(&[u8], &[u8])>
    ensures { IfSome result (λ found. (whole : ℕ) → string_at whole bytes.now ≡ Ok (found.0.now, found.1.now)) }
{
    let (run, after) = split_at_zero(bytes)?;
    match after_escape(after) {
        Some(_) => None,
        None => Some((run, after)),
    }
}

// The string up to its end, read run by run.
fn escaped_string_of(
    alloc: Global,
    whole: usize,
    bytes: &[u8],
) -> Result<(Vec<u8>, &[u8]), UnpackFault>
    ensures { Gives (λ x. (x.0.items, x.1.now)) result (string_at whole bytes.now) }
{
    let mut string = Vec::new(alloc);
    let mut rest = bytes;
    while let Some((run, after)) = split_at_zero(rest) {
        string.extend_from_slice(run)?;
        let Some(others) = after_escape(after) else {
            return Ok((string, after));
        };
        string.extend_from_slice(&[0x00])?;
        rest = others;
    }
    Err(UnpackFault::Truncated(whole))
}

// What follows the FF that makes the 00 before it no end.
fn after_escape(bytes: &[u8]) -> Option<&[u8]>
    ensures { MatchOption result (IsNoEscape bytes.now) (λ rest. bytes.now ≡ 0xFF ∷ rest.now) }
{
    match bytes {
        [0xFF, rest @ ..] => Some(rest),
        _ => None,
    }
}

// An integer of this sign, whose magnitude has so many bytes.
#[tactic(auto, unfolding(crate::specs::Reading::short_at))]
fn short_int_of(
    whole: usize,
    place: usize,
    negative: bool,
    size: u8,
    rest: &[u8],
) -> Result<(Elem, &[u8]), UnpackFault>
    requires { size ≤ 8 }
    ensures { Gives (λ x. (x.0, x.1.now)) result (short_at whole place negative size rest.now) }
{
    let size = usize::from(size);
    if rest.len() < size {
        return Err(UnpackFault::Truncated(whole));
    }
    let (digits, after) = rest.split_at(size);
    if leads_with_zero(negative, digits) {
        return Err(UnpackFault::NotMinimal(place));
    }
    let number = signed(negative, magnitude(negative, digits));
    Ok((Elem::Int(number), after))
}

// An integer of this sign by the long form: the number of its magnitude's bytes, and they.
fn long_int_of(
    whole: usize,
    place: usize,
    negative: bool,
    rest: &[u8],
) -> Result<(Elem, &[u8]), UnpackFault>
    ensures { Gives (λ x. (x.0, x.1.now)) result (long_at whole place negative rest.now) }
{
    match rest {
        [] => Err(UnpackFault::Truncated(whole)),
        [size, others @ ..] => {
            sized_int_of(whole, place, negative, signed_byte(negative, *size), others)
        }
    }
}

// An integer of this sign by the long form, whose magnitude has so many bytes.
#[tactic(auto, unfolding(crate::specs::Reading::sized_at))]
fn sized_int_of(
    whole: usize,
    place: usize,
    negative: bool,
    size: u8,
    rest: &[u8],
) -> Result<(Elem, &[u8]), UnpackFault>
    ensures { Gives (λ x. (x.0, x.1.now)) result (sized_at whole place negative size rest.now) }
{
    let size = usize::from(size);
    if rest.len() < size {
        return Err(UnpackFault::Truncated(whole));
    }
    let (digits, after) = rest.split_at(size);
    if size < 9 || leads_with_zero(negative, digits) {
        return Err(UnpackFault::NotMinimal(place));
    }
    let Some(magnitude) = bounded_magnitude(negative, digits) else {
        return Err(UnpackFault::TooBig(place));
    };
    let number = signed(negative, magnitude);
    Ok((Elem::Int(number), after))
}

// Whether the first byte of the magnitude is 0.
fn leads_with_zero(negative: bool, digits: &[u8]) -> bool
    ensures { result ≡ leads_with_zero (with_sign negative digits.now) }
{
    match digits {
        [] => false,
        [first, ..] => signed_byte(negative, *first) == 0,
    }
}

// A byte of the magnitude as it is spelled, and the other way round.
fn signed_byte(negative: bool, byte: u8) -> u8
    ensures { result ≡ signed_byte negative byte }
{
    if negative { 0xFF - byte } else { byte }
}

// The magnitude of an integer of this sign, spelled by these bytes with no zero in front, if the integer has 128 bits.
fn bounded_magnitude(negative: bool, digits: &[u8]) -> Option<u128>
    requires { IsFalse (leads_with_zero (with_sign negative digits.now)) }
    ensures { MatchOption result (greatest_magnitude negative < number_high (with_sign negative digits.now))
        (λ n. (n ≡ number_high (with_sign negative digits.now)) × (n ≤ greatest_magnitude negative)) }
{
    if digits.len() > 16 {
        return None;
    }
    let magnitude = magnitude(negative, digits);
    if magnitude > greatest_magnitude(negative) {
        None
    } else {
        Some(magnitude)
    }
}

// The greatest magnitude of an integer of this sign in 128 bits.
fn greatest_magnitude(negative: bool) -> u128
    ensures { result ≡ greatest_magnitude negative }
{
    if negative {
        i128::MIN.unsigned_abs()
    } else {
        i128::MAX.unsigned_abs()
    }
}

// The magnitude of an integer of this sign, spelled by these bytes.
fn magnitude(negative: bool, digits: &[u8]) -> u128
    requires { length digits.now ≤ 16 }
    ensures { result ≡ number_high (with_sign negative digits.now) }
{
    let mut number = 0;
    for digit in digits {
        number = 256 * number + u128::from(signed_byte(negative, *digit));
    }
    number
}

// The integer of this sign and magnitude.
fn signed(negative: bool, magnitude: u128) -> i128
    requires { magnitude ≤ greatest_magnitude negative }
    ensures { result ≡ int_of negative magnitude }
{
    if negative {
        magnitude.wrapping_neg().cast_signed()
    } else {
        magnitude.cast_signed()
    }
}

#[tactic(auto, unfolding(crate::specs::Reading::uuid_at))]
fn uuid_of(whole: usize, rest: &[u8]) -> Result<(Elem, &[u8]), UnpackFault>
    ensures { Gives (λ x. (x.0, x.1.now)) result (uuid_at whole rest.now) }
{
    let Some((bytes, after)) = rest.split_first_chunk::<16>() else {
        return Err(UnpackFault::Truncated(whole));
    };
    Ok((Elem::Uuid(*bytes), after))
}

#[tactic(auto, unfolding(crate::specs::Reading::stamp_at))]
fn stamp_of(whole: usize, rest: &[u8]) -> Result<(Elem, &[u8]), UnpackFault>
    ensures { Gives (λ x. (x.0, x.1.now)) result (stamp_at whole rest.now) }
{
    let Some((stamp, others)) = rest.split_first_chunk::<10>() else {
        return Err(UnpackFault::Truncated(whole));
    };
    let Some((user, after)) = others.split_first_chunk::<2>() else {
        return Err(UnpackFault::Truncated(whole));
    };
    let stamp = Versionstamp {
        stamp: *stamp,
        user: BigEndian::read_u16(user),
    };
    Ok((Elem::Stamp(stamp), after))
}
