//! Reading of integers.

ghost use Rattle.std.specs.Prelude.{◌≡◌, ◌≤◌, ◌^◌, Some, None, nat_lt, if◌then◌else◌, IfOk};
ghost use Rattle.fdb_tuple.specs.Tuples.{greatest_magnitude};
ghost use Rattle.fdb_tuple.specs.Reading.{int_of};
ghost use Rattle.dump_reading.specs.Fields.{value_after, number_at};
ghost use Rattle.dump_reading.specs.FieldAnswers.{Gives};
ghost use Rattle.instr_grammar.specs.Reading.{positive_at, negative_at, begins_magnitude};

use dump_reading::{FieldFault, behind, digits_len};
use fdb_tuple::Elem;

// Returns the number that digits write, where it is less than 2^128.
fn value_of(digits: &[u8]) -> Option<u128>
    ensures { result ≡ (if nat_lt (value_after 0 digits.now) (2 ^ 128) then Some (value_after 0 digits.now) else None) }
{
    let mut value: u128 = 0;
    for digit in digits {
        let digit = u128::from(digit.saturating_sub(b'0'));
        if value > (u128::MAX - digit) / 10 {
            return None;
        }
        value = value * 10 + digit;
    }
    Some(value)
}

/// Reads a number of at most `most` in decimal digits without a leading zero; one that is too great is a fault at its
/// first byte.
#[tactic(auto, unfolding(dump_reading::specs::Fields::number_at))]
pub fn number_of(most: u128, bytes: &[u8]) -> Result<(u128, &[u8]), FieldFault>
    ensures value { Gives (λ x. (x.0, x.1.now)) result (number_at most bytes.now) }
    ensures within { IfOk result (λ x. x.0 ≤ most) }
{
    let len = digits_len(bytes);
    if len == 0 {
        return Err(FieldFault::Bad(bytes.len()));
    }
    if bytes[0] == b'0' && len != 1 {
        return Err(FieldFault::Bad(bytes.len() - 1));
    }
    match value_of(&bytes[..len]) {
        Some(value) if value <= most => Ok((value, &bytes[len..])),
        _ => Err(FieldFault::Bad(bytes.len())),
    }
}

// Returns the integer of this sign and magnitude.
fn signed(negative: bool, magnitude: u128) -> i128
    requires { magnitude ≤ greatest_magnitude negative }
    ensures { result ≡ int_of negative magnitude }
{
    if negative {
        magnitude.wrapping_neg().cast_signed()
    } else {
        magnitude.cast_signed()
    }
}

/// Reads an integer without a sign.
#[tactic(auto, unfolding(crate::specs::Reading::positive_at))]
pub fn positive_of(bytes: &[u8]) -> Result<(Elem, &[u8]), FieldFault>
    ensures { Gives (λ x. (x.0, x.1.now)) result (positive_at bytes.now) }
{
    let (number, rest) = number_of(i128::MAX.unsigned_abs(), bytes)?;
    Ok((Elem::Int(signed(false, number)), rest))
}

// Tells whether a digit that isn't 0 stands at the front.
fn begins_magnitude(bytes: &[u8]) -> bool
    ensures { result ≡ begins_magnitude bytes.now }
{
    matches!(bytes, [b'1'..=b'9', ..])
}

/// Reads an integer with its minus; one that is too small is a fault at the minus.
#[tactic(auto, unfolding(crate::specs::Reading::negative_at))]
pub fn negative_of(bytes: &[u8]) -> Result<(Elem, &[u8]), FieldFault>
    ensures { Gives (λ x. (x.0, x.1.now)) result (negative_at bytes.now) }
{
    let rest = behind(b"-", bytes)?;
    if !begins_magnitude(rest) {
        return Err(FieldFault::Bad(rest.len()));
    }
    match number_of(i128::MIN.unsigned_abs(), rest) {
        Ok((number, rest)) => Ok((Elem::Int(signed(true, number)), rest)),
        Err(FieldFault::Bad(_)) => Err(FieldFault::Bad(rest.len() + 1)),
        Err(FieldFault::NoMemory) => Err(FieldFault::NoMemory),
    }
}
