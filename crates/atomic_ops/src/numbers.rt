//! Old value and operand as little-endian numbers.

ghost use Rattle.std.specs.Prelude.{◌≡◌, IfOk, nat_lt};
ghost use Rattle.key_bytes.specs.Numbers.{number_low};
ghost use Rattle.model_database.specs.Atomics.{fitted, little_sum, little_max, little_min};

use crate::fitting::{byte_at, fitted};
use key_bytes::Bytes;
use std::alloc::{AllocError, Global};

// The sum, in as many bytes as the operand has: from the lowest byte up, with a carry.
pub(crate) fn sum(alloc: Global, old: &[u8], operand: &[u8]) -> Result<Bytes, AllocError>
    ensures { IfOk result (λ sum. sum ≡ little_sum (fitted old.now operand.now) operand.now) }
{
    let mut sum = Vec::with_capacity(alloc, operand.len())?;
    let mut carry = 0;
    for (place, byte) in operand.iter().enumerate() {
        let total = u16::from(byte_at(old, place)) + u16::from(*byte) + carry;
        sum.push((total % 256) as u8)?;
        carry = total / 256;
    }
    Bytes::from_vec(sum)
}

// Whether the old value, as wide as the operand, is less: the highest byte in which the two differ decides.
fn is_less(old: &[u8], operand: &[u8]) -> bool
    ensures { result ≡ nat_lt (number_low (fitted old.now operand.now)) (number_low operand.now) }
{
    for place in (0..operand.len()).rev() {
        let kept = byte_at(old, place);
        if kept != operand[place] {
            return kept < operand[place];
        }
    }
    false
}

// The greater of the two.
#[tactic(auto, unfolding(model_database::specs::Atomics::little_max))]
pub(crate) fn greater(alloc: Global, old: &[u8], operand: &[u8]) -> Result<Bytes, AllocError>
    ensures { IfOk result (λ value. value ≡ little_max (fitted old.now operand.now) operand.now) }
{
    if is_less(old, operand) {
        Bytes::from_slice(alloc, operand)
    } else {
        fitted(alloc, old, operand)
    }
}

// The lesser of the two.
#[tactic(auto, unfolding(model_database::specs::Atomics::little_min))]
pub(crate) fn lesser(alloc: Global, old: &[u8], operand: &[u8]) -> Result<Bytes, AllocError>
    ensures { IfOk result (λ value. value ≡ little_min (fitted old.now operand.now) operand.now) }
{
    if is_less(old, operand) {
        fitted(alloc, old, operand)
    } else {
        Bytes::from_slice(alloc, operand)
    }
}
