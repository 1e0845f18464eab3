//! What an operation makes of a value.

ghost use Rattle.std.specs.Prelude.{◌≡◌, false, replicate, IfOk, option_map};
ghost use Rattle.key_bytes.specs.Keys.{lesser, greater};
ghost use Rattle.model_database.specs.Atomics.{atom, atom_of_value, is_versionstamped, appended, cleared_where_equal};

use crate::bits::{Joining, bytewise};
use crate::numbers;
use key_bytes::{Bytes, is_below};
use model_database::{AtomicOp, VALUE_LIMIT};
use std::alloc::{AllocError, Global};

/// Returns what an operation makes of the old value with its operand; None is no value.
///
/// Which it is stands in the API reference of release 6.3 ("fdb_transaction_atomic_op"); the two operations of API version
/// 500 alone take an absent value for bytes of 00. The four operations with a versionstamp are no functions of the old
/// value, and are not asked here. Memory is taken for the new value alone; the one error is that there is none.
#[tactic(auto, unfolding(model_database::specs::Atomics::atom))]
pub fn apply(
    alloc: Global,
    op: AtomicOp,
    old: Option<&[u8]>,
    operand: &[u8],
) -> Result<Option<Bytes>, AllocError>
    requires { is_versionstamped op ≡ false }
    ensures { IfOk result (λ value. value ≡ atom op (option_map (λ bytes. bytes.now) old.entry) operand.now) }
{
    let Some(old) = old else {
        return match op {
            AtomicOp::CompareAndClear => Ok(None),
            AtomicOp::OldAnd | AtomicOp::OldMin => Ok(Some(zeros(alloc, operand.len())?)),
            _ => Ok(Some(Bytes::from_slice(alloc, operand)?)),
        };
    };
    of_value(alloc, op, old, operand)
}

// So many bytes of 00.
fn zeros(alloc: Global, count: usize) -> Result<Bytes, AllocError>
    ensures { IfOk result (λ zeros. zeros ≡ replicate count 0) }
{
    Bytes::from_vec(vec![in alloc; 0; count]?)
}

// What it makes of a value.
fn of_value(
    alloc: Global,
    op: AtomicOp,
    old: &[u8],
    operand: &[u8],
) -> Result<Option<Bytes>, AllocError>
    requires { is_versionstamped op ≡ false }
    ensures { IfOk result (λ value. value ≡ atom_of_value op old.now operand.now) }
{
    let value = match op {
        AtomicOp::Add => numbers::sum(alloc, old, operand)?,
        AtomicOp::BitAnd | AtomicOp::OldAnd => bytewise(alloc, Joining::And, old, operand)?,
        AtomicOp::BitOr => bytewise(alloc, Joining::Or, old, operand)?,
        AtomicOp::BitXor => bytewise(alloc, Joining::Xor, old, operand)?,
        AtomicOp::AppendIfFits => appended(alloc, old, operand)?,
        AtomicOp::Max => numbers::greater(alloc, old, operand)?,
        AtomicOp::Min | AtomicOp::OldMin => numbers::lesser(alloc, old, operand)?,
        AtomicOp::ByteMin => Bytes::from_slice(alloc, lesser(old, operand))?,
        AtomicOp::ByteMax => Bytes::from_slice(alloc, greater(old, operand))?,
        AtomicOp::CompareAndClear => return cleared_where_equal(alloc, old, operand),
        AtomicOp::SetVersionstampedKey
        | AtomicOp::SetVersionstampedValue
        | AtomicOp::OldStampedKey
        | AtomicOp::OldStampedValue => unreachable!(),
    };
    Ok(Some(value))
}

// The lesser of two byte strings in the order of keys.
fn lesser<'a>(old: &'a [u8], operand: &'a [u8]) -> &'a [u8]
    ensures { result.now ≡ lesser old.now operand.now }
{
    if is_below(operand, old) { operand } else { old }
}

// The greater of two byte strings in the order of keys.
fn greater<'a>(old: &'a [u8], operand: &'a [u8]) -> &'a [u8]
    ensures { result.now ≡ greater old.now operand.now }
{
    if is_below(old, operand) { operand } else { old }
}

// The operand behind the old value, or the old value alone where the two have too many bytes.
#[tactic(auto, unfolding(model_database::specs::Atomics::appended))]
fn appended(alloc: Global, old: &[u8], operand: &[u8]) -> Result<Bytes, AllocError>
    ensures { IfOk result (λ value. value ≡ appended old.now operand.now) }
{
    if VALUE_LIMIT < old.len() || VALUE_LIMIT - old.len() < operand.len() {
        return Bytes::from_slice(alloc, old);
    }
    let mut value = Vec::with_capacity(alloc, old.len() + operand.len())?;
    value.extend_from_slice(old)?;
    value.extend_from_slice(operand)?;
    Bytes::from_vec(value)
}

// No value where the old one is the operand, else the old one.
#[tactic(auto, unfolding(model_database::specs::Atomics::cleared_where_equal))]
fn cleared_where_equal(
    alloc: Global,
    old: &[u8],
    operand: &[u8],
) -> Result<Option<Bytes>, AllocError>
    ensures { IfOk result (λ value. value ≡ cleared_where_equal old.now operand.now) }
{
    if old == operand {
        return Ok(None);
    }
    Ok(Some(Bytes::from_slice(alloc, old)?))
}
