//! Calls on the database by the operands of an instruction.

ghost use Rattle.std.specs.Prelude.{◌≡◌, IfOk};
ghost use Rattle.model_machine.specs.Calls.{set_call, clear_call, clear_range_call, clear_range_starts_with_call, atomic_call};
ghost use Rattle.model_machine.specs.Calls.{call_of, written_in, prefix_end};
ghost use Rattle.stack_items.specs.Looks.{LooksUnlessFull};

use crate::reads::{
    get_call, get_key_call, get_range_call, get_range_selector_call, get_range_starts_with_call,
};
use crate::requests::range_operand;
use fdb_calls::TxnCall;
use key_bytes::{Bytes, Key, KeyRange};
use model_machine::{Awaits, DatabaseOperation, Scope};
use stack_items::{Operands, StackFault};
use std::alloc::{AllocError, Global};

/// A call on the database, and what its reply is used for.
pub type Call = (TxnCall, Awaits);

/// Reads the operands of an operation, and makes the call that it asks in a scope.
pub fn call_of(
    operands: &mut Operands<'_>,
    alloc: Global,
    operation: DatabaseOperation,
    scope: Scope,
) -> Result<Call, StackFault>
    ensures { LooksUnlessFull (λ call. call) result (call_of operation scope) operands.old operands.new }
{
    match operation {
        DatabaseOperation::Get => get_call(operands, scope),
        DatabaseOperation::GetKey => get_key_call(operands, scope),
        DatabaseOperation::GetRange => get_range_call(operands, scope),
        DatabaseOperation::GetRangeStartsWith => get_range_starts_with_call(operands, alloc, scope),
        DatabaseOperation::GetRangeSelector => get_range_selector_call(operands, scope),
        DatabaseOperation::Set => set_call(operands, scope),
        DatabaseOperation::Clear => clear_call(operands, scope),
        DatabaseOperation::ClearRange => clear_range_call(operands, scope),
        DatabaseOperation::ClearRangeStartsWith => {
            clear_range_starts_with_call(operands, alloc, scope)
        }
        DatabaseOperation::AtomicOp => atomic_call(operands, scope),
    }
}

fn set_call(operands: &mut Operands<'_>, scope: Scope) -> Result<Call, StackFault>
    ensures { LooksUnlessFull (λ call. call) result (set_call scope) operands.old operands.new }
{
    let key = operands.copied_bytes()?;
    let value = operands.copied_bytes()?;
    Ok((TxnCall::Set { key, value }, written_in(scope)))
}

fn clear_call(operands: &mut Operands<'_>, scope: Scope) -> Result<Call, StackFault>
    ensures { LooksUnlessFull (λ call. call) result (clear_call scope) operands.old operands.new }
{
    let key = operands.copied_bytes()?;
    Ok((TxnCall::Clear { key }, written_in(scope)))
}

fn clear_range_call(operands: &mut Operands<'_>, scope: Scope) -> Result<Call, StackFault>
    ensures { LooksUnlessFull (λ call. call) result (clear_range_call scope) operands.old operands.new }
{
    let range = range_operand(operands)?;
    Ok((TxnCall::ClearRange { range }, written_in(scope)))
}

fn clear_range_starts_with_call(
    operands: &mut Operands<'_>,
    alloc: Global,
    scope: Scope,
) -> Result<Call, StackFault>
    ensures { LooksUnlessFull (λ call. call) result (clear_range_starts_with_call scope) operands.old operands.new }
{
    let begin = operands.copied_bytes()?;
    let end = prefix_end(alloc, &begin)?;
    let range = KeyRange { begin, end };
    Ok((TxnCall::ClearRange { range }, written_in(scope)))
}

/// Returns the end of the range of the keys that begin with a prefix: the least key above them, or FF where
/// there is none.
pub fn prefix_end(alloc: Global, prefix: &Bytes) -> Result<Key, AllocError>
    ensures { IfOk result (λ end. end ≡ prefix_end prefix.now) }
{
    match prefix.strinc()? {
        Some(end) => Ok(end),
        None => Bytes::from_slice(alloc, &[0xFF]),
    }
}

fn atomic_call(operands: &mut Operands<'_>, scope: Scope) -> Result<Call, StackFault>
    ensures { LooksUnlessFull (λ call. call) result (atomic_call scope) operands.old operands.new }
{
    let name = operands.copied_bytes()?;
    let key = operands.copied_bytes()?;
    let operand = operands.copied_bytes()?;
    Ok((TxnCall::Atomic { name, key, operand }, written_in(scope)))
}

// What the reply to a write is used for.
fn written_in(scope: Scope) -> Awaits
    ensures { result ≡ written_in scope }
{
    match scope {
        Scope::Transaction | Scope::Snapshot => Awaits::Nothing,
        Scope::Database => Awaits::NotPresent,
    }
}
