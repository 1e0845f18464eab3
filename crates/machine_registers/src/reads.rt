//! Calls that read, by the operands of an instruction.

ghost use Rattle.std.specs.Prelude.{◌≡◌};
ghost use Rattle.model_machine.specs.Calls.{get_call, get_key_call, get_range_call, get_range_starts_with_call, get_range_selector_call};
ghost use Rattle.model_machine.specs.Calls.{is_snapshot, selector_operand, options_operand, get_between};
ghost use Rattle.stack_items.specs.Looks.{Looks, LooksUnlessFull};

use crate::call::{Call, prefix_end};
use fdb_calls::TxnCall;
use key_bytes::{Key, KeyRange};
use model_database::{RangeOptions, Selector};
use model_machine::{Awaits, Scope};
use stack_items::{Operands, StackFault};
use std::alloc::Global;

pub fn get_call(operands: &mut Operands<'_>, scope: Scope) -> Result<Call, StackFault>
    ensures { LooksUnlessFull (λ call. call) result (get_call scope) operands.old operands.new }
{
    let key = operands.copied_bytes()?;
    let call = TxnCall::Get {
        key,
        snapshot: is_snapshot(scope),
    };
    Ok((call, Awaits::Value))
}

pub fn get_key_call(operands: &mut Operands<'_>, scope: Scope) -> Result<Call, StackFault>
    ensures { LooksUnlessFull (λ call. call) result (get_key_call scope) operands.old operands.new }
{
    let selector = selector_operand(operands)?;
    let prefix = operands.copied_bytes()?;
    let call = TxnCall::GetKey {
        selector,
        snapshot: is_snapshot(scope),
    };
    Ok((call, Awaits::Key { prefix }))
}

pub fn get_range_call(operands: &mut Operands<'_>, scope: Scope) -> Result<Call, StackFault>
    ensures { LooksUnlessFull (λ call. call) result (get_range_call scope) operands.old operands.new }
{
    let begin = operands.copied_bytes()?;
    let end = operands.copied_bytes()?;
    let options = options_operand(operands)?;
    Ok((get_between(scope, begin, end, options), Awaits::Pairs))
}

pub fn get_range_starts_with_call(
    operands: &mut Operands<'_>,
    alloc: Global,
    scope: Scope,
) -> Result<Call, StackFault>
    ensures { LooksUnlessFull (λ call. call) result (get_range_starts_with_call scope) operands.old operands.new }
{
    let begin = operands.copied_bytes()?;
    let options = options_operand(operands)?;
    let end = prefix_end(alloc, &begin)?;
    Ok((get_between(scope, begin, end, options), Awaits::Pairs))
}

pub fn get_range_selector_call(
    operands: &mut Operands<'_>,
    scope: Scope,
) -> Result<Call, StackFault>
    ensures { LooksUnlessFull (λ call. call) result (get_range_selector_call scope) operands.old operands.new }
{
    let begin = selector_operand(operands)?;
    let end = selector_operand(operands)?;
    let options = options_operand(operands)?;
    let prefix = operands.copied_bytes()?;
    let call = TxnCall::GetRange {
        begin,
        end,
        options,
        snapshot: is_snapshot(scope),
    };
    Ok((call, Awaits::PairsWithin { prefix }))
}

fn get_between(scope: Scope, begin: Key, end: Key, options: RangeOptions) -> TxnCall
    ensures { result ≡ get_between scope begin end options }
{
    TxnCall::GetKeyRange {
        range: KeyRange { begin, end },
        options,
        snapshot: is_snapshot(scope),
    }
}

// Whether a read in this scope is by snapshot.
fn is_snapshot(scope: Scope) -> bool
    ensures { result ≡ is_snapshot scope }
{
    matches!(scope, Scope::Snapshot)
}

// A selector: its key, whether a key that equals it counts among those before, and its offset.
fn selector_operand(operands: &mut Operands<'_>) -> Result<Selector, StackFault>
    ensures { LooksUnlessFull (λ selector. selector) result selector_operand operands.old operands.new }
{
    let key = operands.copied_bytes()?;
    let or_equal = operands.flag()?;
    let offset = operands.offset()?;
    Ok(Selector {
        key,
        or_equal,
        offset,
    })
}

// How a range is read: the limit, whether reversed, and the mode.
fn options_operand(operands: &mut Operands<'_>) -> Result<RangeOptions, StackFault>
    ensures { Looks (λ options. options) result options_operand operands.old operands.new }
{
    let limit = operands.limit()?;
    let reverse = operands.flag()?;
    let mode = operands.mode()?;
    Ok(RangeOptions {
        limit,
        reverse,
        mode,
    })
}
