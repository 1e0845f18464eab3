//! The code of the first check of a call that fails.

ghost use Rattle.std.specs.Prelude.{◌≡◌, true, false, [], ◌∷◌, option_map, replicate, IfOk};
ghost use Rattle.model_database.specs.States.{has_room, stamped};
ghost use Rattle.model_database.specs.Transactions as rules;
ghost use Rattle.model_database.specs.Transactions.{number_of};
ghost use Rattle.model_database.specs.declared.TheConstants as constants;

use atomic_ops::{StampFault, has_room, resolve_stamp};
use key_bytes::{Bytes, KeyRange, is_below};
use model_database::{
    AtomicOp, CLIENT_INVALID_OPERATION, Code, EXACT_MODE_WITHOUT_LIMITS, INVERTED_RANGE, KEY_LIMIT,
    KEY_OUTSIDE_LEGAL_RANGE, KEY_TOO_LARGE, Phase, READ_VERSION_ALREADY_SET, SIZE_LIMIT, StampForm,
    TRANSACTION_CANCELLED, TRANSACTION_TOO_LARGE, USED_DURING_COMMIT, VALUE_LIMIT, VALUE_TOO_LARGE,
    VERSION_INVALID,
};
use std::alloc::{AllocError, Global};

/// Returns the code of a call on a life that takes no further call.
pub fn phase_code(phase: Phase) -> Option<Code>
    ensures { option_map number_of result ≡ rules.first_failing (rules.after_phase phase []) }
{
    match phase {
        Phase::Active => None,
        Phase::Cancelled => Some(Code(TRANSACTION_CANCELLED)),
        Phase::Tried(_) => Some(Code(USED_DURING_COMMIT)),
    }
}

// The code of a key and a value that can't be written.
fn key_code(key: &[u8], value: &[u8]) -> Option<Code>
    ensures { option_map number_of result ≡ rules.first_failing (rules.key_checks key.now value.now) }
{
    if !is_below(key, &[0xff]) {
        Some(Code(KEY_OUTSIDE_LEGAL_RANGE))
    } else if KEY_LIMIT < key.len() {
        Some(Code(KEY_TOO_LARGE))
    } else if VALUE_LIMIT < value.len() {
        Some(Code(VALUE_TOO_LARGE))
    } else {
        None
    }
}

/// Tells whether an end of a range is greater than FF.
pub fn is_end_outside(end: &[u8]) -> bool
    ensures { result ≡ rules.is_end_outside end.now }
{
    is_below(&[0xff], end)
}

/// Returns the code of the first check of a read that fails before its version is taken, by whether one of its keys is
/// outside and whether it lacks a limit.
pub fn read_code(phase: Phase, is_outside: bool, lacks_limit: bool) -> Option<Code>
    ensures { option_map number_of result ≡ rules.first_failing (rules.after_phase phase
        ((is_outside, constants.KEY_OUTSIDE_LEGAL_RANGE) ∷ (lacks_limit, constants.EXACT_MODE_WITHOUT_LIMITS) ∷ [])) }
{
    if let Some(code) = phase_code(phase) {
        Some(code)
    } else if is_outside {
        Some(Code(KEY_OUTSIDE_LEGAL_RANGE))
    } else if lacks_limit {
        Some(Code(EXACT_MODE_WITHOUT_LIMITS))
    } else {
        None
    }
}

/// Returns the code of the first check of a set that fails.
#[tactic(auto, unfolding(model_database::specs::Transactions::set_code))]
pub fn set_code(phase: Phase, key: &[u8], value: &[u8]) -> Option<Code>
    ensures { option_map number_of result ≡ rules.set_code phase key.now value.now }
{
    if let Some(code) = phase_code(phase) {
        Some(code)
    } else {
        key_code(key, value)
    }
}

/// Returns the code of the first check of a clear of one key that fails.
#[tactic(auto, unfolding(model_database::specs::Transactions::clear_code))]
pub fn clear_code(phase: Phase, key: &[u8]) -> Option<Code>
    ensures { option_map number_of result ≡ rules.clear_code phase key.now }
{
    if let Some(code) = phase_code(phase) {
        Some(code)
    } else if !is_below(key, &[0xff]) {
        Some(Code(KEY_OUTSIDE_LEGAL_RANGE))
    } else {
        None
    }
}

/// Returns the code of the first check of a call with a range that fails.
#[tactic(auto, unfolding(model_database::specs::Transactions::range_code))]
pub fn range_code(phase: Phase, range: &KeyRange) -> Option<Code>
    ensures { option_map number_of result ≡ rules.range_code phase range.now.begin range.now.end }
{
    if let Some(code) = phase_code(phase) {
        Some(code)
    } else if is_end_outside(range.begin.as_slice()) || is_end_outside(range.end.as_slice()) {
        Some(Code(KEY_OUTSIDE_LEGAL_RANGE))
    } else if range.end.cmp(&range.begin).is_lt() {
        Some(Code(INVERTED_RANGE))
    } else {
        None
    }
}

// The code of the key and the operand of an atomic operation, where they can't be written. Of a stamped key, which has room for
// the versionstamp, its template with ten 00 is asked.
fn asked_code(
    alloc: Global,
    op: AtomicOp,
    key: &[u8],
    operand: &[u8],
) -> Result<Option<Code>, AllocError>
    requires { rules.lacks_room op key.now operand.now ≡ false }
    ensures { IfOk result (λ code. option_map number_of code
        ≡ rules.first_failing (rules.key_checks (rules.key_asked op key.now) operand.now)) }
{
    match op {
        AtomicOp::SetVersionstampedKey | AtomicOp::OldStampedKey => {
            let template = template_of(alloc, op.stamp_form(), key)?;
            Ok(key_code(template.as_slice(), operand))
        }
        _ => Ok(key_code(key, operand)),
    }
}

// The template of stamped bytes with ten 00.
fn template_of(alloc: Global, form: StampForm, bytes: &[u8]) -> Result<Bytes, AllocError>
    requires { has_room form bytes.now ≡ true }
    ensures { IfOk result (λ template. template ≡ stamped form (replicate 10 0) bytes.now) }
{
    match resolve_stamp(alloc, form, bytes, &[0; 10]) {
        Ok(template) => Ok(template),
        Err(StampFault::NoRoom) => unreachable!(),
        Err(StampFault::NoMemory) => Err(AllocError),
    }
}

// Whether stamped bytes have no room for the versionstamp.
fn lacks_room(op: AtomicOp, key: &[u8], operand: &[u8]) -> bool
    ensures { result ≡ rules.lacks_room op key.now operand.now }
{
    match op {
        AtomicOp::SetVersionstampedKey | AtomicOp::OldStampedKey => !has_room(op.stamp_form(), key),
        AtomicOp::SetVersionstampedValue | AtomicOp::OldStampedValue => {
            !has_room(op.stamp_form(), operand)
        }
        _ => false,
    }
}

/// Returns the code of the first check of an atomic operation that fails.
#[tactic(auto, unfolding(model_database::specs::Transactions::op_code))]
pub fn op_code(
    alloc: Global,
    phase: Phase,
    op: AtomicOp,
    key: &[u8],
    operand: &[u8],
) -> Result<Option<Code>, AllocError>
    ensures code { IfOk result (λ code. option_map number_of code ≡ rules.op_code phase op key.now operand.now) }
{
    if let Some(code) = phase_code(phase) {
        return Ok(Some(code));
    }
    if lacks_room(op, key, operand) {
        return Ok(Some(Code(CLIENT_INVALID_OPERATION)));
    }
    asked_code(alloc, op, key, operand)
}

/// Returns the code of the first check of setting the read version that fails.
#[tactic(auto, unfolding(model_database::specs::Transactions::set_version_code))]
pub fn set_version_code(phase: Phase, taken: Option<u64>, version: i64) -> Option<Code>
    ensures { option_map number_of result ≡ rules.set_version_code phase taken version }
{
    if let Some(code) = phase_code(phase) {
        Some(code)
    } else if taken.is_some() {
        Some(Code(READ_VERSION_ALREADY_SET))
    } else if version <= 0 {
        Some(Code(VERSION_INVALID))
    } else {
        None
    }
}

/// Returns the code of the first check of a commit that fails, by whether there is nothing to write, and the size.
#[tactic(auto, unfolding(model_database::specs::Transactions::commit_code))]
pub fn commit_code(phase: Phase, is_read_only: bool, size: u64) -> Option<Code>
    ensures { option_map number_of result ≡ rules.commit_code phase is_read_only size }
{
    if let Some(code) = phase_code(phase) {
        Some(code)
    } else if !is_read_only && SIZE_LIMIT < size {
        Some(Code(TRANSACTION_TOO_LARGE))
    } else {
        None
    }
}
