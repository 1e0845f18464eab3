//! The names of operations.

ghost use Rattle.std.specs.Prelude.{◌≡◌};
ghost use Rattle.model_database.specs.Atomics.{atomic_named, named};

use model_database::{Api, AtomicOp};

/// Returns the operation that a name of ATOMIC_OP (bindingApiTester.md) means under an API version.
///
/// None exactly where the name is no operation's: AND, OR and XOR are names beside BIT_AND, BIT_OR and BIT_XOR. Under 500 five
/// names mean the older form of their operation: BIT_AND, AND, MIN, SET_VERSIONSTAMPED_KEY and SET_VERSIONSTAMPED_VALUE.
#[tactic(auto, unfolding(model_database::specs::Atomics::atomic_named))]
pub fn from_name(name: &[u8], api: Api) -> Option<AtomicOp>
    ensures { result ≡ atomic_named api name.now }
{
    match (api, named(name)?) {
        (Api::V500, AtomicOp::BitAnd) => Some(AtomicOp::OldAnd),
        (Api::V500, AtomicOp::Min) => Some(AtomicOp::OldMin),
        (Api::V500, AtomicOp::SetVersionstampedKey) => Some(AtomicOp::OldStampedKey),
        (Api::V500, AtomicOp::SetVersionstampedValue) => Some(AtomicOp::OldStampedValue),
        (_, op) => Some(op),
    }
}

// The operation of a name under API version 630.
#[tactic(auto, unfolding(model_database::specs::Atomics::named))]
fn named(name: &[u8]) -> Option<AtomicOp>
    ensures { result ≡ named name.now }
{
    if name == b"ADD".as_slice() {
        Some(AtomicOp::Add)
    } else if name == b"BIT_AND".as_slice() || name == b"AND".as_slice() {
        Some(AtomicOp::BitAnd)
    } else if name == b"BIT_OR".as_slice() || name == b"OR".as_slice() {
        Some(AtomicOp::BitOr)
    } else if name == b"BIT_XOR".as_slice() || name == b"XOR".as_slice() {
        Some(AtomicOp::BitXor)
    } else if name == b"APPEND_IF_FITS".as_slice() {
        Some(AtomicOp::AppendIfFits)
    } else if name == b"MAX".as_slice() {
        Some(AtomicOp::Max)
    } else if name == b"MIN".as_slice() {
        Some(AtomicOp::Min)
    } else if name == b"BYTE_MIN".as_slice() {
        Some(AtomicOp::ByteMin)
    } else if name == b"BYTE_MAX".as_slice() {
        Some(AtomicOp::ByteMax)
    } else if name == b"COMPARE_AND_CLEAR".as_slice() {
        Some(AtomicOp::CompareAndClear)
    } else if name == b"SET_VERSIONSTAMPED_KEY".as_slice() {
        Some(AtomicOp::SetVersionstampedKey)
    } else if name == b"SET_VERSIONSTAMPED_VALUE".as_slice() {
        Some(AtomicOp::SetVersionstampedValue)
    } else {
        None
    }
}
