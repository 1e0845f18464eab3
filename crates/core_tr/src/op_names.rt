//! The names of atomic operations.

ghost use Rattle.std.specs.Prelude.{◌≡◌, true, Some};
ghost use Rattle.model_database.specs.Atomics.{atomic_named};
ghost use Rattle.model_database.specs.declared.Api.{Api};
ghost use Rattle.core_tr.specs.OpNames.{is_named};

use model_database::AtomicOp;

/// Returns the name of an operation that has one name under every API version (bindingApiTester.md, "ATOMIC_OP").
#[tactic(auto, unfolding(model_database::specs::Atomics::atomic_named, model_database::specs::Atomics::named))]
pub(crate) fn name_of(op: AtomicOp) -> &'static [u8]
    requires { is_named op ≡ true }
    ensures { (api : Api) → atomic_named api result.now ≡ Some op }
{
    match op {
        AtomicOp::Add => b"ADD",
        AtomicOp::BitOr => b"BIT_OR",
        AtomicOp::BitXor => b"BIT_XOR",
        AtomicOp::AppendIfFits => b"APPEND_IF_FITS",
        AtomicOp::Max => b"MAX",
        AtomicOp::ByteMin => b"BYTE_MIN",
        AtomicOp::ByteMax => b"BYTE_MAX",
        AtomicOp::CompareAndClear => b"COMPARE_AND_CLEAR",
        _ => unreachable!(),
    }
}
