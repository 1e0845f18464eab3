//! The keys that an operation with a versionstamp makes unreadable.

ghost use Rattle.std.specs.Prelude.{◌≡◌, true, [], ◌∷◌, IfOk};
ghost use Rattle.model_database.specs.Atomics.{is_versionstamped, stamp_form};
ghost use Rattle.model_database.specs.Databases as rules;
ghost use Rattle.model_database.specs.States.{has_room, stamped_bytes, unreadable_by};

use atomic_ops::stamped;
use key_bytes::{Bytes, Key, KeyRange};
use model_database::AtomicOp;
use std::alloc::{AllocError, Global};

// The keys that an operation with a versionstamp makes unreadable: each that a stamped key may become, or that of a stamped
// value.
pub(crate) fn hidden_keys(
    alloc: Global,
    op: AtomicOp,
    key: &Key,
    operand: &Bytes,
) -> Result<KeyRange, AllocError>
    requires stamped { is_versionstamped op ≡ true }
    requires room { has_room (stamp_form op) (stamped_bytes op key.now operand.now) ≡ true }
    ensures { IfOk result (λ keys. unreadable_by (rules.Atomic op key.now operand.now) ≡ keys ∷ []) }
{
    match op {
        AtomicOp::SetVersionstampedKey | AtomicOp::OldStampedKey => {
            let begin = stamped(alloc, op.stamp_form(), &[0; 10], key.as_slice())?;
            let last = stamped(alloc, op.stamp_form(), &[255; 10], key.as_slice())?;
            let end = last.after()?;
            Ok(KeyRange { begin, end })
        }
        _ => KeyRange::single(alloc, key),
    }
}
