//! What a list of atomic operations makes of a value.

ghost use Rattle.std.specs.Prelude.{◌≡◌, IfOk, option_copied};
ghost use Rattle.model_database.specs.Atomics.{atom};
ghost use Rattle.model_database.specs.States.{all_atoms};
ghost use Rattle.write_map.specs.Edits.{edits_of};

use key_bytes::Bytes;
use std::alloc::{AllocError, Global};
use write_map::AtomicEdit;

// A copy of a value.
pub(crate) fn copied(alloc: Global, value: Option<&[u8]>) -> Result<Option<Bytes>, AllocError>
    ensures { IfOk result (λ copy. copy ≡ option_copied value.entry) }
{
    match value {
        Some(bytes) => Ok(Some(Bytes::from_slice(alloc, bytes)?)),
        None => Ok(None),
    }
}

// What one operation makes of a value; one with a versionstamp changes nothing before the commit.
#[tactic(auto, using(model_database::proofs::KeyByKey::versionstamped_same))]
fn after_edit(
    alloc: Global,
    edit: &AtomicEdit,
    old: Option<&[u8]>,
) -> Result<Option<Bytes>, AllocError>
    ensures { IfOk result (λ value. value ≡ atom edit.now.op (option_copied old.entry) edit.now.operand) }
{
    if edit.op.is_versionstamped() {
        return copied(alloc, old);
    }
    atomic_ops::apply(alloc, edit.op, old, edit.operand.as_slice())
}

/// Applies atomic operations to a value, in their order, and returns what comes of it; those with a
/// versionstamp change nothing before the commit. The value itself is copied only where there is no operation.
pub fn applied(
    alloc: Global,
    edits: &[AtomicEdit],
    old: Option<&[u8]>,
) -> Result<Option<Bytes>, AllocError>
    ensures { IfOk result (λ value. value ≡ all_atoms (edits_of edits.now) (option_copied old.entry)) }
{
    let Some((first, rest)) = edits.split_first() else {
        return copied(alloc, old);
    };
    let mut value = after_edit(alloc, first, old)?;
    for edit in rest {
        value = after_edit(alloc, edit, lent(&value))?;
    }
    Ok(value)
}

// The bytes of a value.
fn lent(value: &Option<Bytes>) -> Option<&[u8]>
    ensures { option_copied result ≡ value.now }
{
    match value {
        Some(bytes) => Some(bytes.as_slice()),
        None => None,
    }
}
