//! The old value as wide as the operand.

ghost use Rattle.std.specs.Prelude.{◌≡◌, IfOk, slice_index};
ghost use Rattle.model_database.specs.Atomics.{fitted};

use key_bytes::Bytes;
use std::alloc::{AllocError, Global};

// The byte at a place of the old value, 00 behind its end.
pub(crate) fn byte_at(old: &[u8], place: usize) -> u8
    ensures { result ≡ slice_index old.now place }
{
    old.get(place).copied().unwrap_or(0)
}

// The old value cut to as many bytes as the operand has, or filled with 00 to as many.
pub(crate) fn fitted(alloc: Global, old: &[u8], operand: &[u8]) -> Result<Bytes, AllocError>
    ensures { IfOk result (λ kept. kept ≡ fitted old.now operand.now) }
{
    let mut kept = Vec::with_capacity(alloc, operand.len())?;
    kept.extend_from_slice(&old[..old.len().min(operand.len())])?;
    kept.resize(operand.len(), 0)?;
    Bytes::from_vec(kept)
}
