//! Old value and operand byte by byte.

ghost use Rattle.std.specs.Prelude.{◌≡◌, IfOk};
ghost use Rattle.model_database.specs.Atomics.{fitted, bytewise};
ghost use Rattle.atomic_ops.specs.Joinings.{joined};

use crate::fitting::byte_at;
use key_bytes::Bytes;
use std::alloc::{AllocError, Global};

// How the bits of two bytes are joined.
#[derive(Clone, Copy, Debug, PartialEq, Eq)]
pub(crate) enum Joining {
    And,
    Or,
    Xor,
}

fn joined(joining: Joining, kept: u8, byte: u8) -> u8
    ensures { result ≡ joined joining kept byte }
{
    match joining {
        Joining::And => kept & byte,
        Joining::Or => kept | byte,
        Joining::Xor => kept ^ byte,
    }
}

// Each byte of the old value, as wide as the operand, with the byte at its place in the operand.
#[tactic(auto, using(crate::proofs::Bytewise::joined_more, crate::proofs::Bytewise::joined_all))]
pub(crate) fn bytewise(
    alloc: Global,
    joining: Joining,
    old: &[u8],
    operand: &[u8],
) -> Result<Bytes, AllocError>
    ensures { IfOk result (λ bits. bits ≡ bytewise (joined joining) (fitted old.now operand.now) operand.now) }
{
    let mut bits = Vec::with_capacity(alloc, operand.len())?;
    for (place, byte) in operand.iter().enumerate() {
        bits.push(joined(joining, byte_at(old, place), *byte))?;
    }
    Bytes::from_vec(bits)
}
