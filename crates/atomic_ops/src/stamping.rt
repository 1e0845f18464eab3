//! Bytes that get a versionstamp.

ghost use Rattle.std.specs.Prelude.{◌≡◌, ◌^◌, ◌<◌, ◌≤◌, true, length, IfOk, IfErr};
ghost use Rattle.model_database.specs.Atomics.{offset_size};
ghost use Rattle.model_database.specs.States.{has_room, stamp_place, stamped};
ghost use Rattle.atomic_ops.specs.Faults.{IsUnstamped};

use crate::fault::StampFault;
use byteorder::{ByteOrder, LittleEndian};
use key_bytes::Bytes;
use model_database::StampForm;
use std::alloc::{AllocError, Global};

// The place that stamped bytes of a form give: the offset in which they end, the lowest byte first, or the front.
fn stamp_place(form: StampForm, bytes: &[u8]) -> usize
    requires { offset_size form ≤ length bytes.now }
    ensures value { result ≡ stamp_place form bytes.now }
    ensures small { result < 2 ^ 32 }
{
    let offset = &bytes[bytes.len() - form.offset_size()..];
    match form {
        StampForm::Last4 => LittleEndian::read_u32(offset) as usize,
        StampForm::Last2 => usize::from(LittleEndian::read_u16(offset)),
        StampForm::Front => 0,
    }
}

/// Tells whether stamped bytes have room for a versionstamp: all bytes of the offset that their form asks for are there,
/// and the ten bytes at the offset lie within what stands before it (API reference, "fdb_transaction_atomic_op").
pub fn has_room(form: StampForm, bytes: &[u8]) -> bool
    ensures { result ≡ has_room form bytes.now }
{
    let size = form.offset_size();
    bytes.len() >= size && stamp_place(form, bytes) + 10 <= bytes.len() - size
}

/// Fills a versionstamp into stamped bytes that have room for one: returns what stands before their offset, with
/// the ten bytes at the offset replaced by the stamp (API reference, "fdb_transaction_atomic_op").
#[tactic(auto, unfolding(model_database::specs::States::stamped))]
pub fn stamped(
    alloc: Global,
    form: StampForm,
    stamp: &[u8; 10],
    bytes: &[u8],
) -> Result<Bytes, AllocError>
    requires { has_room form bytes.now ≡ true }
    ensures { IfOk result (λ filled. filled ≡ stamped form stamp.now bytes.now) }
{
    let template = &bytes[..bytes.len() - form.offset_size()];
    let place = stamp_place(form, bytes);
    let mut filled = Vec::with_capacity(alloc, template.len())?;
    filled.extend_from_slice(&template[..place])?;
    filled.extend_from_slice(stamp)?;
    filled.extend_from_slice(&template[place + 10..])?;
    Bytes::from_vec(filled)
}

/// Fills a versionstamp into stamped bytes of a form, as their commit does (API reference, "fdb_transaction_atomic_op").
/// NoRoom exactly where they have no room for one; NoMemory where memory runs out.
pub fn resolve_stamp(
    alloc: Global,
    form: StampForm,
    bytes: &[u8],
    stamp: &[u8; 10],
) -> Result<Bytes, StampFault>
    ensures ok { IfOk result (λ filled. (has_room form bytes.now ≡ true) × (filled ≡ stamped form stamp.now bytes.now)) }
    ensures err { IfErr result (IsUnstamped form bytes.now) }
{
    if !has_room(form, bytes) {
        return Err(StampFault::NoRoom);
    }
    Ok(stamped(alloc, form, stamp, bytes)?)
}
