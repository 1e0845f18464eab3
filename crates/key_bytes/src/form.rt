//! The forms of a byte string.

ghost use Rattle.std.specs.Prelude.{◌≡◌, [], ◌∷◌, ◌++◌, length, IfOk, OnOk, OnErr, nat_eq};
ghost use Rattle.std.specs.Cmp.Lexicographic.{pointwise};
ghost use Rattle.key_bytes.specs.Keys.{IsByteString, key_cmp};
ghost use Rattle.key_bytes.specs.Forms.{items_of};

use crate::short::{SHORT_LIMIT, Short};
use std::alloc::{AllocError, Global};
use std::cmp::Ordering;
use std::sync::ArcSlice;

// Where the bytes lie. Together with its tag it has 24 bytes.
#[derive(Debug, Drop)]
pub(crate) enum Form {
    // At most 22 bytes lie here.
    InPlace(Short),
    // More lie in memory that copies share.
    Shared(ArcSlice<u8, Global>),
    // Those that grew past the room lie in memory of their own, with room for more.
    Growing(Box<Vec<u8>>),
}

impl Form {
    // A copy of `bytes`.
    pub(crate) fn from_slice(alloc: Global, bytes: &[u8]) -> Result<Form, AllocError>
        ensures { IfOk result (λ form. items_of form ≡ bytes.now) }
    {
        if bytes.len() <= SHORT_LIMIT {
            return Ok(Form::InPlace(Short::from_slice(bytes)));
        }
        Ok(Form::Shared(ArcSlice::from_slice(alloc, bytes)?))
    }

    // The bytes of a vector. Short ones are copied, others stay where they are.
    pub(crate) fn from_vec(items: Vec<u8>) -> Result<Form, AllocError>
        ensures { IfOk result (λ form. items_of form ≡ items.items) }
    {
        if items.len() <= SHORT_LIMIT {
            return Ok(Form::InPlace(Short::from_slice(items.as_slice())));
        }
        Ok(Form::Shared(ArcSlice::from_vec(items)?))
    }

    // The bytes.
    pub(crate) fn as_slice(&self) -> &[u8]
        ensures { result.now ≡ items_of self.now }
    {
        match self {
            Form::InPlace(short) => short.as_slice(),
            Form::Shared(items) => items.as_slice(),
            Form::Growing(items) => items.as_slice(),
        }
    }

    // A copy. One in place is a few moves where it is made, without a call.
    #[inline(always)]
    pub(crate) fn copy(&self, alloc: Global) -> Result<Form, AllocError>
        ensures { IfOk result (λ copy. items_of copy ≡ items_of self.now) }
    {
        match self {
            Form::InPlace(short) => Ok(Form::InPlace(short.copy())),
            long => long.copy_long(alloc),
        }
    }

    // A copy; bytes that are shared already are shared once more.
    #[inline(never)]
    fn copy_long(&self, alloc: Global) -> Result<Form, AllocError>
        ensures { IfOk result (λ copy. items_of copy ≡ items_of self.now) }
    {
        match self {
            Form::InPlace(short) => Ok(Form::InPlace(short.copy())),
            Form::Shared(items) => Ok(Form::Shared(items.clone()?)),
            Form::Growing(items) => Form::from_slice(alloc, items.as_slice()),
        }
    }

    // A copy with one byte more. In place it takes no memory.
    pub(crate) fn pushed(&self, alloc: Global, byte: u8) -> Result<Form, AllocError>
        ensures { IfOk result (λ form. items_of form ≡ items_of self.now ++ byte ∷ []) }
    {
        match self {
            Form::InPlace(short) if short.has_room_for(1) => Ok(Form::InPlace(short.pushed(byte))),
            _ => joined(alloc, self.as_slice(), &[byte]),
        }
    }

    // Adds `bytes` at the end. After a refusal the form is unchanged.
    pub(crate) fn extend(&mut self, alloc: Global, bytes: &[u8]) -> Result<(), AllocError>
        ensures ok { OnOk result (items_of self.new ≡ items_of self.old ++ bytes.now) }
        ensures err { OnErr result (items_of self.new ≡ items_of self.old) }
    {
        match self {
            Form::InPlace(short) if short.has_room_for(bytes.len()) => short.extend(bytes),
            Form::Growing(items) => items.extend_from_slice(bytes)?,
            _ => *self = joined(alloc, self.as_slice(), bytes)?,
        }
        Ok(())
    }

    // Which of two stands first in the order of keys.
    #[inline(always)]
    pub(crate) fn cmp(&self, other: &Form) -> Ordering
        ensures { result ≡ key_cmp (items_of self.now) (items_of other.now) }
    {
        match (self, other) {
            (Form::InPlace(short), Form::InPlace(other)) => short.cmp(other),
            _ => self.as_slice().cmp(other.as_slice()),
        }
    }

    // Whether the bytes are the same.
    pub(crate) fn eq(&self, other: &Form) -> bool
        ensures { result ≡ pointwise nat_eq (items_of self.now) (items_of other.now) }
    {
        match (self, other) {
            (Form::InPlace(short), Form::InPlace(other)) => short.cmp(other).is_eq(),
            _ => self.as_slice() == other.as_slice(),
        }
    }
}

// The first bytes with the others behind them, with room for as many again where they don't lie in place.
fn joined(alloc: Global, first: &[u8], second: &[u8]) -> Result<Form, AllocError>
    ensures { IfOk result (λ form. items_of form ≡ first.now ++ second.now) }
{
    let len = first.len().saturating_add(second.len());
    if len <= SHORT_LIMIT {
        return Ok(Form::InPlace(Short::joined(first, second)));
    }
    let mut items = Vec::with_capacity(alloc, len.saturating_mul(2))?;
    items.extend_from_slice(first)?;
    items.extend_from_slice(second)?;
    Ok(Form::Growing(Box::new(alloc, items)?))
}
