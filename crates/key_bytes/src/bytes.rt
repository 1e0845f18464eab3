//! A byte string.

ghost use Rattle.std.specs.Prelude.{◌≡◌, ℕ, ◌<◌, ◌==◌, List, [], ◌∷◌, ◌++◌, ◌↔◌, All, Some, length, take, IfOk, IfSome, OnOk, OnErr, nat_eq};
ghost use Rattle.std.specs.Ordering.{nat_cmp};
ghost use Rattle.std.specs.Cmp.{partial_equiv_from_equiv};
ghost use Rattle.std.specs.Cmp.Lexicographic.{pointwise, nat_list_eq_equiv, nat_list_cmp_total, texts_po, texts_ties, slice_cmp};
ghost use Rattle.std.proofs.Common.{rules};
ghost use Rattle.key_bytes.specs.Keys.{IsByteString, key_cmp, key_lt, after, begins_with};
ghost use Rattle.key_bytes.specs.Successors.{strinc, IsLeastAbove};

use crate::form::Form;
use crate::short::Short;
use std::alloc::{AllocError, Global};
use std::cmp::Ordering;
use std::marker::Model;

/// A byte string. Contracts see the list of its bytes. Up to 22 bytes lie in place; more lie in memory that copies
/// share, or, once bytes were added to them, in memory of their own.
#[derive(Debug)]
pub struct Bytes {
    alloc: Global,
    form: Form,
}

// Written out, so that a caller's proof sees one call where a byte string is dropped, and not one case for each form.
impl Drop for Bytes {
    fn drop(self) {
        let Bytes { alloc: _, form: _ } = self;
    }
}

/// A key of the database: a byte string.
pub type Key = Bytes;

impl Model for Bytes {
    ghost use Rattle.std.specs.Prelude.{ℕ, List};
    ghost use Rattle.key_bytes.specs.Keys.{IsByteString};

    ghost Value = { List ℕ };

    ghost use Rattle.key_bytes.specs.Forms.{items_of};

    ghost view = { λ bytes. items_of bytes.form };

    ghost invariant = { λ bytes. IsByteString (items_of bytes.form) };
}

impl Bytes {
    /// Makes the empty byte string.
    pub fn new(alloc: Global) -> Bytes
        ensures { result ≡ [] }
    {
        Bytes {
            alloc,
            form: Form::InPlace(Short::new()),
        }
    }

    /// Copies `bytes` into a byte string. Up to 22 of them take no memory.
    pub fn from_slice(alloc: Global, bytes: &[u8]) -> Result<Bytes, AllocError>
        ensures { IfOk result (λ copy. copy ≡ bytes.now) }
    {
        Ok(Bytes {
            alloc,
            form: Form::from_slice(alloc, bytes)?,
        })
    }

    /// Makes the byte string that holds these items. Where there are more than 22 they stay where they are.
    pub fn from_vec(items: Vec<u8>) -> Result<Bytes, AllocError>
        ensures { IfOk result (λ bytes. bytes ≡ items.items) }
    {
        Ok(Bytes {
            alloc: *items.allocator(),
            form: Form::from_vec(items)?,
        })
    }

    /// Returns a copy of this byte string. Up to 22 bytes take no memory, and those that are shared none but a
    /// count.
    #[inline(always)]
    pub fn copy(&self) -> Result<Bytes, AllocError>
        ensures { IfOk result (λ copy. copy ≡ self.now) }
    {
        Ok(Bytes {
            alloc: self.alloc,
            form: self.form.copy(self.alloc)?,
        })
    }

    /// Returns the allocator that this byte string was made with.
    pub fn allocator(&self) -> Global {
        self.alloc
    }

    /// Returns the bytes.
    pub fn as_slice(&self) -> &[u8]
        ensures { result.now ≡ self.now }
    {
        self.form.as_slice()
    }

    /// Returns how many bytes there are.
    pub fn len(&self) -> usize
        ensures { result ≡ length self.now }
    {
        self.as_slice().len()
    }

    /// Tells whether there is no byte.
    pub fn is_empty(&self) -> bool
        ensures { result ≡ (length self.now == 0) }
    {
        self.as_slice().is_empty()
    }

    /// Adds `bytes` at the end. After a refusal this byte string is unchanged. Many additions in a row take time in
    /// proportion to the bytes that were added.
    pub fn extend(&mut self, bytes: &[u8]) -> Result<(), AllocError>
        ensures ok { OnOk result (self.new ≡ self.old ++ bytes.now) }
        ensures err { OnErr result (self.new ≡ self.old) }
    {
        self.form.extend(self.alloc, bytes)
    }

    /// Returns the least byte string above this one: this one followed by a `00`.
    pub fn after(&self) -> Result<Bytes, AllocError>
        ensures { IfOk result (λ next. next ≡ after self.now) }
    {
        Ok(Bytes {
            alloc: self.alloc,
            form: self.form.pushed(self.alloc, 0)?,
        })
    }

    /// Returns the least byte string above every byte string that begins with this one: trailing `FF` bytes are
    /// dropped, and the last byte that is left is raised by one. None exactly where all bytes are `FF`, or
    /// there are none (the tuple layer's `strinc`).
    pub fn strinc(&self) -> Result<Option<Bytes>, AllocError>
        ensures value { IfOk result (λ next. next ≡ strinc self.now) }
        ensures above { IfOk result (λ next. IfSome next (IsLeastAbove self.now)) }
        ensures none { IfOk result (λ next. (next ≡ None) ↔ All (λ byte. byte ≡ 255) self.now) }
    {
        let bytes = self.as_slice();
        match bytes.iter().rposition(|&byte| byte < 255) {
            None => Ok(None),
            Some(last) => {
                let mut next = Bytes::from_slice(self.alloc, &bytes[..last])?;
                next.extend(&[bytes[last] + 1])?;
                Ok(Some(next))
            }
        }
    }

    /// Tells whether this byte string begins with `prefix`.
    pub fn starts_with(&self, prefix: &[u8]) -> bool
        ensures { result ≡ begins_with self.now prefix.now }
    {
        self.as_slice().starts_with(prefix)
    }

    /// Shows to a proof that contracts see numbers from 0 to 255. It does nothing when it runs.
    pub fn shows_bytes(&self)
        ensures { IsByteString self.now }
    {
        let _form = &self.form;
    }
}

/// Tells whether `a` stands before `b` in the order of keys.
pub fn is_below(a: &[u8], b: &[u8]) -> bool
    ensures { result ≡ key_lt a.now b.now }
{
    a.cmp(b).is_lt()
}

impl PartialEq for Bytes {
    ghost eq = { pointwise nat_eq };

    ghost laws = { partial_equiv_from_equiv nat_list_eq_equiv };

    fn eq(&self, other: &Bytes) -> bool {
        self.form.eq(&other.form)
    }
}

impl Eq for Bytes {
    ghost laws = { nat_list_eq_equiv };
}

impl PartialOrd for Bytes {
    ghost partial_cmp = { λ x y. Some (key_cmp x y) };

    ghost laws = { texts_po };

    fn partial_cmp(&self, other: &Bytes) -> Option<Ordering> {
        Some(self.cmp(other))
    }
}

impl Ord for Bytes {
    ghost cmp = { key_cmp };

    ghost total = { nat_list_cmp_total };

    ghost matches_partial_cmp = { Prim.search rules };

    ghost matches_eq = { texts_ties };

    #[inline(always)]
    fn cmp(&self, other: &Bytes) -> Ordering {
        self.form.cmp(&other.form)
    }
}
