//! A view, and what it has of one key.

ghost use Rattle.version_store.specs.Versions.{IsReadable};

use crate::applying::{applied, copied};
use crate::fault::ViewFault;
use key_bytes::{Bytes, Key};
use std::alloc::AllocError;
use version_store::Store;
use write_map::{KeyState, WriteMap};

/// The pending mutations of a transaction over a store at a version that can be read.
#[derive(Clone, Copy)]
pub struct View<'a> {
    /// The mutations.
    pub edits: &'a WriteMap,
    /// The store below them.
    pub store: &'a Store,
    /// The version of the store that they are seen over.
    pub version: u64,
    // It is not below the oldest version of the store, nor above the last one.
    pub ghost readable: { IsReadable store.now version },
}

impl<'a> View<'a> {
    ghost use Rattle.std.specs.Prelude.{◌≡◌, false, IfOk, IfErr};
    ghost use Rattle.std.specs.FinMap as finite;
    ghost use Rattle.model_database.specs.States.{covers, seen, unreadable};
    ghost use Rattle.version_store.specs.Versions.{at};
    ghost use Rattle.write_map.specs.Answers.{IsStateUnder};
    ghost use Rattle.ryw_view.specs.Faults.{IsUnread};

    /// Returns the value of a key as the transaction sees it: that of the store at the version, after the
    /// transaction's own mutations. Unreadable exactly where a mutation with a versionstamp makes the key
    /// unreadable, whatever is set or cleared behind it. NoMemory where memory runs out.
    pub fn get(&self, key: &Key) -> Result<Option<Bytes>, ViewFault>
        ensures value { IfOk result (λ value. value ≡ finite.get
            (seen self.now.edits.now.mutations (at self.now.store.now self.now.version)) key.now) }
        ensures readable { IfOk result (λ _. covers (unreadable self.now.edits.now.mutations) key.now ≡ false) }
        ensures refused { IfErr result (IsUnread self.now.edits.now.mutations key.now) }
    {
        match self.edits.at(key) {
            KeyState::Unreadable => Err(ViewFault::Unreadable),
            state => Ok(self.value_in(key, state)?),
        }
    }

    // The value of a key in this state. An unreadable key shows none.
    pub(crate) fn value_in(
        &self,
        key: &Key,
        state: KeyState<'_>,
    ) -> Result<Option<Bytes>, AllocError>
        requires { IsStateUnder self.now.edits.now.mutations key.now state }
        ensures { IfOk result (λ value. value ≡ finite.get
            (seen self.now.edits.now.mutations (at self.now.store.now self.now.version)) key.now) }
    {
        match state {
            KeyState::Unreadable => Ok(None),
            KeyState::Decided(value) => copied(key.allocator(), value),
            KeyState::Unmodified => copied(key.allocator(), self.stored(key)),
            KeyState::Depends(edits) => {
                applied(key.allocator(), edits.as_slice(), self.stored(key))
            }
        }
    }
}
