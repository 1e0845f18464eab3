//! What a commit changes: keys with their values from then on.

ghost use Rattle.std.specs.Prelude.{◌≡◌, ◌<◌, List, [], ◌∷◌, ◌++◌, Some, length, slice_get, IfOk, OnOk, OnErr, IsTrue};
ghost use Rattle.version_store.specs.Changed.{change_of, changes_of, is_above, IsRising};

use key_bytes::{Bytes, Key};
use std::alloc::{AllocError, Global};
use std::marker::Model;

/// What a key has from then on: a value, or none where the key is removed.
#[derive(Debug, Drop)]
pub struct Change {
    pub key: Key,
    pub value: Option<Bytes>,
}

/// A list of changes, whose keys are distinct and rise. Contracts see the list of keys with their values.
#[derive(Debug, Drop)]
pub struct Changes {
    items: Vec<Change>,
}

impl Model for Changes {
    ghost use Rattle.std.specs.Prelude.{ℕ, List, Option};
    ghost use Rattle.version_store.specs.Changed.{changes_of, IsRising};

    ghost Value = { List (List ℕ × Option (List ℕ)) };

    ghost view = { λ changes. changes_of changes.items.items };

    ghost invariant = { λ changes. IsRising (changes_of changes.items.items) };
}

impl Changes {
    /// Makes the empty list.
    pub fn new(alloc: Global) -> Changes
        ensures { result ≡ [] }
    {
        Changes {
            items: Vec::new(alloc),
        }
    }

    /// Returns how many changes there are, whose keys are distinct and rise.
    pub fn len(&self) -> usize
        ensures value { result ≡ length self.now }
        ensures rising { IsRising self.now }
    {
        self.items.len()
    }

    /// Returns the change at place `i`.
    pub fn get(&self, i: usize) -> &Change
        requires { i < length self.now }
        ensures { slice_get self.now i ≡ Some (change_of result.now) }
    {
        &self.items[i]
    }

    /// Tells whether `key` stands above the keys of all changes, so that a change of it may be added.
    pub fn is_below(&self, key: &Key) -> bool
        ensures { result ≡ is_above self.now key.now }
    {
        match self.items.last() {
            Some(change) => change.key.cmp(key).is_lt(),
            None => true,
        }
    }

    /// Adds a change at the end, of a key above those of all others. After a refusal the list is unchanged.
    pub fn push(&mut self, change: Change) -> Result<(), AllocError>
        requires { IsTrue (is_above self.old change.key) }
        ensures ok { OnOk result (self.new ≡ self.old ++ change_of change ∷ []) }
        ensures err { OnErr result (self.new ≡ self.old) }
    {
        self.items.push(change)?;
        Ok(())
    }

    // The changes in order, for a loop over them.
    pub(crate) fn as_slice(&self) -> &[Change]
        ensures { changes_of result.now ≡ self.now }
    {
        self.items.as_slice()
    }

    // The changes themselves, in order.
    pub(crate) fn into_vec(self) -> Vec<Change>
        ensures same { changes_of result.items ≡ self }
        ensures rising { IsRising (changes_of result.items) }
    {
        self.items
    }
}
