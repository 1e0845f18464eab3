//! Lists of keys with their values.

ghost use Rattle.std.specs.Prelude.{◌≡◌, ◌==◌, ℕ, ◌<◌, List, [], ◌∷◌, ◌++◌, Some, length, slice_get, IfOk, OnOk, OnErr};

use crate::bytes::{Bytes, Key};
use std::alloc::{AllocError, Global};
use std::marker::Model;

/// A key and its value.
#[derive(Debug, Drop)]
pub struct Pair {
    pub key: Key,
    pub value: Bytes,
}

impl Pair {
    /// Returns a copy of the pair.
    pub fn copy(&self) -> Result<Pair, AllocError>
        ensures { IfOk result (λ copy. (copy.key ≡ self.now.key) × (copy.value ≡ self.now.value)) }
    {
        Ok(Pair {
            key: self.key.copy()?,
            value: self.value.copy()?,
        })
    }
}

/// A list of pairs. Contracts see the list of keys with their values.
#[derive(Debug, Drop)]
pub struct Pairs {
    items: Vec<Pair>,
}

impl Model for Pairs {
    ghost use Rattle.std.specs.Prelude.{ℕ, List};
    ghost use Rattle.key_bytes.specs.Entries.{entries_of};

    ghost Value = { List (List ℕ × List ℕ) };

    ghost view = { λ pairs. entries_of pairs.items.items };
}

impl Pairs {
    ghost use Rattle.key_bytes.specs.Entries.{entries_of, entry_of};

    /// Makes the empty list.
    pub fn new(alloc: Global) -> Pairs
        ensures { result ≡ [] }
    {
        Pairs {
            items: Vec::new(alloc),
        }
    }

    /// Returns how many pairs there are.
    pub fn len(&self) -> usize
        ensures { result ≡ length self.now }
    {
        self.items.len()
    }

    /// Tells whether there is no pair.
    pub fn is_empty(&self) -> bool
        ensures { result ≡ (length self.now == 0) }
    {
        self.items.is_empty()
    }

    /// Returns the pair at place `i`.
    pub fn get(&self, i: usize) -> &Pair
        requires { i < length self.now }
        ensures { slice_get self.now i ≡ Some (entry_of result.now) }
    {
        &self.items[i]
    }

    /// Adds a pair at the end. After a refusal the list is unchanged.
    pub fn push(&mut self, pair: Pair) -> Result<(), AllocError>
        ensures ok { OnOk result (self.new ≡ self.old ++ entry_of pair ∷ []) }
        ensures err { OnErr result (self.new ≡ self.old) }
    {
        self.items.push(pair)?;
        Ok(())
    }

    /// Returns the pairs in order, for a loop over them.
    pub fn as_slice(&self) -> &[Pair]
        ensures { entries_of result.now ≡ self.now }
    {
        self.items.as_slice()
    }

    /// Takes the list apart into its pairs, in order.
    pub fn into_vec(self) -> Vec<Pair>
        ensures { entries_of result.items ≡ self }
    {
        self.items
    }

    /// Returns a copy of the list.
    pub fn copy(&self) -> Result<Pairs, AllocError>
        ensures { IfOk result (λ copy. copy ≡ self.now) }
    {
        let mut copy = Pairs::new(*self.items.allocator());
        for pair in self.items.as_slice() {
            copy.push(pair.copy()?)?;
        }
        Ok(copy)
    }
}
