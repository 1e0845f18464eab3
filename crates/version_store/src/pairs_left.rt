//! The pairs of a database that a loop has not come to yet.

ghost use Rattle.std.specs.Prelude.{◌≡◌, length, IfOk};
ghost use Rattle.std.specs.Iterator.{at_most};
ghost use Rattle.std.specs.Map.Iter.{TakesFirst, deref_pair};
ghost use Rattle.version_store.specs.Chains.{chains_of};
ghost use Rattle.version_store.specs.Versions.{present};

use crate::chains::value_at;
use crate::values::Values;
use key_bytes::{Bytes, Key, Pair, Pairs};
use slab::Slab;
use std::alloc::{AllocError, Global};
use std::collections::btree_map::Range;
use std::iter::FusedIterator;
use std::marker::Model;

/// The pairs that are left, in the order of their keys, for a loop over them. None is copied. Contracts see the list of
/// these pairs.
#[derive(Drop)]
pub struct PairsLeft<'a> {
    nodes: &'a Slab<Values>,
    span: Range<'a, Bytes, u32>,
    version: u64,
}

impl<'a> Model for PairsLeft<'a> {
    ghost use Rattle.std.specs.Prelude.{ℕ, List};
    ghost use Rattle.version_store.specs.Chains.{chains_of};
    ghost use Rattle.version_store.specs.Versions.{present};

    ghost Value = { List (List ℕ × List ℕ) };

    ghost view = { λ left. present left.version (chains_of left.nodes.now.slots left.span) };
}

impl<'a> PairsLeft<'a> {
    // The pairs that the keys of a span make at a version.
    pub(crate) fn new(
        nodes: &'a Slab<Values>,
        span: Range<'a, Bytes, u32>,
        version: u64,
    ) -> PairsLeft<'a>
        ensures { result ≡ present version (chains_of nodes.now.slots span.entry) }
    {
        PairsLeft {
            nodes,
            span,
            version,
        }
    }
}

impl<'a> Iterator for PairsLeft<'a> {
    type Item = (&'a Key, &'a Bytes);

    ghost next_gives = { TakesFirst deref_pair };

    ghost remaining = { λ left. at_most (length left) };

    /// Takes the first pair that is left, and returns it.
    fn next(&mut self) -> Option<(&'a Key, &'a Bytes)> {
        while let Some((key, place)) = self.span.next() {
            if let Some(value) = value_at(self.nodes, *place, self.version) {
                return Some((key, value));
            }
        }
        None
    }
}

impl<'a> FusedIterator for PairsLeft<'a> {}

// A copy of the pairs that are left.
pub(crate) fn copied(alloc: Global, left: PairsLeft<'_>) -> Result<Pairs, AllocError>
    ensures { IfOk result (λ pairs. pairs ≡ left.entry) }
{
    let mut pairs = Pairs::new(alloc);
    for (key, value) in left {
        let pair = Pair {
            key: key.copy()?,
            value: value.copy()?,
        };
        pairs.push(pair)?;
    }
    Ok(pairs)
}
