//! The boundaries that a loop has not come to yet.

ghost use Rattle.std.specs.Prelude.{◌≡◌, length};
ghost use Rattle.std.specs.Iterator.{at_most};
ghost use Rattle.std.specs.Map.Iter.{TakesFirst, deref_pair};

use crate::tree_left::TreeLeft;
use key_bytes::{Bytes, Key};
use std::iter::FusedIterator;
use std::marker::Model;
use std::slice::Iter;

/// The boundaries that are left, in the order of keys, each with what it has, for a loop over them: none takes a search of its own.
/// Contracts see the list of them.
#[derive(Drop)]
pub struct BoundariesLeft<'a, T> {
    rest: Rest<'a, T>,
}

// Where the boundaries lie.
#[derive(Drop)]
pub(crate) enum Rest<'a, T> {
    Row(Iter<'a, (Bytes, T)>),
    Tree(TreeLeft<'a, T>),
}

impl<'a, T> Model for BoundariesLeft<'a, T> {
    ghost use Rattle.std.specs.Prelude.{ℕ, List};
    ghost use Rattle.range_map.specs.Left.{left_of};

    ghost Value = { List (List ℕ × T) };

    ghost view = { λ left. left_of left.rest };
}

impl<'a, T> BoundariesLeft<'a, T> {
    // Boundaries of a row.
    pub(crate) fn in_row(boundaries: &'a [(Bytes, T)]) -> BoundariesLeft<'a, T>
        ensures { result ≡ boundaries.now }
    {
        BoundariesLeft {
            rest: Rest::Row(boundaries.iter()),
        }
    }

    // Boundaries of a tree.
    pub(crate) fn in_tree(boundaries: TreeLeft<'a, T>) -> BoundariesLeft<'a, T>
        ensures { result ≡ boundaries.entry }
    {
        BoundariesLeft {
            rest: Rest::Tree(boundaries),
        }
    }
}

impl<'a, T> Iterator for BoundariesLeft<'a, T> {
    type Item = (&'a Key, &'a T);

    ghost next_gives = { TakesFirst deref_pair };

    ghost remaining = { λ left. at_most (length left) };

    /// Takes the first boundary that is left, and returns it with its value.
    fn next(&mut self) -> Option<(&'a Key, &'a T)> {
        match &mut self.rest {
            Rest::Row(left) => match left.next() {
                Some((boundary, level)) => Some((boundary, level)),
                None => None,
            },
            Rest::Tree(left) => left.next(),
        }
    }
}

impl<'a, T> FusedIterator for BoundariesLeft<'a, T> {}
