//! The boundaries of a tree that a loop has not come to yet.

ghost use Rattle.std.specs.Prelude.{◌≡◌, length};
ghost use Rattle.std.specs.Iterator.{at_most};
ghost use Rattle.std.specs.Map.Iter.{TakesFirst, deref_pair};
ghost use Rattle.range_map.specs.Places.{laid_out, AreInside};

use key_bytes::{Bytes, Key};
use std::collections::btree_map::Range;
use std::iter::FusedIterator;
use std::marker::Model;

// The boundaries of a tree that are left, in the order of keys, each with what it has. Contracts see the list of them.
#[derive(Drop)]
pub(crate) struct TreeLeft<'a, T> {
    base: &'a T,
    levels: &'a Vec<T>,
    span: Range<'a, Bytes, usize>,
}

impl<'a, T> Model for TreeLeft<'a, T> {
    ghost use Rattle.std.specs.Prelude.{length, ℕ, List};
    ghost use Rattle.range_map.specs.Places.{laid_out, AreInside};

    ghost Value = { List (List ℕ × T) };

    ghost view = { λ left. laid_out left.base.now left.levels.now.items left.span };

    ghost invariant = { λ left. AreInside (length left.levels.now.items) left.span };
}

impl<'a, T> TreeLeft<'a, T> {
    // The boundaries of a span of places, with what lies at these.
    pub(crate) fn new(
        base: &'a T,
        levels: &'a Vec<T>,
        span: Range<'a, Bytes, usize>,
    ) -> TreeLeft<'a, T>
        requires { AreInside (length levels.now.items) span }
        ensures { result ≡ laid_out base.now levels.now.items span.entry }
    {
        TreeLeft { base, levels, span }
    }
}

impl<'a, T> Iterator for TreeLeft<'a, T> {
    type Item = (&'a Key, &'a T);

    ghost next_gives = { TakesFirst deref_pair };

    ghost remaining = { λ left. at_most (length left) };

    // The first boundary that is left, which it takes, and what it has.
    fn next(&mut self) -> Option<(&'a Key, &'a T)> {
        match self.span.next() {
            Some((boundary, place)) => Some((boundary, &self.levels[*place])),
            None => None,
        }
    }
}

impl<'a, T> FusedIterator for TreeLeft<'a, T> {}
