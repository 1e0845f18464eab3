//! A map of boundaries.

ghost use Rattle.std.specs.Prelude.{◌≡◌, not, [], IsTrue, IfOk, OnOk, OnErr};
ghost use Rattle.std.specs.BTreeMap.{is_at};
ghost use Rattle.std.specs.List.{filter};
ghost use Rattle.std.specs.List.Sorted.{IsStrictlySortedBy};
ghost use Rattle.std.specs.Option.{option_map};
ghost use Rattle.key_bytes.specs.Keys.{key_cmp, key_le, key_lt, within};
ghost use Rattle.key_map.specs.Ends.{first, last};

use crate::boundaries_left::BoundariesLeft;
use crate::change::Change;
use crate::row::Row;
use crate::spread::Spread;
use crate::tree::Tree;
use key_bytes::Key;
use std::alloc::{AllocError, Global};
use std::marker::Model;

// So many boundaries lie in a row at most.
const FEW: usize = 16;

/// Boundaries over the keys: each has what all keys from it up to the next boundary have. Contracts see the boundaries in the order
/// of keys, each with what it has, and what the keys below the first boundary have.
// A few boundaries lie in a row, and more, or those that are left of more, in the tree: while one has boundaries the other has
// none. The tree has too what the keys below the first boundary have.
#[derive(Drop)]
pub struct RangeMap<T> {
    row: Row<T>,
    tree: Tree<T>,
}

impl<T> Model for RangeMap<T> {
    ghost use Rattle.std.specs.Prelude.{refl, ℕ, List};
    ghost use Rattle.std.specs.Coded.{coded×, coded_list, coded_ℕ, code_by};
    ghost use Rattle.range_map.specs.Boundaries.{Boundaries};
    ghost use Rattle.range_map.specs.Halves.{either, IsOneOf};

    ghost Value = { Boundaries T };

    ghost coded = { code_by (T × List (List ℕ × T)) (coded× T.code (coded_list (coded× (coded_list coded_ℕ) T.code)))
        (λ boundaries. (boundaries.base, boundaries.entries)) (λ pair. record { base = pair.0; entries = pair.1 }) (λ _. refl) };

    ghost view = { λ map. record { base = map.tree.base; entries = either map.row map.tree.entries } };

    ghost invariant = { λ map. IsOneOf map.row map.tree.entries };
}

impl<T> RangeMap<T> {
    ghost use Rattle.range_map.specs.Boundaries.{changed, boundaries_of, held, is_boundary, split_both, with_boundary, without_boundary};

    /// Makes the map without a boundary: each key has `base`.
    pub fn new(alloc: Global, base: T) -> RangeMap<T>
        ensures { result ≡ record { base = base; entries = [] } }
    {
        RangeMap {
            row: Row::new(alloc),
            tree: Tree::new(alloc, base),
        }
    }

    /// Returns the value in force at `key`: that of the last boundary at or below it, or the base where there is none.
    pub fn at(&self, key: &Key) -> &T
        ensures { result.now ≡ held self.now key.now }
    {
        if self.row.is_empty() {
            return self.tree.at(key);
        }
        self.row.at(self.tree.base(), key)
    }

    /// Tells whether a key is a boundary.
    pub fn has_boundary(&self, key: &Key) -> bool
        ensures { result ≡ is_boundary key.now self.now }
    {
        if self.row.is_empty() {
            return self.tree.has_boundary(key);
        }
        self.row.has_boundary(key)
    }

    /// Returns the first boundary above a key, if there is one.
    pub fn next(&self, key: &Key) -> Option<&Key>
        ensures { option_map (λ boundary. boundary.now) result
            ≡ first (filter (key_lt key.now) (boundaries_of self.now)) }
    {
        if self.row.is_empty() {
            return self.tree.next(key);
        }
        self.row.next(key)
    }

    /// Returns the last boundary below a key, if there is one.
    pub fn prev(&self, key: &Key) -> Option<&Key>
        ensures { option_map (λ boundary. boundary.now) result
            ≡ last (filter (λ boundary. key_lt boundary key.now) (boundaries_of self.now)) }
    {
        if self.row.is_empty() {
            return self.tree.prev(key);
        }
        self.row.prev(key)
    }

    /// Returns the value in force at `key`, and the first boundary above it, if there is one: one search of the boundaries where
    /// the key is a boundary itself, and else one more.
    pub fn around(&self, key: &Key) -> (&T, Option<&Key>)
        ensures at { result.0.now ≡ held self.now key.now }
        ensures next { option_map (λ boundary. boundary.now) result.1
            ≡ first (filter (key_lt key.now) (boundaries_of self.now)) }
    {
        if self.row.is_empty() {
            return self.tree.around(key);
        }
        self.row.around(self.tree.base(), key)
    }

    /// Returns an iterator over the boundaries from `begin` on that are less than `end`, each with its value, in the order of keys.
    /// It takes one search for all of them.
    pub fn boundaries_between(&self, begin: &Key, end: &Key) -> BoundariesLeft<'_, T>
        requires { IsTrue (key_lt begin.now end.now) }
        ensures { result ≡ filter (λ e. within begin.now end.now e.0) self.now.entries }
    {
        if self.row.is_empty() {
            return BoundariesLeft::in_tree(self.tree.boundaries_between(begin, end));
        }
        BoundariesLeft::in_row(self.row.between(begin, end))
    }

    /// Returns an iterator over the boundaries above a key, each with its value, in the order of keys. It takes one search for all
    /// of them.
    pub fn boundaries_above(&self, key: &Key) -> BoundariesLeft<'_, T>
        ensures { result ≡ filter (λ e. key_lt key.now e.0) self.now.entries }
    {
        if self.row.is_empty() {
            return BoundariesLeft::in_tree(self.tree.boundaries_above(key));
        }
        BoundariesLeft::in_row(self.row.above(key))
    }

    /// Makes a key a boundary, whose value is spread from the one in force there, and returns whether it was no boundary before;
    /// where it is one already nothing changes. After a refusal the map is as it was.
    pub fn split(&mut self, key: &Key) -> Result<bool, AllocError>
    where
        T: Spread + Drop,
        ensures ok { OnOk result (self.new ≡ with_boundary key.now (T.spread (held self.old key.now)) self.old) }
        ensures err { OnErr result (self.new ≡ self.old) }
        ensures new { IfOk result (λ is_new. is_new ≡ not (is_boundary key.now self.old)) }
    {
        if self.row.is_empty() && !self.tree.is_empty() {
            return self.tree.split(key);
        }
        if self.row.len() < FEW {
            return self.row.split(self.tree.base(), key);
        }
        self.tree.fill(&mut self.row)?;
        self.tree.split(key)
    }

    /// Makes two keys boundaries, `begin` and then `end`, as `split` does. Among a few boundaries it takes one walk where `begin`
    /// is below `end`, and else two; among more one search where the two are boundaries with none between, and else five at most.
    /// After a refusal the map is as it was.
    pub fn split_both(&mut self, begin: &Key, end: &Key) -> Result<(), AllocError>
    where
        T: Spread + Drop,
        ensures ok { OnOk result (self.new ≡ split_both T.spread begin.now end.now self.old) }
        ensures err { OnErr result (self.new ≡ self.old) }
        ensures rising { OnOk result (IsStrictlySortedBy key_cmp (boundaries_of self.new)) }
    {
        if self.row.is_empty() && !self.tree.is_empty() {
            return self.tree.split_both(begin, end);
        }
        if self.row.len() < FEW - 1 {
            self.row.split_both(self.tree.base(), begin, end)?;
            return Ok(());
        }
        self.tree.fill(&mut self.row)?;
        self.tree.split_both(begin, end)
    }

    /// Makes two keys boundaries as `split_both` does, gives `key` the value `level`, and returns the value that it had: among a
    /// few boundaries by the same walk where `key` is below `next`, and else by one search more. After a refusal the map is as it
    /// was.
    pub fn put(&mut self, key: &Key, next: &Key, level: T) -> Result<T, AllocError>
    where
        T: Spread + Drop,
        ensures before { IfOk result (λ before. before ≡ held (split_both T.spread key.now next.now self.old) key.now) }
        ensures ok { OnOk result (self.new
            ≡ changed (is_at (key_cmp key.now)) (λ _. level) (split_both T.spread key.now next.now self.old)) }
        ensures err { OnErr result (self.new ≡ self.old) }
    {
        if self.row.is_empty() && !self.tree.is_empty() {
            return self.tree.put(key, next, level);
        }
        if self.row.len() < FEW - 1 {
            return self.row.put(self.tree.base(), key, next, level);
        }
        self.tree.fill(&mut self.row)?;
        self.tree.put(key, next, level)
    }

    /// Takes a boundary away: the keys from it on get the value of the boundary before it.
    pub fn remove_boundary(&mut self, key: &Key)
    where
        T: Drop,
        ensures { self.new ≡ without_boundary key.now self.old }
    {
        if self.row.is_empty() {
            self.tree.remove_boundary(key);
        } else {
            self.row.remove_boundary(key);
        }
    }

    /// Takes all boundaries away: each key gets the value of the keys below the first boundary. A few boundaries leave their room,
    /// and of more all is given back.
    pub fn clear(&mut self)
    where
        T: Drop,
        ensures { self.new ≡ record { base = self.old.base; entries = [] } }
    {
        self.row.clear();
        self.tree.clear();
    }

    /// Replaces the value of a boundary, and returns the one that it had.
    pub fn replace(&mut self, key: &Key, level: T) -> T
        requires { IsTrue (is_boundary key.now self.old) }
        ensures before { result ≡ held self.old key.now }
        ensures after { self.new ≡ changed (is_at (key_cmp key.now)) (λ _. level) self.old }
    {
        if self.row.is_empty() {
            return self.tree.replace(key, level);
        }
        self.row.replace(key, level)
    }

    /// Changes the value of each boundary from `begin` on that is less than `end`. It takes one search, and one write for each such
    /// boundary.
    pub fn change<C: Change<T>>(&mut self, begin: &Key, end: &Key, change: &C)
        ensures { self.new
            ≡ changed (within begin.now end.now) (C.changed change.now) self.old }
    {
        if self.row.is_empty() {
            self.tree.change(begin, end, change);
        } else {
            self.row.change(begin, end, change);
        }
    }

    /// Shows to a proof that the boundaries rise. It does nothing when it runs.
    pub fn shows_rising(&self)
        ensures { IsStrictlySortedBy key_cmp (boundaries_of self.now) }
    {
        self.tree.shows_rising();
        let _boundaries = self.row.as_slice();
    }
}
