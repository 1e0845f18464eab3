//! Many boundaries, in a tree.

ghost use Rattle.std.specs.Prelude.{◌≡◌, true, false, not, if◌then◌else◌, [], IsTrue, MatchOption, IfOk, OnOk, OnErr};
ghost use Rattle.std.specs.BTreeMap.{is_at};
ghost use Rattle.std.specs.List.{filter};
ghost use Rattle.std.specs.List.Sorted.{IsStrictlySortedBy};
ghost use Rattle.std.specs.Option.{option_map};
ghost use Rattle.key_bytes.specs.Keys.{key_cmp, key_le, key_lt, within};
ghost use Rattle.key_map.specs.Ends.{first, last};
ghost use Rattle.std.specs.Map.{keys_of};
ghost use Rattle.range_map.specs.Halves.{placed};

use crate::change::Change;
use crate::levels::{change_between, pop_last};
use crate::row::Row;
use crate::spread::Spread;
use crate::tree_left::TreeLeft;
use key_bytes::{Bytes, Key};
use std::alloc::{AllocError, Global};
use std::collections::BTreeMap;
use std::marker::Model;
use std::mem;
use std::ops::Bound;

// Boundaries in a tree, which names for each boundary a place in a list, where what the boundary has lies. Contracts see the
// boundaries in the order of keys, each with what it has, and what the keys below the first boundary have.
#[derive(Drop)]
pub(crate) struct Tree<T> {
    base: T,
    places: BTreeMap<Bytes, usize>,
    levels: Vec<T>,
}

impl<T> Model for Tree<T> {
    ghost use Rattle.std.specs.Prelude.{length, refl, ℕ, List};
    ghost use Rattle.std.specs.Coded.{coded×, coded_list, coded_ℕ, code_by};
    ghost use Rattle.range_map.specs.Boundaries.{Boundaries};
    ghost use Rattle.range_map.specs.Places.{laid_out, HasPlaces};

    ghost Value = { Boundaries T };

    ghost coded = { code_by (T × List (List ℕ × T)) (coded× T.code (coded_list (coded× (coded_list coded_ℕ) T.code)))
        (λ boundaries. (boundaries.base, boundaries.entries)) (λ pair. record { base = pair.0; entries = pair.1 }) (λ _. refl) };

    ghost view = { λ map. record { base = map.base; entries = laid_out map.base map.levels.items map.places.entries } };

    ghost invariant = { λ map. HasPlaces (length map.levels.items) map.places.entries };
}

// The boundary of a place.
fn boundary_of<'a>(found: Option<(&'a Bytes, &'a usize)>) -> Option<&'a Key>
    ensures { option_map (λ boundary. boundary.now) result ≡ option_map (λ pair. pair.0.now) found.entry }
{
    match found {
        Some((boundary, _)) => Some(boundary),
        None => None,
    }
}

// The boundaries, each with its place among them.
fn places_of<T>(
    alloc: Global,
    boundaries: &[(Bytes, T)],
) -> Result<BTreeMap<Bytes, usize>, AllocError>
    requires { IsStrictlySortedBy key_cmp (keys_of boundaries.now) }
    ensures { IfOk result (λ places. places.entries ≡ placed 0 boundaries.now) }
{
    let mut places = BTreeMap::new(alloc);
    let mut at = boundaries.len();
    while at > 0 {
        at -= 1;
        places.insert(boundaries[at].0.copy()?, at)?;
    }
    Ok(places)
}

impl<T> Tree<T> {
    ghost use Rattle.range_map.specs.Boundaries.{changed, boundaries_of, held, is_boundary, split_both, with_boundary, without_boundary};
    ghost use Rattle.range_map.specs.FirstTwo.{are_first_two};
    ghost use Rattle.range_map.specs.Halves.{is_nil};

    // The map without a boundary: each key has `base`.
    pub(crate) fn new(alloc: Global, base: T) -> Tree<T>
        ensures { result ≡ record { base = base; entries = [] } }
    {
        Tree {
            base,
            places: BTreeMap::new(alloc),
            levels: Vec::new(alloc),
        }
    }

    // What the keys below the first boundary have.
    pub(crate) fn base(&self) -> &T
        ensures { result.now ≡ self.now.base }
    {
        &self.base
    }

    // Whether there is no boundary.
    pub(crate) fn is_empty(&self) -> bool
        ensures { result ≡ is_nil self.now.entries }
    {
        self.places.len() == 0
    }

    // What a key has: what the last boundary that isn't above it has.
    pub(crate) fn at(&self, key: &Key) -> &T
        ensures { result.now ≡ held self.now key.now }
    {
        match self.places.range(..=key).next_back() {
            Some((_, place)) => &self.levels[*place],
            None => &self.base,
        }
    }

    // Whether a key is a boundary.
    pub(crate) fn has_boundary(&self, key: &Key) -> bool
        ensures { result ≡ is_boundary key.now self.now }
    {
        self.places.contains_key(key)
    }

    // Whether `begin` is a boundary and `end` is the next one: that the first two boundaries from `begin` on are these two. It
    // takes one search of the boundaries.
    pub(crate) fn has_neighbours(&self, begin: &Key, end: &Key) -> bool
        ensures { result ≡ are_first_two begin.now end.now (filter (λ e. key_le begin.now e.0) self.now.entries) }
    {
        let mut span = self.places.range(begin..);
        let Some((boundary, _)) = span.next() else {
            return false;
        };
        if boundary != begin {
            return false;
        }
        match span.next() {
            Some((next, _)) => next == end,
            None => false,
        }
    }

    // The first boundary above a key, if there is one.
    pub(crate) fn next(&self, key: &Key) -> Option<&Key>
        ensures { option_map (λ boundary. boundary.now) result
            ≡ first (filter (key_lt key.now) (boundaries_of self.now)) }
    {
        let above = (Bound::Excluded(key), Bound::Unbounded);
        match self.places.range(above).next() {
            Some((boundary, _)) => Some(boundary),
            None => None,
        }
    }

    // The last boundary below a key, if there is one.
    pub(crate) fn prev(&self, key: &Key) -> Option<&Key>
        ensures { option_map (λ boundary. boundary.now) result
            ≡ last (filter (λ boundary. key_lt boundary key.now) (boundaries_of self.now)) }
    {
        match self.places.range(..key).next_back() {
            Some((boundary, _)) => Some(boundary),
            None => None,
        }
    }

    // What a key has, and the first boundary above it, if there is one: one search of the boundaries where the key is a boundary
    // itself, and else one more.
    pub(crate) fn around(&self, key: &Key) -> (&T, Option<&Key>)
        ensures at { result.0.now ≡ held self.now key.now }
        ensures next { option_map (λ boundary. boundary.now) result.1
            ≡ first (filter (key_lt key.now) (boundaries_of self.now)) }
    {
        let mut span = self.places.range(key..);
        let Some((boundary, place)) = span.next() else {
            return (self.at(key), None);
        };
        if boundary == key {
            (&self.levels[*place], boundary_of(span.next()))
        } else {
            (self.at(key), Some(boundary))
        }
    }

    // The boundaries from `begin` on that are less than `end`, each with what it has, in the order of keys, for a loop over them:
    // one search for all of them.
    pub(crate) fn boundaries_between(&self, begin: &Key, end: &Key) -> TreeLeft<'_, T>
        requires { IsTrue (key_lt begin.now end.now) }
        ensures { result ≡ filter (λ e. within begin.now end.now e.0) self.now.entries }
    {
        TreeLeft::new(&self.base, &self.levels, self.places.range(begin..end))
    }

    // The boundaries above a key, each with what it has, in the order of keys, for a loop over them: one search for all of them.
    pub(crate) fn boundaries_above(&self, key: &Key) -> TreeLeft<'_, T>
        ensures { result ≡ filter (λ e. key_lt key.now e.0) self.now.entries }
    {
        let above = (Bound::Excluded(key), Bound::Unbounded);
        TreeLeft::new(&self.base, &self.levels, self.places.range(above))
    }

    // What a new boundary at a key gets; None where the key is a boundary.
    fn new_level(&self, key: &Key) -> Option<T>
    where
        T: Spread,
        ensures { MatchOption result
            (is_boundary key.now self.now ≡ true)
            (λ level. (is_boundary key.now self.now ≡ false) × (level ≡ T.spread (held self.now key.now))) }
    {
        match self.places.range(..=key).next_back() {
            Some((boundary, _)) if boundary == key => None,
            Some((_, place)) => Some(self.levels[*place].spread()),
            None => Some(self.base.spread()),
        }
    }

    // Makes a key a boundary, which gets what is spread of what the key had, and answers whether it was none before; where it is a
    // boundary already nothing changes. After a refusal the map is as it was.
    pub(crate) fn split(&mut self, key: &Key) -> Result<bool, AllocError>
    where
        T: Spread + Drop,
        ensures ok { OnOk result (self.new ≡ with_boundary key.now (T.spread (held self.old key.now)) self.old) }
        ensures err { OnErr result (self.new ≡ self.old) }
        ensures new { IfOk result (λ is_new. is_new ≡ not (is_boundary key.now self.old)) }
    {
        let Some(level) = self.new_level(key) else {
            return Ok(false);
        };
        self.levels.reserve(1)?;
        self.places.insert(key.copy()?, self.levels.len())?;
        self.levels.push(level).unwrap();
        Ok(true)
    }

    // Takes a boundary away again that was none before.
    fn join(&mut self, key: &Key, is_new: bool)
    where
        T: Drop,
        ensures { self.new ≡ (if is_new then without_boundary key.now self.old else self.old) }
    {
        if is_new {
            self.remove_boundary(key);
        }
    }

    // Makes two keys boundaries, one after the other: one search where they are boundaries with none between, and else five at
    // most. After a refusal the map is as it was.
    pub(crate) fn split_both(&mut self, begin: &Key, end: &Key) -> Result<(), AllocError>
    where
        T: Spread + Drop,
        ensures ok { OnOk result (self.new ≡ split_both T.spread begin.now end.now self.old) }
        ensures err { OnErr result (self.new ≡ self.old) }
        ensures rising { OnOk result (IsStrictlySortedBy key_cmp (boundaries_of self.new)) }
    {
        if self.has_neighbours(begin, end) {
            self.shows_rising();
            return Ok(());
        }
        let is_new = self.split(begin)?;
        match self.split(end) {
            Ok(_) => {
                self.shows_rising();
                Ok(())
            }
            Err(error) => {
                self.join(begin, is_new);
                Err(error)
            }
        }
    }

    // Makes two keys boundaries as `split_both` does, gives the first something else, and answers what it had. After a refusal the
    // map is as it was.
    pub(crate) fn put(&mut self, key: &Key, next: &Key, level: T) -> Result<T, AllocError>
    where
        T: Spread + Drop,
        ensures before { IfOk result (λ before. before ≡ held (split_both T.spread key.now next.now self.old) key.now) }
        ensures ok { OnOk result (self.new
            ≡ changed (is_at (key_cmp key.now)) (λ _. level) (split_both T.spread key.now next.now self.old)) }
        ensures err { OnErr result (self.new ≡ self.old) }
    {
        self.split_both(key, next)?;
        Ok(self.replace(key, level))
    }

    // Takes a boundary away: keys from it on have what those before it have.
    pub(crate) fn remove_boundary(&mut self, key: &Key)
    where
        T: Drop,
        ensures { self.new ≡ without_boundary key.now self.old }
    {
        if let Some(place) = self.places.remove(key) {
            pop_last(&mut self.levels, place);
        }
    }

    // Takes all boundaries away, and gives their room back.
    pub(crate) fn clear(&mut self)
    where
        T: Drop,
        ensures { self.new ≡ record { base = self.old.base; entries = [] } }
    {
        let alloc = *self.levels.allocator();
        self.places = BTreeMap::new(alloc);
        self.levels = Vec::new(alloc);
    }

    // Gives a boundary something else, and answers what it had.
    pub(crate) fn replace(&mut self, key: &Key, level: T) -> T
        requires { IsTrue (is_boundary key.now self.old) }
        ensures before { result ≡ held self.old key.now }
        ensures after { self.new ≡ changed (is_at (key_cmp key.now)) (λ _. level) self.old }
    {
        let place = *self.places.get(key).unwrap();
        mem::replace(&mut self.levels[place], level)
    }

    // Changes what each boundary from `begin` on has that is less than `end`. It takes one search, and one write for each such
    // boundary.
    pub(crate) fn change<C: Change<T>>(&mut self, begin: &Key, end: &Key, change: &C)
        ensures { self.new
            ≡ changed (within begin.now end.now) (C.changed change.now) self.old }
    {
        change_between(&self.places, &mut self.levels, begin, end, change);
    }

    // For proofs: that the boundaries rise. It does nothing when it runs.
    pub(crate) fn shows_rising(&self)
        ensures { IsStrictlySortedBy key_cmp (boundaries_of self.now) }
    {
        let _count = self.places.len();
    }

    // Has the boundaries of a row, which has none then, in place of its own. After a refusal both are as they were.
    pub(crate) fn fill(&mut self, row: &mut Row<T>) -> Result<(), AllocError>
    where
        T: Drop,
        ensures ok { OnOk result (self.new ≡ record self.old { entries = row.old }) }
        ensures row { OnOk result (row.new ≡ []) }
        ensures err { OnErr result (self.new ≡ self.old) }
        ensures row_err { OnErr result (row.new ≡ row.old) }
    {
        let alloc = *self.levels.allocator();
        let boundaries = row.as_slice();
        let mut levels = Vec::with_capacity(alloc, boundaries.len())?;
        self.places = places_of(alloc, boundaries)?;
        row.move_levels(&mut levels);
        self.levels = levels;
        Ok(())
    }
}
