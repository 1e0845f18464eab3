//! A few boundaries, in a row.

ghost use Rattle.std.specs.Prelude.{◌≡◌, ℕ, ◌+◌, ◌≤◌, ◌<◌, ◌++◌, List, true, false, not, [], if◌then◌else◌, is_some, length, drop, IsTrue, IfOk, OnOk, OnErr};
ghost use Rattle.std.specs.BTreeMap.{insert_entry, is_at};
ghost use Rattle.std.specs.List.{filter};
ghost use Rattle.std.specs.List.Sorted.{IsStrictlySortedBy};
ghost use Rattle.std.specs.Map.{keys_of, lookup, remove_entry, values_of};
ghost use Rattle.std.specs.Option.{option_map};
ghost use Rattle.std.specs.Vec.{vec_capacity};
ghost use Rattle.key_bytes.specs.Keys.{key_cmp, key_le, key_lt, within};
ghost use Rattle.key_map.specs.Ends.{first, last};
ghost use Rattle.range_map.specs.Boundaries.{changed, changed_entries, held, held_from, split_both, with_base};
ghost use Rattle.range_map.specs.Halves.{count_while, is_nil};

use crate::change::Change;
use crate::spread::Spread;
use key_bytes::{Bytes, Key};
use std::alloc::{AllocError, Global};
use std::marker::Model;
use std::mem;

// Boundaries in the order of keys, each with what it has, which lies beside it. Contracts see the list of them.
#[derive(Drop)]
pub(crate) struct Row<T> {
    boundaries: Vec<(Bytes, T)>,
}

impl<T> Model for Row<T> {
    ghost use Rattle.std.specs.Prelude.{ℕ, List};
    ghost use Rattle.std.specs.List.Sorted.{IsStrictlySortedBy};
    ghost use Rattle.std.specs.Map.{keys_of};
    ghost use Rattle.key_bytes.specs.Keys.{key_cmp};

    ghost Value = { List (List ℕ × T) };

    ghost view = { λ row. row.boundaries.items };

    ghost invariant = { λ row. IsStrictlySortedBy key_cmp (keys_of row.boundaries.items) };
}

// How many of the boundaries are below a key.
fn below<T>(boundaries: &[(Bytes, T)], key: &Key) -> usize
    ensures inside { result ≤ length boundaries.now }
    ensures count { result ≡ count_while (λ boundary. key_lt boundary key.now) boundaries.now }
{
    let mut at = 0;
    while at < boundaries.len() {
        if !boundaries[at].0.cmp(key).is_lt() {
            return at;
        }
        at += 1;
    }
    at
}

// Changes what each of the boundaries has from `begin` on that is less than `end`.
fn change_boundaries<T, C: Change<T>>(
    boundaries: &mut Vec<(Bytes, T)>,
    begin: &Key,
    end: &Key,
    change: &C,
)
    requires { IsStrictlySortedBy key_cmp (keys_of boundaries.old.items) }
    ensures { boundaries.new.items ≡ changed_entries (within begin.now end.now) (C.changed change.now) boundaries.old.items }
{
    let mut at = below(boundaries.as_slice(), begin);
    while at < boundaries.len() {
        if !boundaries[at].0.cmp(end).is_lt() {
            return;
        }
        change.change(&mut boundaries[at].1);
        at += 1;
    }
}

impl<T> Row<T> {
    // No boundaries.
    pub(crate) fn new(alloc: Global) -> Row<T>
        ensures { result ≡ [] }
    {
        Row {
            boundaries: Vec::new(alloc),
        }
    }

    // How many boundaries there are.
    pub(crate) fn len(&self) -> usize
        ensures { result ≡ length self.now }
    {
        self.boundaries.len()
    }

    // Whether there is no boundary.
    pub(crate) fn is_empty(&self) -> bool
        ensures { result ≡ is_nil self.now }
    {
        self.boundaries.is_empty()
    }

    // How many boundaries are not above a key, and whether the key is one of them.
    fn spot(&self, key: &Key) -> (usize, bool)
        ensures inside { result.0 ≤ length self.now }
        ensures count { result.0 ≡ count_while (λ boundary. key_le boundary key.now) self.now }
        ensures is_boundary { result.1 ≡ is_some (lookup (is_at (key_cmp key.now)) self.now) }
        ensures rising { IsStrictlySortedBy key_cmp (keys_of self.now) }
    {
        self.spot_from(0, key)
    }

    // The same, where so many boundaries are below the key for certain: the walk begins behind these.
    fn spot_from(&self, from: usize, key: &Key) -> (usize, bool)
        requires { from ≤ count_while (λ boundary. key_lt boundary key.now) self.now }
        ensures inside { result.0 ≤ length self.now }
        ensures count { result.0 ≡ count_while (λ boundary. key_le boundary key.now) self.now }
        ensures is_boundary { result.1 ≡ is_some (lookup (is_at (key_cmp key.now)) self.now) }
        ensures rising { IsStrictlySortedBy key_cmp (keys_of self.now) }
    {
        let mut at = from;
        while at < self.boundaries.len() {
            let order = self.boundaries[at].0.cmp(key);
            if order.is_eq() {
                return (at + 1, true);
            }
            if order.is_gt() {
                return (at, false);
            }
            at += 1;
        }
        (at, false)
    }

    // What the last of so many boundaries has, or `base` where there are none.
    fn last_of<'a>(&'a self, base: &'a T, up_to: usize) -> &'a T
        requires { up_to ≤ length self.now }
        ensures { (key : List ℕ) → up_to ≡ count_while (λ boundary. key_le boundary key) self.now
            → result.now ≡ held_from base.now self.now key }
    {
        if up_to == 0 {
            return base;
        }
        &self.boundaries[up_to - 1].1
    }

    // The boundary at a place, if there is one.
    fn boundary_at(&self, at: usize) -> Option<&Key>
        ensures { option_map (λ boundary. boundary.now) result ≡ first (keys_of (drop at self.now)) }
    {
        match self.boundaries.get(at) {
            Some((boundary, _)) => Some(boundary),
            None => None,
        }
    }

    // What a key has, where `base` is had below the first boundary.
    pub(crate) fn at<'a>(&'a self, base: &'a T, key: &Key) -> &'a T
        ensures { result.now ≡ held_from base.now self.now key.now }
    {
        self.last_of(base, self.spot(key).0)
    }

    // Whether a key is a boundary.
    pub(crate) fn has_boundary(&self, key: &Key) -> bool
        ensures { result ≡ is_some (lookup (is_at (key_cmp key.now)) self.now) }
    {
        self.spot(key).1
    }

    // The first boundary above a key, if there is one.
    pub(crate) fn next(&self, key: &Key) -> Option<&Key>
        ensures { option_map (λ boundary. boundary.now) result ≡ first (filter (key_lt key.now) (keys_of self.now)) }
    {
        self.boundary_at(self.spot(key).0)
    }

    // The last boundary below a key, if there is one.
    pub(crate) fn prev(&self, key: &Key) -> Option<&Key>
        ensures { option_map (λ boundary. boundary.now) result
            ≡ last (filter (λ boundary. key_lt boundary key.now) (keys_of self.now)) }
    {
        let boundaries = self.boundaries.as_slice();
        let at = below(boundaries, key);
        if at == 0 {
            return None;
        }
        Some(&boundaries[at - 1].0)
    }

    // What a key has, where `base` is had below the first boundary, and the first boundary above it, if there is one.
    pub(crate) fn around<'a>(&'a self, base: &'a T, key: &Key) -> (&'a T, Option<&'a Key>)
        ensures at { result.0.now ≡ held_from base.now self.now key.now }
        ensures next { option_map (λ boundary. boundary.now) result.1
            ≡ first (filter (key_lt key.now) (keys_of self.now)) }
    {
        let (up_to, _) = self.spot(key);
        (self.last_of(base, up_to), self.boundary_at(up_to))
    }

    // The boundaries from a key on.
    fn from(&self, key: &Key) -> &[(Bytes, T)]
        ensures rising { IsStrictlySortedBy key_cmp (keys_of self.now) }
        ensures value { result.now ≡ filter (λ e. key_le key.now e.0) self.now }
    {
        let boundaries = self.boundaries.as_slice();
        &boundaries[below(boundaries, key)..]
    }

    // The boundaries from `begin` on that are less than `end`.
    pub(crate) fn between(&self, begin: &Key, end: &Key) -> &[(Bytes, T)]
        ensures { result.now ≡ filter (λ e. within begin.now end.now e.0) self.now }
    {
        let boundaries = self.from(begin);
        &boundaries[..below(boundaries, end)]
    }

    // The boundaries above a key.
    pub(crate) fn above(&self, key: &Key) -> &[(Bytes, T)]
        ensures { result.now ≡ filter (λ e. key_lt key.now e.0) self.now }
    {
        &self.boundaries[self.spot(key).0..]
    }

    // Makes a key a boundary, where `base` is had below the first boundary, and answers whether it was none before. After a refusal
    // the row is as it was.
    pub(crate) fn split(&mut self, base: &T, key: &Key) -> Result<bool, AllocError>
    where
        T: Spread + Drop,
        ensures ok { OnOk result (self.new ≡ (if is_some (lookup (is_at (key_cmp key.now)) self.old) then self.old
            else insert_entry key_cmp self.old key.now (T.spread (held_from base.now self.old key.now)))) }
        ensures err { OnErr result (self.new ≡ self.old) }
        ensures new { IfOk result (λ is_new. is_new ≡ not (is_some (lookup (is_at (key_cmp key.now)) self.old))) }
    {
        let (_, is_new) = self.split_from(base, 0, key)?;
        Ok(is_new)
    }

    // The same, where so many boundaries are below the key for certain: the walk begins behind these. It answers too how many
    // boundaries are not above the key then.
    fn split_from(&mut self, base: &T, from: usize, key: &Key) -> Result<(usize, bool), AllocError>
    where
        T: Spread + Drop,
        requires { from ≤ count_while (λ boundary. key_lt boundary key.now) self.old }
        ensures ok { OnOk result (self.new ≡ (if is_some (lookup (is_at (key_cmp key.now)) self.old) then self.old
            else insert_entry key_cmp self.old key.now (T.spread (held_from base.now self.old key.now)))) }
        ensures err { OnErr result (self.new ≡ self.old) }
        ensures new { IfOk result (λ found. found.1 ≡ not (is_some (lookup (is_at (key_cmp key.now)) self.old))) }
        ensures count { IfOk result (λ found. found.0 ≡ count_while (λ boundary. key_le boundary key.now) self.new) }
        ensures rising { IsStrictlySortedBy key_cmp (keys_of self.new) }
    {
        let (up_to, is_boundary) = self.spot_from(from, key);
        if is_boundary {
            return Ok((up_to, false));
        }
        let level = self.last_of(base, up_to).spread();
        self.boundaries.insert(up_to, (key.copy()?, level))?;
        Ok((up_to + 1, true))
    }

    // How many boundaries are below `end` for certain, where so many are not above `begin`: these, if `begin` is below `end`.
    fn start_for(&self, end: &Key, begin: &Key, up_to: usize) -> usize
        requires { up_to ≡ count_while (λ boundary. key_le boundary begin.now) self.now }
        ensures { result ≤ count_while (λ boundary. key_lt boundary end.now) self.now }
    {
        if begin.cmp(end).is_lt() { up_to } else { 0 }
    }

    // Takes a boundary away again that was none before.
    fn join(&mut self, key: &Key, is_new: bool)
    where
        T: Drop,
        ensures { self.new ≡ (if is_new then remove_entry (is_at (key_cmp key.now)) self.old else self.old) }
    {
        if is_new {
            self.remove_boundary(key);
        }
    }

    // Makes two keys boundaries, where `base` is had below the first boundary, and answers how many boundaries are not above
    // `begin` then, if it is below `end`: one walk along the row where it is, and else two. After a refusal the row is as it was.
    pub(crate) fn split_both(
        &mut self,
        base: &T,
        begin: &Key,
        end: &Key,
    ) -> Result<usize, AllocError>
    where
        T: Spread + Drop,
        ensures ok { OnOk result (with_base base.now self.new
            ≡ split_both T.spread begin.now end.now (with_base base.now self.old)) }
        ensures err { OnErr result (self.new ≡ self.old) }
        ensures count { IfOk result (λ up_to. key_lt begin.now end.now ≡ true
            → up_to ≡ count_while (λ boundary. key_le boundary begin.now) self.new) }
        ensures rising { OnOk result (IsStrictlySortedBy key_cmp (keys_of self.new)) }
    {
        let (up_to, is_new) = self.split_from(base, 0, begin)?;
        let from = self.start_for(end, begin, up_to);
        match self.split_from(base, from, end) {
            Ok(_) => Ok(up_to),
            Err(error) => {
                self.join(begin, is_new);
                Err(error)
            }
        }
    }

    // Makes two keys boundaries as `split_both` does, gives the first something else, and answers what it had. After a refusal the
    // row is as it was.
    pub(crate) fn put(&mut self, base: &T, key: &Key, next: &Key, level: T) -> Result<T, AllocError>
    where
        T: Spread + Drop,
        ensures before { IfOk result (λ before. before
            ≡ held (split_both T.spread key.now next.now (with_base base.now self.old)) key.now) }
        ensures ok { OnOk result (with_base base.now self.new ≡ changed (is_at (key_cmp key.now)) (λ _. level)
            (split_both T.spread key.now next.now (with_base base.now self.old))) }
        ensures err { OnErr result (self.new ≡ self.old) }
    {
        let up_to = self.split_both(base, key, next)?;
        if key.cmp(next).is_lt() {
            return Ok(self.replace_last_of(up_to, level));
        }
        Ok(self.replace(key, level))
    }

    // Takes a boundary away.
    pub(crate) fn remove_boundary(&mut self, key: &Key)
    where
        T: Drop,
        ensures { self.new ≡ remove_entry (is_at (key_cmp key.now)) self.old }
    {
        let (up_to, is_boundary) = self.spot(key);
        if is_boundary {
            let _boundary = self.boundaries.remove(up_to - 1);
        }
    }

    // Takes all boundaries away, and keeps their room.
    pub(crate) fn clear(&mut self)
    where
        T: Drop,
        ensures { self.new ≡ [] }
    {
        self.boundaries.clear();
    }

    // Gives a boundary something else, and answers what it had.
    pub(crate) fn replace(&mut self, key: &Key, level: T) -> T
        requires { IsTrue (is_some (lookup (is_at (key_cmp key.now)) self.old)) }
        ensures before { (base : T) → result ≡ held_from base self.old key.now }
        ensures after { self.new ≡ changed_entries (is_at (key_cmp key.now)) (λ _. level) self.old }
    {
        let (up_to, _) = self.spot(key);
        self.replace_last_of(up_to, level)
    }

    // Gives the last of so many boundaries something else, and answers what it had.
    fn replace_last_of(&mut self, up_to: usize, level: T) -> T
        requires some { 1 ≤ up_to }
        requires inside { up_to ≤ length self.old }
        ensures before { (base : T) (key : List ℕ) → up_to ≡ count_while (λ boundary. key_le boundary key) self.old
            → result ≡ held_from base self.old key }
        ensures after { (key : List ℕ) → is_some (lookup (is_at (key_cmp key)) self.old) ≡ true
            → up_to ≡ count_while (λ boundary. key_le boundary key) self.old
            → self.new ≡ changed_entries (is_at (key_cmp key)) (λ _. level) self.old }
    {
        mem::replace(&mut self.boundaries[up_to - 1].1, level)
    }

    // Changes what each boundary from `begin` on has that is less than `end`.
    pub(crate) fn change<C: Change<T>>(&mut self, begin: &Key, end: &Key, change: &C)
        ensures { self.new ≡ changed_entries (within begin.now end.now) (C.changed change.now) self.old }
    {
        change_boundaries(&mut self.boundaries, begin, end, change);
    }

    // The boundaries, each with what it has.
    pub(crate) fn as_slice(&self) -> &[(Bytes, T)]
        ensures value { result.now ≡ self.now }
        ensures rising { IsStrictlySortedBy key_cmp (keys_of self.now) }
    {
        self.boundaries.as_slice()
    }

    // Takes the boundaries away, and moves what they have to the end of a list that has room for all of it.
    pub(crate) fn move_levels(&mut self, levels: &mut Vec<T>)
    where
        T: Drop,
        requires { length levels.old.items + length self.old ≤ vec_capacity levels.old }
        ensures row { self.new ≡ [] }
        ensures levels { levels.new.items ≡ levels.old.items ++ values_of self.old }
    {
        let alloc = *self.boundaries.allocator();
        let boundaries = mem::replace(&mut self.boundaries, Vec::new(alloc));
        for (_, level) in boundaries {
            levels.push(level).unwrap();
        }
    }
}
