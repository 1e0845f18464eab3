//! An ordered map from keys to values.

ghost use Rattle.std.specs.Prelude.{◌≡◌, ℕ, List, [], not, None, Some, IsTrue, IfOk, OnOk, OnErr};
ghost use Rattle.std.specs.BTreeMap.{get, IsOrdered, IsUnchanged, Updates};
ghost use Rattle.std.specs.Bool.{OnFalse};
ghost use Rattle.std.specs.Borrow.{sem};
ghost use Rattle.std.specs.List.{filter};
ghost use Rattle.std.specs.List.Sorted.{IsStrictlySortedBy};
ghost use Rattle.std.specs.Map.{keys_of};
ghost use Rattle.std.specs.Option.{option_map, option_copied, option_copied_mut, unwrap_or};
ghost use Rattle.std.specs.FinMap as finite;
ghost use Rattle.std.specs.Map.Iter.{GivesInOrder, deref_pair};
ghost use Rattle.key_bytes.specs.Keys.{key_cmp, key_le, key_lt, within};
ghost use Rattle.key_map.specs.Ends.{first, last};
ghost use Rattle.key_map.specs.Inserted.{inserted};

use key_bytes::{Bytes, Key, Pair, Pairs};
use std::alloc::{AllocError, Global};
use std::collections::BTreeMap;
use std::collections::btree_map::{IntoIter, Range};
use std::marker::Model;

/// An ordered map from keys to values. Contracts see the finite map.
#[derive(Drop)]
pub struct KeyMap<V> {
    alloc: Global,
    tree: BTreeMap<Bytes, V>,
}

impl<V> Model for KeyMap<V> {
    ghost use Rattle.std.specs.FinMap as finite;
    ghost use Rattle.std.specs.Coded.{coded_ℕ, coded_list};
    ghost use Rattle.key_bytes.specs.Keys.{key_cmp};

    ghost Value = { finite.FinMap key_cmp V };

    ghost coded = { finite.code (coded_list coded_ℕ) V.code };

    ghost view = { λ map. finite.from_entries map.tree.entries };
}

impl<V> KeyMap<V> {
    ghost use Rattle.key_map.specs.Lends.{LendsValue};

    /// Makes the empty map.
    pub fn new(alloc: Global) -> KeyMap<V>
        ensures { result ≡ finite.empty }
    {
        KeyMap {
            alloc,
            tree: BTreeMap::new(alloc),
        }
    }

    /// Returns the value of `key`, if it has one.
    pub fn get(&self, key: &Key) -> Option<&V>
        ensures { option_copied result ≡ finite.get self.now key.now }
    {
        self.tree.get(key)
    }

    /// Tells whether `key` has a value.
    pub fn contains_key(&self, key: &Key) -> bool
        ensures { result ≡ finite.contains_key self.now key.now }
    {
        self.get(key).is_some()
    }

    /// Returns the value of `key`, if it has one, to write.
    pub fn get_mut(&mut self, key: &Key) -> Option<&mut V>
        // Once the borrow ends the key has what was written last. At `None` the map is unchanged.
        ensures* writes_back { sem 𝓛 (LendsValue V.row self.entry key.now result) }
        ensures value { option_copied_mut result ≡ finite.get self.old key.now }
    {
        self.tree.get_mut(key)
    }

    /// Gives `key` this value, and answers the value before. Only a new key takes memory. After a refusal the map is
    /// unchanged.
    pub fn insert(&mut self, key: Key, value: V) -> Result<Option<V>, AllocError>
    where
        V: Drop,
        ensures before { IfOk result (λ before. before ≡ finite.get self.old key) }
        ensures ok { OnOk result (self.new ≡ finite.insert self.old key value) }
        ensures err { OnErr result (self.new ≡ self.old) }
        ensures only_new { OnErr result (finite.get self.old key ≡ None) }
    {
        Ok(self.tree.insert(key, value)?)
    }

    /// Gives `key` this value where it has none: one search. Only a new key takes memory. After a refusal the map is unchanged.
    pub fn insert_missing(&mut self, key: Key, value: V) -> Result<(), AllocError>
    where
        V: Drop,
        ensures ok { OnOk result (self.new ≡ finite.insert self.old key (unwrap_or (finite.get self.old key) value)) }
        ensures err { OnErr result (self.new ≡ self.old) }
        ensures only_new { OnErr result (finite.get self.old key ≡ None) }
    {
        add_missing(&mut self.tree, key, value)?;
        Ok(())
    }

    /// Removes `key`, and answers its value.
    pub fn remove(&mut self, key: &Key) -> Option<V>
        ensures before { result ≡ finite.get self.old key.now }
        ensures removed { self.new ≡ finite.remove self.old key.now }
    {
        self.tree.remove(key)
    }

    /// Removes the keys from `begin` up to `end`, `end` left out. Where there is such a key, it goes over the
    /// whole map.
    pub fn clear_range(&mut self, begin: &Key, end: &Key)
    where
        V: Drop,
        ensures { self.new ≡ finite.retain_keys self.old (λ k. not (within begin.now end.now k)) }
    {
        keep_outside(&mut self.tree, begin, end);
    }

    /// Returns the first pair with a key that is at least `key`.
    pub fn next(&self, key: &Key) -> Option<(&Key, &V)>
        ensures { option_map deref_pair result
            ≡ first (filter (λ e. key_le key.now e.0) (finite.entries self.now)) }
    {
        self.tree.range(key..).next()
    }

    /// Returns the last pair with a key that is less than `key`.
    pub fn prev(&self, key: &Key) -> Option<(&Key, &V)>
        ensures { option_map deref_pair result
            ≡ last (filter (λ e. key_lt e.0 key.now) (finite.entries self.now)) }
    {
        self.tree.range(..key).next_back()
    }

    /// Returns an iterator over the pairs with keys from `begin` up to `end`, `end` left out, in the order of
    /// their keys. It takes one search for all of them.
    pub fn between(&self, begin: &Key, end: &Key) -> Range<'_, Bytes, V>
        requires { IsTrue (key_lt begin.now end.now) }
        ensures between { result ≡ filter (λ e. within begin.now end.now e.0) (finite.entries self.now) }
        ensures rising { IsStrictlySortedBy key_cmp (keys_of (finite.entries self.now)) }
    {
        self.tree.range(begin..end)
    }

    /// Takes the map apart into its pairs, in the order of their keys.
    pub fn into_entries(self) -> IntoIter<Bytes, V, Global>
    where
        V: Drop,
        ensures rest { result ≡ finite.entries self }
        ensures rising { IsStrictlySortedBy key_cmp (keys_of (finite.entries self)) }
        ensures runs { GivesInOrder (List ℕ × V) }
    {
        self.tree.into_iter()
    }
}

impl KeyMap<Bytes> {
    /// Makes the map of these pairs as if they were inserted one by one: of two values of one key the later
    /// stays. It moves the keys and values, and copies none. Pairs that are already in the order of their keys
    /// take two comparisons each, and no search.
    pub fn from_pairs(alloc: Global, pairs: Pairs) -> Result<KeyMap<Bytes>, AllocError>
        ensures { IfOk result (λ map. map ≡ inserted pairs finite.empty) }
    {
        let tree = pairs
            .into_vec()
            .into_iter()
            .map(|pair| (pair.key, pair.value))
            .collect(alloc)?;
        Ok(KeyMap { alloc, tree })
    }

    /// Returns a copy of the pairs, in the order of their keys.
    pub fn pairs(&self) -> Result<Pairs, AllocError>
        ensures { IfOk result (λ pairs. pairs ≡ finite.entries self.now) }
    {
        copied(self.alloc, self.tree.range(..))
    }
}

// A copy of the pairs that are left.
fn copied(alloc: Global, rest: Range<'_, Bytes, Bytes>) -> Result<Pairs, AllocError>
    ensures { IfOk result (λ pairs. pairs ≡ rest.entry) }
{
    let mut pairs = Pairs::new(alloc);
    for (key, value) in rest {
        let pair = Pair {
            key: key.copy()?,
            value: value.copy()?,
        };
        pairs.push(pair)?;
    }
    Ok(pairs)
}

/// Gives a key of a tree this value where it has none: one search. Only a new key takes memory. After a refusal the entries are
/// unchanged.
pub fn add_missing<V: Drop>(
    tree: &mut BTreeMap<Bytes, V>,
    key: Key,
    value: V,
) -> Result<(), AllocError>
    ensures ok { OnOk result (Updates key_cmp tree.old tree.new key (Some (unwrap_or (get key_cmp tree.old key) value))) }
    ensures err { OnErr result (IsUnchanged tree.old tree.new) }
    ensures only_new { OnErr result (get key_cmp tree.old key ≡ None) }
    ensures rising { IsOrdered key_cmp tree.new }
{
    let _value = tree.entry(key)?.or_insert(value);
    Ok(())
}

// Leaves the entries with keys below `begin`, and from `end` on.
fn keep_outside<V: Drop>(tree: &mut BTreeMap<Bytes, V>, begin: &Key, end: &Key)
    ensures { tree.new.entries
        ≡ filter (λ e. not (within begin.now end.now e.0)) tree.old.entries }
{
    if !has_between(tree, begin, end) {
        return;
    }
    tree.retain(|key, _| key.cmp(begin).is_lt() || !key.cmp(end).is_lt());
}

// Whether there is a key from `begin` up to `end`.
fn has_between<V>(tree: &BTreeMap<Bytes, V>, begin: &Key, end: &Key) -> bool
    ensures { OnFalse result (filter (λ e. within begin.now end.now e.0) tree.now.entries ≡ []) }
{
    if !begin.cmp(end).is_lt() {
        return false;
    }
    tree.range(begin..end).next().is_some()
}
