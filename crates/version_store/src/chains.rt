//! The chain of each key, in the slots of one slab.

ghost use Rattle.std.specs.Prelude.{◌≡◌, ◌+◌, ◌^◌, ◌<◌, ◌≤◌, ℕ, List, [], ◌∷◌, Option, true, length, option_copied, IfOk, OnOk, OnErr, Some};
ghost use Rattle.std.specs.BTreeMap.{get, IsOrdered, IsUnchanged, Updates};
ghost use Rattle.std.specs.List.{sum_by};
ghost use Rattle.std.specs.Map.{values_of};
ghost use Rattle.std.specs.Map.Iter.{deref_pair};
ghost use Rattle.std.specs.Option.{option_map, unwrap_or};
ghost use Rattle.key_bytes.specs.Keys.{key_cmp};
ghost use Rattle.key_map.specs.Ends.{last};
ghost use Rattle.slab.specs.Slab.{slab_len};
ghost use Rattle.version_store.specs.Changed.{changes_of, changed, IsRising};
ghost use Rattle.version_store.specs.Chains.{chain_of, chains_of, database_of, has_room_at, room_of, total, AreReady, IsThere, KeepsChains, Puts, Sound};
ghost use Rattle.version_store.specs.Dues.{HasRoomFor, IsComplete, Notes};
ghost use Rattle.version_store.specs.Kept.{Adds};
ghost use Rattle.version_store.specs.Versions.{Chain, holding, place_of, present};

use crate::changes::Change;
use crate::pruning::{Due, Dues};
use crate::values::{Given, Values};
use key_bytes::{Bytes, Key};
use slab::Slab;
use std::alloc::{AllocError, Global};
use std::collections::BTreeMap;
use std::collections::btree_map::Range;

// The most room that the slab may have, so that each place has 32 bits.
pub(crate) const MOST_KEYS: usize = u32::MAX as usize;

// What the chain of a place holds at a version.
pub(crate) fn value_at<'a>(nodes: &'a Slab<Values>, place: u32, version: u64) -> Option<&'a Bytes>
    ensures { option_copied result ≡ holding version (chain_of nodes.now.slots place) }
{
    nodes.get(place as usize)?.at(version)
}

// How many values the chain of a place has.
pub(crate) fn len_at(nodes: &Slab<Values>, place: u32) -> usize
    ensures { result ≡ length (chain_of nodes.now.slots place) }
{
    match nodes.get(place as usize) {
        Some(values) => values.len(),
        None => 0,
    }
}

// How many values the chains of a span have.
pub(crate) fn count_values<'a>(nodes: &'a Slab<Values>, mut span: Range<'a, Bytes, u32>) -> usize
    requires { sum_by length (values_of (chains_of nodes.now.slots span)) < 2 ^ 64 }
    ensures { result ≡ sum_by length (values_of (chains_of nodes.now.slots span.entry)) }
{
    let mut count = 0;
    while let Some((_, place)) = span.next() {
        count += len_at(nodes, *place);
    }
    count
}

// The last key of a span that holds something at a version, and what it holds.
pub(crate) fn last_present<'a>(
    nodes: &'a Slab<Values>,
    mut span: Range<'a, Bytes, u32>,
    version: u64,
) -> Option<(&'a Key, &'a Bytes)>
    ensures { option_map deref_pair result
        ≡ last (present version (chains_of nodes.now.slots span.entry)) }
{
    while let Some((key, place)) = span.next_back() {
        if let Some(value) = value_at(nodes, *place, version) {
            return Some((key, value));
        }
    }
    None
}

// Makes room for so many keys more. More than 32 bits count are refused like want of memory.
pub(crate) fn add_room(nodes: &mut Slab<Values>, count: usize) -> Result<(), AllocError>
    ensures room { OnOk result (count ≤ room_of nodes.new) }
    ensures rest_kept { nodes.new ≡ record nodes.old { capacity = nodes.new.capacity } }
{
    nodes.reserve(count)?;
    if nodes.capacity() > MOST_KEYS {
        return Err(AllocError);
    }
    Ok(())
}

// The place of a key in a tree, which becomes this one where it has none: one search. After a refusal the entries are
// unchanged.
fn place_or_add(tree: &mut BTreeMap<Bytes, u32>, key: Key, place: u32) -> Result<u32, AllocError>
    ensures ok { OnOk result (Updates key_cmp tree.old tree.new key (Some (unwrap_or (get key_cmp tree.old key) place))) }
    ensures place { IfOk result (λ found. found ≡ unwrap_or (get key_cmp tree.old key) place) }
    ensures err { OnErr result (IsUnchanged tree.old tree.new) }
    ensures rising { IsOrdered key_cmp tree.new }
{
    Ok(*tree.entry(key)?.or_insert(place))
}

// The place of a key: one search. Where it has none it gets one, with a chain that holds nothing.
fn add_key(
    tree: &mut BTreeMap<Bytes, u32>,
    nodes: &mut Slab<Values>,
    next: u64,
    key: &Key,
) -> Result<u32, AllocError>
    requires room { 1 ≤ room_of nodes.old }
    requires sound { Sound nodes.old.slots next tree.old.entries }
    ensures adds { Adds nodes.old.slots nodes.new.slots next tree.old.entries tree.new.entries }
    ensures room { (left : ℕ) → left + 1 ≤ room_of nodes.old → left ≤ room_of nodes.new }
    ensures place { IfOk result (λ place. place_of tree.new.entries key.now ≡ Some place) }
{
    let vacant = nodes.vacant_key();
    if vacant > MOST_KEYS {
        return Err(AllocError);
    }
    let place = place_or_add(tree, key.copy()?, vacant as u32)?;
    if place as usize == vacant {
        nodes.insert_reserved(Values::Nothing);
    }
    Ok(place)
}

// Makes room for one more value at a place, which has a slot.
fn make_room_at(alloc: Global, nodes: &mut Slab<Values>, place: u32) -> Result<(), AllocError>
    requires there { IsThere nodes.old.slots place }
    ensures chains { KeepsChains nodes.old.slots nodes.new.slots }
    ensures len { slab_len nodes.new ≡ slab_len nodes.old }
    ensures capacity { nodes.new.capacity ≡ nodes.old.capacity }
    ensures room { OnOk result (has_room_at nodes.new.slots place ≡ true) }
{
    nodes.get_mut(place as usize).unwrap().make_room(alloc)
}

// Notes the place of each change's key, in their order, and makes room there for one more value. A key that has no place gets
// one, with a chain that holds nothing.
pub(crate) fn add_keys(
    alloc: Global,
    tree: &mut BTreeMap<Bytes, u32>,
    nodes: &mut Slab<Values>,
    next: u64,
    changes: &[Change],
    places: &mut Vec<u32>,
) -> Result<(), AllocError>
    requires room { length changes.now ≤ room_of nodes.old }
    requires sound { Sound nodes.old.slots next tree.old.entries }
    requires none { places.old.items ≡ [] }
    ensures adds { Adds nodes.old.slots nodes.new.slots next tree.old.entries tree.new.entries }
    ensures ready { OnOk result (AreReady nodes.new.slots tree.new.entries (changes_of changes.now) places.new.items) }
{
    for change in changes {
        let place = add_key(tree, nodes, next, &change.key)?;
        make_room_at(alloc, nodes, place)?;
        places.push(place)?;
    }
    Ok(())
}

// Gives the key of a place a value at a version, before the others.
fn put_at(nodes: &mut Slab<Values>, place: u32, version: u64, value: Option<Bytes>)
    requires room { has_room_at nodes.old.slots place ≡ true }
    ensures { Puts nodes.old.slots nodes.new.slots place (version, value) }
{
    nodes
        .get_mut(place as usize)
        .unwrap()
        .push(Given { version, value });
}

// Gives the key of a place the value of a change, and notes where something becomes old with it: what stands behind it, or an
// absence.
fn put_change(nodes: &mut Slab<Values>, dues: &mut Dues, place: u32, version: u64, change: Change)
    requires room { has_room_at nodes.old.slots place ≡ true }
    requires due { HasRoomFor 1 dues.old }
    ensures puts { Puts nodes.old.slots nodes.new.slots place (version, change.value) }
    ensures due { (left : ℕ) → HasRoomFor (left + 1) dues.old → HasRoomFor left dues.new }
    ensures notes { Notes version place dues.old dues.new (chain_of nodes.old.slots place) (chain_of nodes.new.slots place) }
{
    let Change { key, value } = change;
    let (before, absent) = (len_at(nodes, place), value.is_none());
    put_at(nodes, place, version, value);
    if before == 0 && !absent {
        return;
    }
    let removed = if absent { Some(key) } else { None };
    dues.note(Due {
        version,
        place,
        removed,
    });
}

// Gives each change's key its value at the place that was noted for it, with no search: the body doesn't look at the tree, which
// tells contracts whose places they are.
pub(crate) fn put_changes(
    _tree: &BTreeMap<Bytes, u32>,
    nodes: &mut Slab<Values>,
    dues: &mut Dues,
    version: u64,
    places: &[u32],
    changes: Vec<Change>,
)
    requires room { HasRoomFor (length changes.items) dues.old }
    requires ready { AreReady nodes.old.slots _tree.now.entries (changes_of changes.items) places.now }
    requires rising { IsRising (changes_of changes.items) }
    requires sound { Sound nodes.old.slots version _tree.now.entries }
    ensures sound { Sound nodes.new.slots (version + 1) _tree.now.entries }
    ensures now { database_of version nodes.new.slots _tree.now.entries
        ≡ changed (changes_of changes.items)
        (database_of version nodes.old.slots _tree.now.entries) }
    ensures before { (v : ℕ) → v < version → database_of v nodes.new.slots _tree.now.entries
        ≡ database_of v nodes.old.slots _tree.now.entries }
    ensures totals { (weight : Chain → ℕ)
        → ((value : Option (List ℕ)) (chain : Chain) → weight ((version, value) ∷ chain) ≡ weight chain + 1)
        → total weight nodes.new.slots _tree.now.entries
        ≡ total weight nodes.old.slots _tree.now.entries + length changes.items }
    ensures noting { dues.new.noting ≡ dues.old.noting }
    ensures complete { (low : ℕ) → low ≤ version
        → IsComplete low version dues.old nodes.old.slots _tree.now.entries
        → IsComplete low version dues.new nodes.new.slots _tree.now.entries }
{
    let mut places = places;
    for change in changes {
        let (place, later) = places.split_first().unwrap();
        places = later;
        put_change(nodes, dues, *place, version, change);
    }
}
