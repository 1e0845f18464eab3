//! Loading pairs as the first version.

ghost use Rattle.std.specs.Prelude.{◌≡◌, ℕ, ◌+◌, ◌^◌, ◌<◌, ◌≤◌, [], length, IfOk, OnOk};
ghost use Rattle.std.specs.BTreeMap.{IsFromIterResult};
ghost use Rattle.std.specs.FinMap as finite;
ghost use Rattle.std.specs.Iterator.{YieldsFirst, item_count};
ghost use Rattle.key_bytes.specs.Entries.{entries_of};
ghost use Rattle.key_bytes.specs.Keys.{key_cmp};
ghost use Rattle.model_database.specs.Databases.{do_all};
ghost use Rattle.model_database.specs.Histories.{loaded};
ghost use Rattle.version_store.specs.Chains.{chain_of, chains_of, database_of, total, Sound};
ghost use Rattle.version_store.specs.Dues.{AreNoted};
ghost use Rattle.version_store.specs.Versions.{later};
ghost use Rattle.version_store.specs.Loading.{first_chain, first_chains, places_from, AreAlone, IsAlone};

use crate::chains::MOST_KEYS;
use crate::values::{Given, Values};
use key_bytes::{Bytes, Pair};
use slab::Slab;
use std::alloc::{AllocError, Global};
use std::collections::BTreeMap;
use std::marker::Model;
use std::mem;
use std::vec::IntoIter;

// The place of each key: of two values of one key the later is its chain. The values move first, and then the keys, so
// that no list stands between the pairs and the tree but the one that the tree is made of.
pub(crate) fn load_places(
    alloc: Global,
    nodes: &mut Slab<Values>,
    mut pairs: Vec<Pair>,
) -> Result<BTreeMap<Bytes, u32>, AllocError>
    ensures sound { IfOk result (λ tree. Sound nodes.new.slots 2 tree.entries) }
    ensures empty { IfOk result (λ tree. database_of 0 nodes.new.slots tree.entries ≡ finite.empty) }
    ensures first { IfOk result (λ tree. database_of 1 nodes.new.slots tree.entries
        ≡ do_all (loaded (entries_of pairs.items)).mutations finite.empty) }
    ensures noted { IfOk result (λ tree. AreNoted [] nodes.new.slots tree.entries) }
    ensures few { IfOk result (λ tree. total length nodes.new.slots tree.entries ≤ length tree.entries) }
    ensures later { IfOk result (λ tree. total (later 0) nodes.new.slots tree.entries
        ≡ length (finite.entries (database_of 1 nodes.new.slots tree.entries))) }
{
    if pairs.len() > MOST_KEYS {
        return Err(AllocError);
    }
    place_all(alloc, nodes, pairs.as_mut_slice())?;
    sorted(alloc, pairs)
}

// Moves each value into the nodes, as a chain of its own: that of the pair at a place goes to the same place.
fn place_all(alloc: Global, nodes: &mut Slab<Values>, pairs: &mut [Pair]) -> Result<(), AllocError>
    ensures len { length pairs.new ≡ length pairs.old }
    ensures chains { OnOk result (chains_of nodes.new.slots (places_from 0 pairs.new) ≡ first_chains (entries_of pairs.old)) }
    ensures alone { OnOk result (AreAlone nodes.new.slots (places_from 0 pairs.new)) }
{
    for place in 0..pairs.len() {
        let value = take_value(alloc, &mut pairs[place]);
        place_at(nodes, place, value)?;
    }
    Ok(())
}

// Takes the value of a pair out of it, and leaves the empty one.
fn take_value(alloc: Global, pair: &mut Pair) -> Bytes
    ensures value { result ≡ pair.old.value }
    ensures key { pair.new.key ≡ pair.old.key }
{
    mem::replace(&mut pair.value, Bytes::new(alloc))
}

// Puts a value into the nodes at this place, as a chain of its own. A place that isn't the next one is refused like want
// of memory.
fn place_at(nodes: &mut Slab<Values>, place: usize, value: Bytes) -> Result<(), AllocError>
    ensures chain { OnOk result (chain_of nodes.new.slots place ≡ first_chain value) }
    ensures alone { OnOk result (IsAlone nodes.new.slots place) }
    ensures others { OnOk result ((other : ℕ) → IsAlone nodes.old.slots other
        → IsAlone nodes.new.slots other
        × (chain_of nodes.new.slots other ≡ chain_of nodes.old.slots other)) }
{
    let newest = nodes.insert(Values::One(Given {
        version: 1,
        value: Some(value),
    }))?;
    if newest != place {
        return Err(AllocError);
    }
    Ok(())
}

// The last place of each key, where the value of the pair at a place is at the same place of the nodes.
fn sorted(alloc: Global, pairs: Vec<Pair>) -> Result<BTreeMap<Bytes, u32>, AllocError>
    requires { length pairs.items < 2 ^ 32 }
    ensures { IfOk result (IsFromIterResult key_cmp (places_from 0 pairs.items)) }
{
    let places = Places {
        left: pairs.into_iter(),
        place: 0,
    };
    places.collect(alloc)
}

// The keys of pairs with the places of their values, where the first one's is given, and the others follow.
#[derive(Drop)]
struct Places {
    left: IntoIter<Pair>,
    place: u32,
}

impl Model for Places {
    ghost use Rattle.std.specs.Prelude.{◌≡◌, ℕ, ◌+◌, ◌^◌, ◌<◌, List, length};
    ghost use Rattle.std.specs.Vec.Iter.{into_iter_items, into_iter_len};
    ghost use Rattle.version_store.specs.Loading.{places_from};

    ghost Value = { List (List ℕ × ℕ) };

    ghost view = { λ places. places_from places.place (into_iter_items places.left) };

    ghost invariant = { λ places. (into_iter_len places.left ≡ length (into_iter_items places.left))
        × (places.place + into_iter_len places.left < 2 ^ 32) };
}

impl Iterator for Places {
    type Item = (Bytes, u32);

    ghost next_gives = { YieldsFirst (λ rest. rest) };

    ghost remaining = { item_count (λ rest. rest) };

    fn next(&mut self) -> Option<(Bytes, u32)> {
        let pair = self.left.next()?;
        let place = self.place;
        self.place += 1;
        Some((pair.key, place))
    }

    fn size_hint(&self) -> (usize, Option<usize>) {
        self.left.size_hint()
    }
}
