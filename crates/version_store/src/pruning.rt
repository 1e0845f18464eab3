//! Pruning: what no version that can be read needs goes.

ghost use Rattle.std.specs.Prelude.{◌≡◌, ◌≤◌, ◌<◌, ℕ, ◌+◌, ◌++◌, List, [], ◌∷◌, if◌then◌else◌, OnOk};
ghost use Rattle.std.specs.Bool.{OnTrue};
ghost use Rattle.std.specs.Option.{IfSome, IfNone};
ghost use Rattle.version_store.specs.declared.pruning.Due.{Due};
ghost use Rattle.version_store.specs.Chains.{chain_of, Places, Sound};
ghost use Rattle.version_store.specs.Dues.{AreNoted, HasRoomFor, IsAfter, IsComplete, Trims};
ghost use Rattle.version_store.specs.Kept.{AreFew, AreTrimmed, KeepsFrom};

use crate::chains::len_at;
use crate::values::Values;
use key_bytes::{Bytes, Key};
use slab::Slab;
use std::alloc::{AllocError, Global};
use std::collections::btree_map::Range;
use std::collections::{BTreeMap, VecDeque};

// A change that left something old behind it: its version, the place of its key, and the key where the change removed it.
#[derive(Drop)]
pub(crate) struct Due {
    pub(crate) version: u64,
    pub(crate) place: u32,
    pub(crate) removed: Option<Key>,
}

// What became old, or will, by version; nothing where the store notes none of it.
#[derive(Drop)]
pub(crate) struct Dues {
    noting: bool,
    queue: VecDeque<Due>,
}

impl Dues {
    // Makes the empty list, and says whether it notes anything.
    pub(crate) fn new(alloc: Global, noting: bool) -> Dues
        ensures noting { result.noting ≡ noting }
        ensures empty { result.queue.items ≡ [] }
    {
        Dues {
            noting,
            queue: VecDeque::new(alloc),
        }
    }

    // Makes room for so many more.
    pub(crate) fn reserve(&mut self, count: usize) -> Result<(), AllocError>
        ensures room { OnOk result (HasRoomFor count self.new) }
        ensures noting { self.new.noting ≡ self.old.noting }
        ensures same { self.new.queue.items ≡ self.old.queue.items }
    {
        if self.noting {
            self.queue.reserve(count)?;
        }
        Ok(())
    }

    // Notes one at the end.
    pub(crate) fn note(&mut self, due: Due)
        requires { HasRoomFor 1 self.old }
        ensures room { (left : ℕ) → HasRoomFor (left + 1) self.old → HasRoomFor left self.new }
        ensures noting { self.new.noting ≡ self.old.noting }
        ensures items { self.new.queue.items ≡ (if self.old.noting then self.old.queue.items ++ due ∷ [] else self.old.queue.items) }
    {
        if self.noting {
            self.queue.push_back_reserved(due);
        }
    }

    // Takes the first out, where it is of no version after `oldest`.
    fn pop(&mut self, oldest: u64) -> Option<Due>
        ensures some { IfSome result (λ due. (due.version ≤ oldest) × (self.old.queue.items ≡ due ∷ self.new.queue.items)) }
        ensures none { IfNone result (IsAfter oldest self.old.queue.items × (self.new.queue.items ≡ self.old.queue.items)) }
        ensures noting { self.new.noting ≡ self.old.noting }
    {
        match self.queue.front() {
            Some(due) if due.version <= oldest => self.queue.pop_front(),
            _ => None,
        }
    }
}

// Drops what no version from `oldest` on needs of the chain of a place. Any place will do.
fn trim_at(nodes: &mut Slab<Values>, place: u32, oldest: u64)
    ensures { Trims oldest place nodes.old.slots nodes.new.slots }
{
    if let Some(values) = nodes.get_mut(place as usize) {
        values.trim(oldest);
    }
}

// Takes a key away whose chain holds nothing. Any key will do.
fn drop_gone(tree: &mut BTreeMap<Bytes, u32>, nodes: &mut Slab<Values>, key: &Key)
    ensures keeps { KeepsFrom 0 nodes.old.slots tree.old.entries nodes.new.slots tree.new.entries }
    ensures noted { (next : ℕ) → Sound nodes.old.slots next tree.old.entries → (dues : List Due)
        → AreNoted dues nodes.old.slots tree.old.entries → AreNoted dues nodes.new.slots tree.new.entries }
{
    let place = match tree.get(key) {
        Some(place) => *place,
        None => return,
    };
    if len_at(nodes, place) == 0 {
        tree.remove(key);
        nodes.try_remove(place as usize);
    }
}

// Drops what became old with one change.
fn settle(tree: &mut BTreeMap<Bytes, u32>, nodes: &mut Slab<Values>, due: &Due, oldest: u64)
    ensures keeps { KeepsFrom oldest nodes.old.slots tree.old.entries nodes.new.slots tree.new.entries }
    ensures noted { due.now.version ≤ oldest → (next : ℕ) → Sound nodes.old.slots next tree.old.entries → (dues : List Due)
        → AreNoted (due.now ∷ dues) nodes.old.slots tree.old.entries → AreNoted dues nodes.new.slots tree.new.entries }
{
    trim_at(nodes, due.place, oldest);
    if let Some(key) = &due.removed {
        drop_gone(tree, nodes, key);
    }
}

// Drops what no version from `oldest` on needs: one step for each change that was noted up to that version, and one for each value
// that goes.
fn prune_dues(
    tree: &mut BTreeMap<Bytes, u32>,
    nodes: &mut Slab<Values>,
    dues: &mut Dues,
    oldest: u64,
)
    ensures keeps { KeepsFrom oldest nodes.old.slots tree.old.entries nodes.new.slots tree.new.entries }
    ensures noting { dues.new.noting ≡ dues.old.noting }
    ensures complete { (low high next : ℕ) → Sound nodes.old.slots next tree.old.entries
        → IsComplete low high dues.old nodes.old.slots tree.old.entries
        → IsComplete (oldest + 1) high dues.new nodes.new.slots tree.new.entries }
{
    while let Some(due) = dues.pop(oldest) {
        settle(tree, nodes, &due, oldest);
    }
}

// Drops what no version from `oldest` on needs of the chain of each place of a span.
fn trim_span(nodes: &mut Slab<Values>, mut span: Range<'_, Bytes, u32>, oldest: u64)
    ensures keeps { (places : Places) → KeepsFrom oldest nodes.old.slots places nodes.new.slots places }
    ensures trimmed { AreTrimmed oldest nodes.new.slots span.entry }
{
    while let Some((_, place)) = span.next() {
        trim_at(nodes, *place, oldest);
    }
}

// Drops what no version from `oldest` on needs: where changes are noted, what became old with those up to that version; else it goes
// over all keys.
pub(crate) fn prune_values(
    tree: &mut BTreeMap<Bytes, u32>,
    nodes: &mut Slab<Values>,
    dues: &mut Dues,
    oldest: u64,
)
    ensures keeps { KeepsFrom oldest nodes.old.slots tree.old.entries nodes.new.slots tree.new.entries }
    ensures noting { dues.new.noting ≡ dues.old.noting }
    ensures complete { (low high next : ℕ) → Sound nodes.old.slots next tree.old.entries
        → IsComplete low high dues.old nodes.old.slots tree.old.entries
        → IsComplete (oldest + 1) high dues.new nodes.new.slots tree.new.entries }
    ensures few { (low high next : ℕ) → Sound nodes.old.slots next tree.old.entries
        → IsComplete low high dues.old nodes.old.slots tree.old.entries → AreFew oldest nodes.new.slots tree.new.entries }
{
    if dues.noting {
        prune_dues(tree, nodes, dues, oldest);
    } else {
        trim_span(nodes, tree.range(..), oldest);
    }
}
