//! The watches on keys of one store.

ghost use Rattle.std.specs.Prelude.{◌≡◌, ℕ, ◌+◌, ◌<◌, ◌≤◌, [], ◌∷◌, ◌++◌, All, None, map, filter, take, length, vec_len, vec_capacity, IfOk, OnErr};
ghost use Rattle.std.specs.FinMap as finite;
ghost use Rattle.model_database.specs.Databases.{Database};
ghost use Rattle.future_cell.specs.declared.callback.Registered.TheVariants.{No};
ghost use Rattle.future_cell.specs.Cells.{waiter_cell, shown, registration};
ghost use Rattle.version_store.specs.Versions.{at, last_of};
ghost use Rattle.watch_core.specs.declared.ending.WatchEnd.TheVariants.{Cancelled};
ghost use Rattle.watch_core.specs.Watching.{pending_count, made_now, after_commit, ended_as, ended_at, all_ended, is_pending_at, AreCurrent, AreCurrentBut, AreRight, HaveLooked, IsSettledBy};
ghost use Rattle.watch_core.specs.Watches.{endings_of, numbers_in, told_by, told_from, watched_of, AreListed, HaveLookedAt, IsWhole};

use crate::ending::{Ending, WatchEnd, WatchEnds};
use crate::index::{push_number, reserve_number};
use crate::watch::Watch;
use future_cell::{Call, Waiter, pair};
use key_bytes::{Bytes, Key};
use key_map::KeyMap;
use std::alloc::{AllocError, Global};
use std::marker::Model;
use version_store::Store;

/// How many watches may be pending at once.
pub const MOST_PENDING: u64 = 10_000;

/// The watches on keys of one store. Contracts see the last version that was seen, and a list of the watches.
#[derive(Drop)]
pub struct Watches<C> {
    alloc: Global,
    seen: u64,
    pending: u64,
    // Each watch lies at the place of its number.
    watches: Vec<Watch<C>>,
    // The numbers of the pending watches on each key, and of some that were cancelled since the key changed.
    index: KeyMap<Vec<usize>>,
    // It is empty, and has room for the ending of each watch.
    endings: Vec<Ending<C>>,
}

impl<C> Model for Watches<C> {
    ghost use Rattle.std.specs.Prelude.{map, vec_capacity};
    ghost use Rattle.watch_core.specs.Watching.{Watching};

    ghost Value = { Watching };

    ghost use Rattle.watch_core.specs.Watches.{numbers_in, watched_of, AreKept};

    ghost view = { λ inside. record { seen = inside.seen; watches = map watched_of inside.watches.items } };

    ghost invariant = { λ inside. AreKept inside.watches.items (numbers_in inside.index) inside.pending
        (vec_capacity inside.endings) inside.endings.items };
}

// A copy of the value of a key at the last version.
fn value_now(alloc: Global, store: &Store, key: &Key) -> Result<Option<Bytes>, AllocError>
    ensures { IfOk result (λ value. value ≡ finite.get (at store.now (last_of store.now)) key.now) }
{
    match store.get_at(key, store.last()) {
        Ok(Some(value)) => Ok(Some(Bytes::from_slice(alloc, value)?)),
        Ok(None) => Ok(None),
        Err(_) => unreachable!(),
    }
}

// Whether the watch of a number is pending.
fn is_pending_at<C>(watches: &[Watch<C>], number: usize) -> bool
    ensures { result ≡ is_pending_at number (map watched_of watches.now) }
{
    match watches.get(number) {
        Some(watch) => watch.is_pending(),
        None => false,
    }
}

// Has each watch of these numbers look at the last version, and tells how many fired.
fn commit_each<C: Call>(watches: &mut [Watch<C>], numbers: &[usize], store: &Store) -> u64
    requires whole { All IsWhole watches.old }
    requires within { All (λ number. number < length watches.old) numbers.now }
    ensures whole { All IsWhole watches.new }
    ensures looked { HaveLookedAt (last_of store.now) (at store.now (last_of store.now)) numbers.now watches.old watches.new }
    ensures fired { pending_count (map watched_of watches.new) + result ≡ pending_count (map watched_of watches.old) }
{
    let mut fired = 0;
    for number in numbers {
        if watches[*number].commit(store) {
            fired += 1;
        }
    }
    fired
}

// Has each watch look at the last version, and tells how many fired.
fn commit_all<C: Call>(watches: &mut [Watch<C>], store: &Store) -> u64
    requires whole { All IsWhole watches.old }
    ensures whole { All IsWhole watches.new }
    ensures after { map watched_of watches.new
        ≡ map (after_commit (last_of store.now) (at store.now (last_of store.now))) (map watched_of watches.old) }
    ensures fired { pending_count (map watched_of watches.new) + result ≡ pending_count (map watched_of watches.old) }
{
    let mut fired = 0;
    for number in 0..watches.len() {
        if watches[number].commit(store) {
            fired += 1;
        }
    }
    fired
}

// Moves the numbers of pending watches to the front, and tells how many they are.
fn pack_pending<C>(numbers: &mut [usize], watches: &[Watch<C>]) -> usize
    ensures { take result numbers.new
        ≡ filter (λ number. is_pending_at number (map watched_of watches.now)) numbers.old }
{
    let mut kept = 0;
    for i in 0..numbers.len() {
        let number = numbers[i];
        if is_pending_at(watches, number) {
            numbers[kept] = number;
            kept += 1;
        }
    }
    kept
}

// Leaves the numbers of pending watches.
fn keep_pending<C>(numbers: &mut Vec<usize>, watches: &[Watch<C>])
    ensures { numbers.new.items
        ≡ filter (λ number. is_pending_at number (map watched_of watches.now)) numbers.old.items }
{
    let kept = pack_pending(numbers, watches);
    numbers.truncate(kept);
}

// Has the watches on a key look at the last version, and returns how many watches are pending then.
fn commit_key<C: Call>(
    watches: &mut [Watch<C>],
    index: &mut KeyMap<Vec<usize>>,
    pending: u64,
    store: &Store,
    key: &Key,
) -> u64
    requires { AreListed watches.old (numbers_in index.old) pending }
    ensures listed { AreListed watches.new (numbers_in index.new) result }
    ensures looked { HaveLooked (last_of store.now) (at store.now (last_of store.now)) (key.now ∷ [])
        (map watched_of watches.old) (map watched_of watches.new) }
{
    match index.get_mut(key) {
        Some(numbers) => {
            let fired = commit_each(watches, numbers, store);
            keep_pending(numbers, watches);
            pending - fired
        }
        None => pending,
    }
}

// Has the watches on each of these keys look at the last version, and returns how many watches are pending then.
fn commit_keys<C: Call>(
    watches: &mut [Watch<C>],
    index: &mut KeyMap<Vec<usize>>,
    mut pending: u64,
    store: &Store,
    keys: &[Key],
) -> u64
    requires { AreListed watches.old (numbers_in index.old) pending }
    ensures listed { AreListed watches.new (numbers_in index.new) result }
    ensures looked { HaveLooked (last_of store.now) (at store.now (last_of store.now)) keys.now
        (map watched_of watches.old) (map watched_of watches.new) }
{
    for key in keys {
        pending = commit_key(watches, index, pending, store, key);
    }
    pending
}

// Cancels what is pending, and lays the receipts into the room for them.
fn close_each<C: Call>(
    watches: Vec<Watch<C>>,
    seen: u64,
    mut endings: Vec<Ending<C>>,
) -> Vec<Ending<C>>
    requires whole { All IsWhole watches.items }
    requires none { endings.items ≡ [] }
    requires room { vec_len watches ≤ vec_capacity endings }
    ensures { map told_by result.items ≡ told_from 0 (map (ended_as Cancelled seen) (map watched_of watches.items)) }
{
    let mut left = watches.into_iter();
    while let Some(watch) = left.next() {
        let number = endings.len() as u64;
        let receipt = watch.close(seen);
        endings.push_reserved(Ending { number, receipt });
    }
    left.destroy_empty();
    endings
}

impl<C: Call> Watches<C> {
    /// Makes the empty list of watches over a store, whose last version it keeps as the one seen.
    pub fn new(alloc: Global, store: &Store) -> Watches<C>
        ensures seen { result.seen ≡ last_of store.now }
        ensures none { result.watches ≡ [] }
        ensures right { (history : ℕ → Database) → AreRight history result }
    {
        Watches {
            alloc,
            seen: store.last(),
            pending: 0,
            watches: Vec::new(alloc),
            index: KeyMap::new(alloc),
            endings: Vec::new(alloc),
        }
    }

    /// Returns how many watches are pending.
    pub fn pending(&self) -> u64
        ensures { result ≡ pending_count self.now.watches }
    {
        self.pending
    }

    /// Returns the last version that was seen.
    pub fn seen(&self) -> u64
        ensures { result ≡ self.now.seen }
    {
        self.seen
    }

    /// Watches the value that `key` has at the last version, which may be none. It returns the number of the watch, from 0
    /// upward, and the waiter that is told how it ends. It takes all room that its ending will need. After a refusal the watches
    /// are unchanged.
    pub fn watch(
        &mut self,
        store: &Store,
        key: &[u8],
    ) -> Result<(u64, Waiter<WatchEnd, C>), AllocError>
        requires few { pending_count self.old.watches < MOST_PENDING }
        requires current { self.old.seen ≡ last_of store.now }
        ensures number { IfOk result (λ made. made.0 ≡ length self.old.watches) }
        ensures added { IfOk result (λ made. self.new ≡ record self.old {
          watches = self.old.watches
              ++ made_now key.now (last_of store.now) (at store.now (last_of store.now)) (waiter_cell made.1) ∷ [];
        }) }
        ensures fresh { IfOk result (λ made. (shown made.1 ≡ None) × (registration made.1 ≡ No)) }
        ensures err { OnErr result (self.new ≡ self.old) }
        ensures current { AreCurrent (at store.now (last_of store.now)) self.old.watches
            → AreCurrent (at store.now (last_of store.now)) self.new.watches }
        ensures right { (history : ℕ → Database) → history (last_of store.now) ≡ at store.now (last_of store.now)
            → AreRight history self.old → AreRight history self.new }
    {
        let key = Bytes::from_slice(self.alloc, key)?;
        let value = value_now(self.alloc, store, &key)?;
        self.watches.reserve(1)?;
        self.endings.reserve(self.watches.len() + 1)?;
        reserve_number(self.alloc, &mut self.index, &key)?;
        let (setter, waiter) = pair(self.alloc)?;
        let number = self.watches.len();
        push_number(&mut self.index, &key, number);
        self.watches.push_reserved(Watch {
            key,
            made: store.last(),
            value,
            setter: Some(setter),
            settlement: None,
        });
        self.pending += 1;
        Ok((number as u64, waiter))
    }

    /// Looks at the last version, before which one was installed since the last look: each pending watch whose key has another
    /// value now than when it was made is set to `Changed` with this version. It looks at each watch that was made.
    pub fn committed(&mut self, store: &Store)
        requires next { last_of store.now ≡ self.old.seen + 1 }
        ensures seen { self.new.seen ≡ last_of store.now }
        ensures after { self.new.watches
            ≡ map (after_commit (last_of store.now) (at store.now (last_of store.now))) self.old.watches }
        ensures current { AreCurrent (at store.now (last_of store.now)) self.new.watches }
        ensures right { (history : ℕ → Database) → history (last_of store.now) ≡ at store.now (last_of store.now)
            → AreRight history self.old → AreRight history self.new }
    {
        let fired = commit_all(&mut self.watches, store);
        self.pending -= fired;
        self.seen = store.last();
    }

    /// Does what `committed` does, given the keys that the last version changed, in any order: it looks at the watches on these
    /// alone.
    pub fn committed_keys(&mut self, store: &Store, changed: &[Key])
        requires next { last_of store.now ≡ self.old.seen + 1 }
        requires others { AreCurrentBut changed.now (at store.now (last_of store.now)) self.old.watches }
        ensures seen { self.new.seen ≡ last_of store.now }
        ensures after { self.new.watches
            ≡ map (after_commit (last_of store.now) (at store.now (last_of store.now))) self.old.watches }
        ensures current { AreCurrent (at store.now (last_of store.now)) self.new.watches }
        ensures right { (history : ℕ → Database) → history (last_of store.now) ≡ at store.now (last_of store.now)
            → AreRight history self.old → AreRight history self.new }
    {
        self.pending = commit_keys(
            &mut self.watches,
            &mut self.index,
            self.pending,
            store,
            changed,
        );
        self.seen = store.last();
    }

    /// Sets the watch of a number to `Cancelled`, and answers true exactly where it was pending. Else nothing changes.
    pub fn cancel(&mut self, number: u64) -> bool
        ensures pending { result ≡ is_pending_at number self.old.watches }
        ensures after { self.new ≡ record self.old { watches = ended_at number Cancelled self.old.seen self.old.watches } }
        ensures current { (database : Database) → AreCurrent database self.old.watches → AreCurrent database self.new.watches }
        ensures right { (history : ℕ → Database) → AreRight history self.old → AreRight history self.new }
    {
        let Some(watch) = self.watches.get_mut(number as usize) else {
            return false;
        };
        let was_pending = watch.end(WatchEnd::Cancelled, self.seen);
        if was_pending {
            self.pending -= 1;
        }
        was_pending
    }

    /// Cancels what is pending, and returns the ending of each watch, in rising number.
    pub fn close(self) -> WatchEnds<C>
        ensures endings { map told_by (endings_of result) ≡ told_from 0 (all_ended self) }
        ensures settled { (history : ℕ → Database) → AreRight history self → All (IsSettledBy history) (all_ended self) }
    {
        let Watches {
            alloc: _,
            seen,
            pending: _,
            watches,
            index: _,
            endings,
        } = self;
        WatchEnds {
            endings: close_each(watches, seen, endings),
        }
    }
}
