//! A store, the watches on it, and their waiters, while events happen.

ghost use Rattle.std.specs.Prelude.{◌≡◌, ℕ, List, ◌+◌, ◌^◌, ◌<◌, ◌∷◌, ◌++◌, [], map, IfOk, OnOk, Some, None};
ghost use Rattle.model_events.specs.declared.event.Event.{Event};
ghost use Rattle.future_cell.specs.Cells.{receipt_cell, value_set, waiter_cell};
ghost use Rattle.version_store.specs.Versions.{at, last_of};
ghost use Rattle.watch_core.specs.Watching.{pending_count, AreCurrent};
ghost use Rattle.text_commands.specs.Firings.{history_of, made_from, AreFirings};
ghost use Rattle.text_commands.specs.Scenes.{firing_of, HasCommitted, HasRoomFor, HasWatched, StandsAt};

use future_cell::{Call, Waiter, settle};
use key_bytes::{Key, Pair};
use model_events::Event;
use std::alloc::{AllocError, Global};
use std::slice;
use version_store::{Change, Changes, Store};
use watch_core::{Ending, WatchEnd, Watches};

/// The callback of a watch that wakes nobody.
#[derive(Drop)]
pub(crate) struct Quiet;

impl Call for Quiet {
    fn run(self) {}
}

/// A store, the watches on it, and the waiter of each watch, in the order of their numbers.
#[derive(Drop)]
pub(crate) struct Scene {
    alloc: Global,
    store: Store,
    watches: Watches<Quiet>,
    waiters: Vec<Waiter<WatchEnd, Quiet>>,
}

impl Scene {
    /// Returns the empty store at version 0, without a watch.
    pub(crate) fn new(alloc: Global) -> Scene
        ensures { (events : List Event) → StandsAt events [] result }
    {
        let store = Store::new(alloc);
        let watches = Watches::new(alloc, &store);
        Scene {
            alloc,
            store,
            watches,
            waiters: Vec::new(alloc),
        }
    }

    /// Lets an event happen: a key is watched, or a commit makes the next version.
    pub(crate) fn happen(&mut self, event: &Event) -> Result<(), AllocError>
        requires room { HasRoomFor event.now self.old }
        requires current { self.old.watches.seen ≡ last_of self.old.store }
        requires values { AreCurrent (at self.old.store (last_of self.old.store)) self.old.watches.watches }
        ensures { (events front rest : List Event) → events ≡ front ++ event.now ∷ rest → StandsAt events front self.old
            → OnOk result (StandsAt events (front ++ event.now ∷ []) self.new) }
    {
        match event {
            Event::Watch(key) => self.watch(key),
            Event::Clear(key) => self.commit(removal(key)?),
            Event::Put(pair) => self.commit(setting(pair)?),
        }
    }

    // Watches a key.
    fn watch(&mut self, key: &Key) -> Result<(), AllocError>
        requires few { pending_count self.old.watches.watches < 10000 }
        requires current { self.old.watches.seen ≡ last_of self.old.store }
        ensures { OnOk result (HasWatched key.now self.old self.new) }
    {
        let (_number, waiter) = self.watches.watch(&self.store, key.as_slice())?;
        self.waiters.push(waiter)?;
        Ok(())
    }

    // Commits a change, and has the watches on its key look at its version.
    fn commit(&mut self, change: Change) -> Result<(), AllocError>
        requires next { last_of self.old.store + 1 < 2 ^ 63 }
        requires current { self.old.watches.seen ≡ last_of self.old.store }
        requires values { AreCurrent (at self.old.store (last_of self.old.store)) self.old.watches.watches }
        ensures { OnOk result (HasCommitted change.key change.value self.old self.new) }
    {
        let key = change.key.copy()?;
        let mut changes = Changes::new(self.alloc);
        changes.push(change)?;
        self.store.reserve(&changes)?;
        self.store.install(changes);
        self.watches
            .committed_keys(&self.store, slice::from_ref(&key));
        Ok(())
    }

    /// Cancels what is pending, and returns how each watch ended, in the order of their numbers.
    pub(crate) fn close(self) -> Result<Vec<WatchEnd>, AllocError>
        requires { map waiter_cell self.waiters.items ≡ map (λ w. w.cell) self.watches.watches }
        ensures { (events : List Event) → StandsAt events events self
            → IfOk result (λ ends. AreFirings (history_of events) (made_from 0 events) (map firing_of ends.items)) }
    {
        let Scene {
            alloc,
            store: _,
            watches,
            waiters,
        } = self;
        settle_each(alloc, watches.close().into_vec(), waiters)
    }
}

// The change that removes a key.
fn removal(key: &Key) -> Result<Change, AllocError>
    ensures { IfOk result (λ change. (change.key ≡ key.now) × (change.value ≡ None)) }
{
    let key = key.copy()?;
    Ok(Change { key, value: None })
}

// The change that gives a key its value.
fn setting(pair: &Pair) -> Result<Change, AllocError>
    ensures { IfOk result (λ change. (change.key ≡ pair.now.key) × (change.value ≡ Some pair.now.value)) }
{
    let key = pair.key.copy()?;
    let value = Some(pair.value.copy()?);
    Ok(Change { key, value })
}

// Settles each ending with its waiter, and returns the values that were set.
fn settle_each(
    alloc: Global,
    endings: Vec<Ending<Quiet>>,
    waiters: Vec<Waiter<WatchEnd, Quiet>>,
) -> Result<Vec<WatchEnd>, AllocError>
    requires { map (λ ending. receipt_cell ending.receipt) endings.items ≡ map waiter_cell waiters.items }
    ensures { IfOk result (λ ends. map Some ends.items ≡ map (λ ending. value_set ending.receipt) endings.items) }
{
    let mut ends = Vec::with_capacity(alloc, waiters.len())?;
    for (ending, waiter) in endings.into_iter().zip(waiters) {
        ends.push(settle(ending.receipt, waiter).into_value())?;
    }
    Ok(ends)
}
