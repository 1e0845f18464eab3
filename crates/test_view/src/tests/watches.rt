//! Watches that are cancelled, and the callback of one. Cases have when a watch fires.

use super::key_of;
use future_cell::{Call, Registered, Waiter};
use std::alloc::{AllocError, Global};
use std::sync::Arc;
use std::sync::atomic::{AtomicU64, Ordering};
use std::test::Fail;
use version_store::{Change, Changes, Store};
use watch_core::{MOST_PENDING, WatchEnd, WatchEnds, Watches, events_settle_watches};

// A callback that counts how often it ran.
#[derive(Drop)]
struct Raise {
    mark: Arc<AtomicU64, Global>,
}

impl Call for Raise {
    fn run(self) {
        self.mark.fetch_add(1, Ordering::SeqCst);
    }
}

type Awaited = Waiter<WatchEnd, Raise>;

// The change that gives `k` a value.
fn changes_of(alloc: Global) -> Result<Changes, AllocError> {
    let (key, value) = (key_of(alloc, b"k")?, key_of(alloc, b"a")?);
    let mut changes = Changes::new(alloc);
    changes.push(Change {
        key,
        value: Some(value),
    })?;
    Ok(changes)
}

// Installs that change where a version is left, and each watch looks at it.
fn change(
    changes: Changes,
    store: &mut Store,
    watches: &mut Watches<Raise>,
) -> Result<(), AllocError> {
    store.reserve(&changes)?;
    if watches.seen() == store.last() && store.last() < i64::MAX as u64 {
        store.install(changes);
        watches.committed(store);
    }
    Ok(())
}

// Watches `k` where a watch is left.
fn watch(store: &Store, watches: &mut Watches<Raise>) -> Result<Option<Awaited>, AllocError> {
    if watches.seen() == store.last() && watches.pending() < MOST_PENDING {
        let (_number, waiter) = watches.watch(store, b"k")?;
        return Ok(Some(waiter));
    }
    Ok(None)
}

// How a watch ended.
fn end_of(waiter: Option<Awaited>) -> Option<WatchEnd> {
    match waiter {
        Some(mut waiter) => waiter.peek().copied(),
        None => None,
    }
}

// What was answered to a cancel of a watch that was pending, of the same watch again, of one that fired and of none, and how both
// ended.
type Cancels = ([bool; 4], [Option<WatchEnd>; 2]);

fn cancels(alloc: Global) -> Result<Cancels, AllocError> {
    let changes = changes_of(alloc)?;
    let mut store = Store::new(alloc);
    let mut watches = Watches::new(alloc, &store);
    let first = watch(&store, &mut watches)?;
    let second = watch(&store, &mut watches)?;
    let pending = watches.cancel(0);
    change(changes, &mut store, &mut watches)?;
    let answers = [
        pending,
        watches.cancel(0),
        watches.cancel(1),
        watches.cancel(2),
    ];
    Ok((answers, [end_of(first), end_of(second)]))
}

#[test]
fn only_a_pending_watch_is_cancelled(rt: HostRuntime) -> Result<(), Fail> {
    let ends = [Some(WatchEnd::Cancelled), Some(WatchEnd::Changed(1))];
    assert_eq!(rt; cancels(rt.alloc())?, ([true, false, false, false], ends));
    Ok(())
}

// How many endings there are, and the number of the second.
fn counted(ends: WatchEnds<Raise>) -> (usize, Option<u64>) {
    let second = if ends.len() > 1 {
        Some(ends.get(1).number)
    } else {
        None
    };
    (ends.into_vec().len(), second)
}

// Whether no watch has no ending.
fn has_none(alloc: Global) -> bool {
    let store = Store::new(alloc);
    let none: Watches<Raise> = Watches::new(alloc, &store);
    none.close().is_empty()
}

// How many endings two watches have, and the number of the second.
fn endings(alloc: Global) -> Result<(usize, Option<u64>), AllocError> {
    let store = Store::new(alloc);
    let mut watches = Watches::new(alloc, &store);
    watch(&store, &mut watches)?;
    watch(&store, &mut watches)?;
    Ok(counted(watches.close()))
}

// Waits by a callback, where none is registered yet.
fn wait_by(waiter: &mut Awaited, raise: Raise) {
    if waiter.registered() == Registered::No {
        waiter.on_ready(raise);
    }
}

fn wait_if_any(waiter: Option<Awaited>, raise: Raise) {
    if let Some(mut waiter) = waiter {
        wait_by(&mut waiter, raise);
    }
}

// How often a callback ran before the key changed, and after.
fn raised(alloc: Global) -> Result<(u64, u64), AllocError> {
    let changes = changes_of(alloc)?;
    let mark = Arc::new(alloc, AtomicU64::new(0))?;
    let raise = Raise {
        mark: Arc::try_clone(&mark)?,
    };
    let mut store = Store::new(alloc);
    let mut watches = Watches::new(alloc, &store);
    wait_if_any(watch(&store, &mut watches)?, raise);
    let before = mark.load(Ordering::SeqCst);
    change(changes, &mut store, &mut watches)?;
    Ok((before, mark.load(Ordering::SeqCst)))
}

#[test]
fn each_watch_has_its_ending_and_runs_its_callback(rt: HostRuntime) -> Result<(), Fail> {
    assert!(rt; has_none(rt.alloc()));
    assert_eq!(rt; endings(rt.alloc())?, (2, Some(1)));
    assert_eq!(rt; raised(rt.alloc())?, (0, 1));
    events_settle_watches();
    Ok(())
}
