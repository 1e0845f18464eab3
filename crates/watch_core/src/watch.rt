//! One watch.

ghost use Rattle.std.specs.Prelude.{◌≡◌, None, Some};
ghost use Rattle.future_cell.specs.Cells.{receipt_cell, setter_cell, value_set};

use crate::ending::WatchEnd;
use future_cell::{Call, Receipt, Setter};
use key_bytes::{Bytes, Key};
use version_store::Store;

/// The end of a watch, and the last version that was seen then.
#[derive(Drop)]
pub(crate) struct Settlement<C> {
    pub(crate) receipt: Receipt<WatchEnd, C>,
    pub(crate) end: WatchEnd,
    pub(crate) seen: u64,
    ghost set: { value_set receipt ≡ Some end },
}

/// A watch: it has its setter until it has ended.
#[derive(Drop)]
pub(crate) struct Watch<C> {
    pub(crate) key: Key,
    pub(crate) made: u64,
    pub(crate) value: Option<Bytes>,
    pub(crate) setter: Option<Setter<WatchEnd, C>>,
    pub(crate) settlement: Option<Settlement<C>>,
}

// Puts the end of a watch where there was none.
fn note<C>(place: &mut Option<Settlement<C>>, settlement: Settlement<C>)
    requires { place.old ≡ None }
    ensures { place.new ≡ Some settlement }
{
    match std::mem::replace(place, Some(settlement)) {
        None => {}
        Some(_) => unreachable!(),
    }
}

// Sets the end of a watch in its cell.
fn set_end<C: Call>(setter: Setter<WatchEnd, C>, end: WatchEnd, seen: u64) -> Settlement<C>
    ensures cell { receipt_cell result.receipt ≡ setter_cell setter }
    ensures end { (result.end ≡ end) × (result.seen ≡ seen) }
{
    Settlement {
        receipt: setter.set(end),
        end,
        seen,
    }
}

impl<C> Watch<C> {
    ghost use Rattle.std.specs.Prelude.{◌≡◌, ◌+◌, if◌then◌else◌};
    ghost use Rattle.std.specs.Option.{option_map};
    ghost use Rattle.future_cell.specs.Cells.{receipt_cell, value_set};
    ghost use Rattle.std.specs.FinMap as finite;
    ghost use Rattle.version_store.specs.Versions.{at, last_of};
    ghost use Rattle.watch_core.specs.declared.ending.WatchEnd.TheVariants.{Changed, Cancelled};
    ghost use Rattle.watch_core.specs.Watching.{is_pending, is_same, after_commit, ended_as};
    ghost use Rattle.watch_core.specs.Watches.{watched_of, IsWhole};

    /// Tells whether the watch is pending.
    pub(crate) fn is_pending(&self) -> bool
        ensures { result ≡ is_pending (watched_of self.now) }
    {
        self.settlement.is_none()
    }

    // Tells whether the key has the value at the last version that it had when the watch was made.
    fn is_same(&self, store: &Store) -> bool
        ensures { result ≡ is_same (finite.get (at store.now (last_of store.now)) self.now.key) self.now.value }
    {
        match store.get_at(&self.key, store.last()) {
            Ok(Some(now)) => match &self.value {
                Some(then) => now == then.as_slice(),
                None => false,
            },
            Ok(None) => self.value.is_none(),
            Err(_) => unreachable!(),
        }
    }

    /// Ends the watch where it is pending, and tells whether it was.
    pub(crate) fn end(&mut self, end: WatchEnd, seen: u64) -> bool
    where
        C: Call,
        requires { IsWhole self.old }
        ensures whole { IsWhole self.new }
        ensures pending { result ≡ is_pending (watched_of self.old) }
        ensures after { watched_of self.new ≡ ended_as end seen (watched_of self.old) }
    {
        match self.setter.take() {
            Some(setter) => {
                note(&mut self.settlement, set_end(setter, end, seen));
                true
            }
            None => false,
        }
    }

    /// Ends the watch as changed where it is pending and the key has another value at the last version than when it was made,
    /// and tells whether it did so.
    pub(crate) fn commit(&mut self, store: &Store) -> bool
    where
        C: Call,
        requires { IsWhole self.old }
        ensures whole { IsWhole self.new }
        ensures after { watched_of self.new
            ≡ after_commit (last_of store.now) (at store.now (last_of store.now)) (watched_of self.old) }
        ensures fired { (if is_pending (watched_of self.new) then 1 else 0) + (if result then 1 else 0)
            ≡ (if is_pending (watched_of self.old) then 1 else 0) }
    {
        if self.is_same(store) {
            return false;
        }
        let last = store.last();
        self.end(WatchEnd::Changed(last), last)
    }

    /// Cancels the watch where it is pending, and returns its receipt.
    pub(crate) fn close(self, seen: u64) -> Receipt<WatchEnd, C>
    where
        C: Call,
        requires { IsWhole self }
        ensures cell { receipt_cell result ≡ (watched_of self).cell }
        ensures end { value_set result ≡ option_map (λ ended. ended.end) (ended_as Cancelled seen (watched_of self)).ended }
    {
        let Watch {
            key: _,
            made: _,
            value: _,
            setter,
            settlement,
        } = self;
        match (setter, settlement) {
            (Some(setter), None) => setter.set(WatchEnd::Cancelled),
            (None, Some(settlement)) => settlement.receipt,
            _ => unreachable!(),
        }
    }
}
