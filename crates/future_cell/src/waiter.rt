//! The half of a cell that waits for its value.
ghost use Rattle.std.specs.Prelude.{◌≡◌, [], Some};
ghost use Rattle.future_cell.specs.declared.stage.View.TheVariants.{Waits};
ghost use Rattle.future_cell.specs.Plays.{waiter_in, known_of};
ghost use Rattle.future_cell.specs.Registering.{registered_in};

use crate::callback::{Call, Ready, Registered};
use crate::half::Half;
use crate::slot::refill;

/// The half of a cell that waits for its value. It can move to another thread where the value and the callback can.
#[derive(Drop)]
pub struct Waiter<V, C> {
    pub(crate) half: Half<V, C>,
    pub(crate) value: Option<V>,
    pub(crate) registered: Registered,
    ghost waits: { half.seat.me ≡ (Waits (waiter_in half.seat.me.0), []) },
    ghost knows: { (waiter_in half.seat.me.0).known ≡ known_of value },
    ghost stage: { registered_in (waiter_in half.seat.me.0).callback ≡ Some registered },
}

impl<V, C> Waiter<V, C> {
    ghost use Rattle.std.specs.Prelude.{◌≡◌, ◌+◌, [], Some, None, IfNone, IsSome, MatchOption, ⊤};
    ghost use Rattle.std.specs.Borrow.{sem};
    ghost use mathlib.Core.Option.{none};
    ghost use denote.Follow.{follows_so};
    ghost use Rattle.future_cell.specs.contracts.waiter.Waiter.{the_row};
    ghost use Rattle.future_cell.specs.declared.stage.View.TheVariants.{Waits};
    ghost use Rattle.future_cell.specs.declared.callback.Registered.TheVariants.{No};
    ghost use Rattle.future_cell.specs.Plays.{fresh};
    ghost use Rattle.future_cell.specs.Registering.{registered_by, word_found};
    ghost use Rattle.future_cell.specs.Halves.{place_of};
    ghost use Rattle.future_cell.specs.Cells.{waiter_cell, shown, registration, looks, last_found, Peeked, NotYet};

    /// Makes the waiter of a new cell from its half: it has shown no value and registered no callback.
    pub(crate) fn of(half: Half<V, C>) -> Waiter<V, C>
        requires { place_of half ≡ (Waits fresh, []) }
        ensures { (result.half ≡ half) × (result.value ≡ None) × (result.registered ≡ No) }
    {
        Waiter {
            half,
            value: None,
            registered: Registered::No,
        }
    }

    /// Shows the value, if it is there. What it showed once it shows for good. None says that the value was not
    /// there when this call looked.
    pub fn peek(&mut self) -> Option<&V>
        ensures* after { sem 𝓛 (follows_so (the_row V.row C.row) (the_row V.row C.row) self.entry.ghost_name none (λ _ _. ⊤) (λ n. Peeked self.old n × MatchOption result (NotYet self.old n) (λ r. shown n ≡ Some r.now))) }
    {
        self.look();
        self.value.as_ref()
    }

    /// Looks for the value, if it was not shown yet: from then on it is shown, or this look at the word did not find `SET`.
    pub(crate) fn look(&mut self)
        ensures peeked { Peeked self.old self.new }
        ensures missed { IfNone (shown self.new) (NotYet self.old self.new) }
    {
        if self.value.is_some() {
            return;
        }
        let seen = self.half.fetch();
        refill(&mut self.value, seen);
    }

    /// The value, which was shown. It changes nothing.
    pub(crate) fn shown_value(&self) -> &V
        requires { IsSome (shown self.now) }
        ensures { shown self.now ≡ Some result.now }
    {
        match &self.value {
            Some(value) => value,
            None => unreachable!(),
        }
    }

    /// Returns what became of the callback.
    pub fn registered(&self) -> Registered
        ensures { result ≡ registration self.now }
    {
        self.registered
    }

    /// Hands the callback over, or runs it here where the value is there.
    pub fn on_ready(&mut self, callback: C) -> Ready
    where
        C: Call,
        requires { registration self.old ≡ No }
        ensures cell { waiter_cell self.new ≡ waiter_cell self.old }
        ensures registered { registration self.new ≡ registered_by result }
        ensures looked { looks self.new ≡ looks self.old + 1 }
        ensures found { last_found self.new ≡ word_found result }
        ensures shown { shown self.new ≡ shown self.old }
    {
        match self.half.park(callback) {
            Ok(()) => {
                self.registered = Registered::Parked;
                Ready::Parked
            }
            Err(callback) => {
                callback.run();
                self.registered = Registered::RanHere;
                Ready::RanHere
            }
        }
    }
}
