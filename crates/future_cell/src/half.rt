//! A half's hold on its cell, and the steps that it makes.
ghost use Rattle.std.specs.Prelude.{◌≡◌};
ghost use Rattle.std.specs.Arc.{arc_value};
ghost use Rattle.future_cell.specs.Rule.{IsSized};

use crate::rule::{Cell, CellSeat, Finish, Keep, Look, Park, Publish, Reach, Reserve, Restore};
use crate::slot::{callback_of, expect_empty, value_of};
use crate::stage::Item;
use crate::word::{EMPTY, PARKED, SET};
use std::alloc::Global;
use std::sync::Arc;

/// A hold on a cell and the seat of one half at its table. Contracts see the cell and what the seat knows and holds.
#[derive(Drop)]
pub struct Half<V, C> {
    pub cell: Arc<Cell<V, C>, Global>,
    pub seat: CellSeat<V, C>,
    ghost sized: { IsSized (arc_value cell).shared.table_id },
    ghost seated: { seat.table_id ≡ (arc_value cell).shared.table_id },
}

impl<V, C> Half<V, C> {
    ghost use Rattle.std.specs.Prelude.{◌≡◌, [], ◌∷◌, None, Some, MatchBool, MatchOption, MatchResult, true, false};
    ghost use Rattle.future_cell.specs.declared.stage.Item.TheVariants.{Value, Callback};
    ghost use Rattle.future_cell.specs.declared.stage.SetterStage.TheVariants.{Unset, Running, Finished};
    ghost use Rattle.future_cell.specs.declared.stage.Known.TheVariants.{Unseen};
    ghost use Rattle.future_cell.specs.declared.stage.CallbackStage.TheVariants.{Unregistered};
    ghost use Rattle.future_cell.specs.declared.stage.View.TheVariants.{Sets, Waits};
    ghost use Rattle.future_cell.specs.Plays.{setter_in, waiter_in, value_out, ran_in, Saw, Missed, Fetched, Laid, Held, HasBack};
    ghost use Rattle.future_cell.specs.Halves.{cell_of, place_of};

    /// Puts the value out. Whether a callback was parked: slot 1 is then in hand.
    pub fn publish(&mut self, value: V) -> bool
        requires { place_of self.old ≡ (Sets Unset, []) }
        ensures cell { cell_of self.new ≡ cell_of self.old }
        ensures place { MatchBool result ((c : C) × (place_of self.new ≡ (Sets (Running value), (1, Some (Callback c)) ∷ []))) (place_of self.new ≡ (Sets (Finished value false), [])) }
    {
        let shared = &self.cell.shared;
        shared.load::<Reach>(&mut self.seat, 0);
        expect_empty(shared.exchange(&mut self.seat, 0, Some(Item::Value(value))));
        shared.swap::<Publish>(&mut self.seat, 0, SET) == PARKED
    }

    /// Takes the parked callback.
    pub fn take_callback(&mut self) -> C
        requires { (v : V) × ((c : C) × (place_of self.old ≡ (Sets (Running v), (1, Some (Callback c)) ∷ []))) }
        ensures cell { cell_of self.new ≡ cell_of self.old }
        ensures place { (value_out (setter_in (place_of self.new).0) ≡ value_out (setter_in (place_of self.old).0)) × (ran_in (place_of self.new).0 ≡ Some true) × ((place_of self.new).1 ≡ []) }
    {
        let shared = &self.cell.shared;
        let callback = callback_of(shared.exchange(&mut self.seat, 1, None));
        shared.load::<Finish>(&mut self.seat, 0);
        callback
    }

    // Looks at the word. Where the value is there, slot 0 is in hand.
    fn look(&mut self) -> bool
        requires waits { place_of self.old ≡ (Waits (waiter_in (place_of self.old).0), []) }
        requires unseen { (waiter_in (place_of self.old).0).known ≡ Unseen }
        ensures cell { cell_of self.new ≡ cell_of self.old }
        ensures place { let w = waiter_in (place_of self.old).0 in MatchBool result ((v : V) × Saw w v (place_of self.new)) (Missed w (place_of self.new)) }
    {
        let shared = &self.cell.shared;
        shared.load::<Look>(&mut self.seat, 0) == SET
    }

    // Takes the value out of slot 0.
    fn take_value(&mut self) -> V
        requires { (w : _) × ((v : V) × Saw w v (place_of self.old)) }
        ensures cell { cell_of self.new ≡ cell_of self.old }
        ensures place { (w : _) (v : V) → Saw w v (place_of self.old) → (result ≡ v) × Fetched w v (place_of self.new) }
    {
        let shared = &self.cell.shared;
        let value = value_of(shared.exchange(&mut self.seat, 0, None));
        shared.load::<Keep>(&mut self.seat, 0);
        value
    }

    /// Looks at the word once, and takes the value if it is there.
    pub fn fetch(&mut self) -> Option<V>
        requires waits { place_of self.old ≡ (Waits (waiter_in (place_of self.old).0), []) }
        requires unseen { (waiter_in (place_of self.old).0).known ≡ Unseen }
        ensures cell { cell_of self.new ≡ cell_of self.old }
        ensures place { let w = waiter_in (place_of self.old).0 in MatchOption result (Missed w (place_of self.new)) (λ v. Fetched w v (place_of self.new)) }
    {
        if !self.look() {
            return None;
        }
        Some(self.take_value())
    }

    // Parks the callback. Where the value is there, slot 1 is still in hand.
    fn lay(&mut self, callback: C) -> bool
        requires waits { place_of self.old ≡ (Waits (waiter_in (place_of self.old).0), []) }
        requires unregistered { (waiter_in (place_of self.old).0).callback ≡ Unregistered }
        ensures cell { cell_of self.new ≡ cell_of self.old }
        ensures place { let w = waiter_in (place_of self.old).0 in MatchBool result (Laid w callback (place_of self.new)) (Held w callback (place_of self.new)) }
    {
        let shared = &self.cell.shared;
        shared.load::<Reserve>(&mut self.seat, 0);
        expect_empty(shared.exchange(&mut self.seat, 1, Some(Item::Callback(callback))));
        shared.compare_exchange::<Park>(&mut self.seat, 0, EMPTY, PARKED) == EMPTY
    }

    // Takes the callback back out of slot 1.
    fn take_back(&mut self) -> C
        requires { (w : _) × ((c : C) × Held w c (place_of self.old)) }
        ensures cell { cell_of self.new ≡ cell_of self.old }
        ensures place { (w : _) (c : C) → Held w c (place_of self.old) → (result ≡ c) × HasBack w (place_of self.new) }
    {
        let shared = &self.cell.shared;
        let callback = callback_of(shared.exchange(&mut self.seat, 1, None));
        shared.load::<Restore>(&mut self.seat, 0);
        callback
    }

    /// Parks the callback, or hands it back where the value is there.
    pub fn park(&mut self, callback: C) -> Result<(), C>
        requires waits { place_of self.old ≡ (Waits (waiter_in (place_of self.old).0), []) }
        requires unregistered { (waiter_in (place_of self.old).0).callback ≡ Unregistered }
        ensures cell { cell_of self.new ≡ cell_of self.old }
        ensures place { let w = waiter_in (place_of self.old).0 in MatchResult result (λ _. Laid w callback (place_of self.new)) (λ c. (c ≡ callback) × HasBack w (place_of self.new)) }
    {
        if self.lay(callback) {
            return Ok(());
        }
        Err(self.take_back())
    }
}
