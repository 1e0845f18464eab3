//! A cell's table from its making to its end.
ghost use Rattle.std.specs.Prelude.{◌≡◌, Bool, true, [], Some, IfOk};
ghost use Rattle.std.specs.Arc.{arc_value};
ghost use Rattle.future_cell.specs.declared.stage.SetterStage.TheVariants.{Unset, Finished};
ghost use Rattle.future_cell.specs.declared.stage.View.TheVariants.{Sets, Waits, Meets, Over};
ghost use Rattle.future_cell.specs.Rule.{IsSized};
ghost use Rattle.future_cell.specs.Plays.{setter_in, waiter_in, value_out, known_of, is_settled, is_resting, fresh, Settles};
ghost use Rattle.future_cell.specs.Halves.{cell_of, place_of};

use crate::half::Half;
use crate::rule::{Cell, CellSeat, Close, Double, Empty, Meet, Part};
use crate::slot::{expect_empty, value_of};
use crate::word::EMPTY;
use atomic_table::Table;
use std::alloc::{AllocError, AllocFailed, Global};
use std::sync::Arc;

// Gives the memory of a table back whose slots are empty.
fn free_table<V, C>(table: Cell<V, C>, seat: CellSeat<V, C>)
    requires table { (seat.table_id ≡ table.shared.table_id) × IsSized table.shared.table_id }
    requires rests { is_resting seat.me.0 ≡ true }
{
    let mut closed = table.close_with(seat);
    expect_empty(closed.take(0));
    expect_empty(closed.take(1));
    closed.free();
}

/// Makes a new cell: returns the setter's half and the waiter's. It takes all the memory of the cell, and where
/// there is not enough it answers `AllocError` and keeps none.
pub fn two_halves<V, C>(alloc: Global) -> Result<(Half<V, C>, Half<V, C>), AllocError>
    ensures { IfOk result (λ halves. (cell_of halves.0 ≡ cell_of halves.1) × (place_of halves.0 ≡ (Sets Unset, [])) × (place_of halves.1 ≡ (Waits fresh, []))) }
{
    let (table, mut seat): (Cell<V, C>, CellSeat<V, C>) = Table::vacant(alloc, &[EMPTY], 2, &())?;
    let cell = match Arc::new(alloc, table) {
        Ok(cell) => cell,
        Err(AllocFailed { value }) => {
            free_table(value, seat);
            return Err(AllocError);
        }
    };
    let Ok(twin) = Arc::try_clone(&cell) else {
        Half { cell, seat }.free();
        return Err(AllocError);
    };
    let other = cell.shared.split_seat::<Part>(&mut seat);
    Ok((
        Half { cell, seat },
        Half {
            cell: twin,
            seat: other,
        },
    ))
}

impl<V, C> Half<V, C> {
    // Gives up a share of a table whose slots are empty. The last one gives its memory back.
    fn free(self)
        requires { is_resting (place_of self).0 ≡ true }
    {
        let Half { cell, seat } = self;
        if let Some(table) = Arc::into_inner(cell) {
            free_table(table, seat);
        }
    }

    // Takes the value of a joined seat, if the waiter did not, and leaves both slots empty.
    fn empty(&mut self, kept: Option<V>) -> V
        requires joined { (v : V) × ((ran : Bool) × (place_of self.old ≡ (Meets (Finished v ran) (waiter_in (place_of self.old).0), []))) }
        requires known { (waiter_in (place_of self.old).0).known ≡ known_of kept }
        requires settled { is_settled (waiter_in (place_of self.old).0).callback ≡ true }
        ensures cell { cell_of self.new ≡ cell_of self.old }
        ensures over { place_of self.new ≡ (Over, []) }
        ensures value { value_out (setter_in (place_of self.old).0) ≡ Some result }
        ensures agrees { Settles (setter_in (place_of self.old).0) (waiter_in (place_of self.old).0) }
    {
        let shared = &self.cell.shared;
        match kept {
            Some(value) => {
                shared.load::<Close>(&mut self.seat, 0);
                value
            }
            None => {
                shared.load::<Empty>(&mut self.seat, 0);
                let value = value_of(shared.exchange(&mut self.seat, 0, None));
                shared.load::<Close>(&mut self.seat, 0);
                value
            }
        }
    }

    /// Joins the setter's half and the waiter's, which kept the value if it saw it. Returns the value, and the cell that is left.
    pub fn join(self, other: Half<V, C>, kept: Option<V>) -> (V, Spent<V, C>)
        requires cell { cell_of self ≡ cell_of other }
        requires set { (v : V) × ((ran : Bool) × (place_of self ≡ (Sets (Finished v ran), []))) }
        requires waits { place_of other ≡ (Waits (waiter_in (place_of other).0), []) }
        requires known { (waiter_in (place_of other).0).known ≡ known_of kept }
        requires settled { is_settled (waiter_in (place_of other).0).callback ≡ true }
        ensures value { value_out (setter_in (place_of self).0) ≡ Some result.0 }
        ensures agrees { Settles (setter_in (place_of self).0) (waiter_in (place_of other).0) }
    {
        let Half { cell, mut seat } = self;
        let Half {
            cell: twin,
            seat: other,
        } = other;
        cell.shared.join_seat::<Meet>(&mut seat, other);
        let mut joined = Half { cell, seat };
        let value = joined.empty(kept);
        (value, Spent { joined, twin })
    }

    // A further seat at a table whose slots are empty for good.
    fn split_over(&mut self) -> CellSeat<V, C>
        requires { place_of self.old ≡ (Over, []) }
        ensures kept { (cell_of self.new ≡ cell_of self.old) × (place_of self.new ≡ (Over, [])) }
        ensures seat { (result.table_id ≡ cell_of self.old) × (result.me ≡ (Over, [])) }
    {
        let shared = &self.cell.shared;
        shared.split_seat::<Double>(&mut self.seat)
    }
}

/// A cell whose value was taken, and whose memory is still there: both halves' holds on it, and the one seat that is left.
#[derive(Drop)]
pub struct Spent<V, C> {
    joined: Half<V, C>,
    twin: Arc<Cell<V, C>, Global>,
    ghost over: { place_of joined ≡ (Over, []) },
    ghost sized: { IsSized (arc_value twin).shared.table_id },
    ghost same: { cell_of joined ≡ (arc_value twin).shared.table_id },
}

impl<V, C> Spent<V, C> {
    /// Gives the cell's memory back.
    pub fn free(self) {
        let Spent { mut joined, twin } = self;
        let seat = joined.split_over();
        joined.free();
        Half { cell: twin, seat }.free();
    }
}
