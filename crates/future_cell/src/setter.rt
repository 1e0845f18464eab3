//! The half of a cell that sets its value, and what it becomes.
ghost use Rattle.std.specs.Prelude.{◌≡◌, [], Some};
ghost use Rattle.future_cell.specs.declared.stage.SetterStage.TheVariants.{Unset};
ghost use Rattle.future_cell.specs.declared.stage.View.TheVariants.{Sets};
ghost use Rattle.future_cell.specs.Plays.{ran_in};

use crate::callback::Call;
use crate::half::Half;

/// The half of a cell that sets its value, once. It can move to another thread where the value and the callback can.
#[derive(Drop)]
pub struct Setter<V, C> {
    pub(crate) half: Half<V, C>,
    ghost unset: { half.seat.me ≡ (Sets Unset, []) },
}

/// What a setter becomes once the value is set. With the waiter of its cell it settles the cell.
#[derive(Drop)]
pub struct Receipt<V, C> {
    pub(crate) half: Half<V, C>,
    pub(crate) ran: bool,
    ghost done: { ran_in half.seat.me.0 ≡ Some ran },
    ghost rests: { half.seat.me.1 ≡ [] },
}

impl<V, C> Setter<V, C> {
    ghost use Rattle.std.specs.Prelude.{◌≡◌, [], Some};
    ghost use Rattle.future_cell.specs.declared.stage.SetterStage.TheVariants.{Unset};
    ghost use Rattle.future_cell.specs.declared.stage.View.TheVariants.{Sets};
    ghost use Rattle.future_cell.specs.Halves.{place_of};
    ghost use Rattle.future_cell.specs.Cells.{setter_cell, receipt_cell, value_set};

    /// Makes the setter of a new cell from its half.
    pub(crate) fn of(half: Half<V, C>) -> Setter<V, C>
        requires { place_of half ≡ (Sets Unset, []) }
        ensures { result.half ≡ half }
    {
        Setter { half }
    }

    /// Sets the value, and then runs the callback if one was parked.
    pub fn set(self, value: V) -> Receipt<V, C>
    where
        C: Call,
        ensures cell { receipt_cell result ≡ setter_cell self }
        ensures value { value_set result ≡ Some value }
    {
        let Setter { mut half } = self;
        if half.publish(value) {
            let callback = half.take_callback();
            callback.run();
            return Receipt { half, ran: true };
        }
        Receipt { half, ran: false }
    }
}

impl<V, C> Receipt<V, C> {
    ghost use Rattle.std.specs.Prelude.{◌≡◌};
    ghost use Rattle.future_cell.specs.Cells.{has_run};

    /// Tells whether `set` ran a callback.
    pub fn ran(&self) -> bool
        ensures { result ≡ has_run self.now }
    {
        self.ran
    }
}
