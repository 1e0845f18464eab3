//! A cell is made as a pair of halves, and settled from both.
ghost use Rattle.std.specs.Prelude.{◌≡◌, Some, None, IfOk, IfSome};
ghost use Rattle.future_cell.specs.declared.word.TheConstants.{EMPTY};
ghost use Rattle.future_cell.specs.declared.callback.Registered.TheVariants.{No};
ghost use Rattle.future_cell.specs.Registering.{was_parked, run_count};
ghost use Rattle.future_cell.specs.Cells.{setter_cell, receipt_cell, waiter_cell, value_set, has_run, shown, registration, looks, last_found, settled_value, settled_runs};

use crate::callback::{Call, Registered};
use crate::pairing::{Spent, two_halves};
use crate::setter::{Receipt, Setter};
use crate::waiter::Waiter;
use std::alloc::{AllocError, Global};
use std::mem::forget;

/// The value of a cell that was settled, and how many callbacks ran.
#[derive(Drop)]
pub struct Settled<V> {
    value: V,
    ran: u8,
}

/// Makes a new cell: returns its setter and its waiter. It takes all the memory of the cell, and where there is
/// not enough it answers `AllocError` and keeps none.
pub fn pair<V, C: Call>(alloc: Global) -> Result<(Setter<V, C>, Waiter<V, C>), AllocError>
    ensures cell { IfOk result (λ halves. setter_cell halves.0 ≡ waiter_cell halves.1) }
    ensures fresh { IfOk result (λ halves. (shown halves.1 ≡ None) × (registration halves.1 ≡ No) × (looks halves.1 ≡ 0) × (last_found halves.1 ≡ EMPTY)) }
{
    let (sets, waits) = two_halves(alloc)?;
    Ok((Setter::of(sets), Waiter::of(waits)))
}

/// Ends a cell: returns the value that was set and how many callbacks ran, and gives the cell's memory back.
pub fn settle<V, C>(receipt: Receipt<V, C>, waiter: Waiter<V, C>) -> Settled<V>
    requires { receipt_cell receipt ≡ waiter_cell waiter }
    ensures value { value_set receipt ≡ Some (settled_value result) }
    ensures shown { IfSome (shown waiter) (λ v. v ≡ settled_value result) }
    ensures ran { settled_runs result ≡ run_count (registration waiter) }
    ensures receipt { has_run receipt ≡ was_parked (registration waiter) }
{
    let (settled, spent) = join(receipt, waiter);
    spent.free();
    settled
}

/// Ends a cell as `settle` does, but leaves its memory taken, so that no block of it has to be looked for: for a program that
/// settles many cells and is about to end.
pub fn settle_in_place<V: Drop, C: Drop>(receipt: Receipt<V, C>, waiter: Waiter<V, C>) -> Settled<V>
    requires { receipt_cell receipt ≡ waiter_cell waiter }
    ensures value { value_set receipt ≡ Some (settled_value result) }
    ensures shown { IfSome (shown waiter) (λ v. v ≡ settled_value result) }
    ensures ran { settled_runs result ≡ run_count (registration waiter) }
    ensures receipt { has_run receipt ≡ was_parked (registration waiter) }
{
    let (settled, spent) = join(receipt, waiter);
    forget(spent);
    settled
}

// Joins the halves of a cell, and takes its value.
fn join<V, C>(receipt: Receipt<V, C>, waiter: Waiter<V, C>) -> (Settled<V>, Spent<V, C>)
    requires { receipt_cell receipt ≡ waiter_cell waiter }
    ensures value { value_set receipt ≡ Some (settled_value result.0) }
    ensures shown { IfSome (shown waiter) (λ v. v ≡ settled_value result.0) }
    ensures ran { settled_runs result.0 ≡ run_count (registration waiter) }
    ensures receipt { has_run receipt ≡ was_parked (registration waiter) }
{
    let Receipt { half: sets, ran: _ } = receipt;
    let Waiter {
        half: waits,
        value,
        registered,
    } = waiter;
    let (value, spent) = sets.join(waits, value);
    let settled = Settled {
        value,
        ran: count_of(registered),
    };
    (settled, spent)
}

// How many callbacks ran.
fn count_of(registered: Registered) -> u8
    ensures { result ≡ run_count registered }
{
    match registered {
        Registered::No => 0,
        Registered::Parked | Registered::RanHere => 1,
    }
}

impl<V> Settled<V> {
    /// Returns the value that was set, which every peek showed.
    pub fn value(&self) -> &V
        ensures { result.now ≡ settled_value self.now }
    {
        &self.value
    }

    /// Returns the value that was set, to keep.
    pub fn into_value(self) -> V
        ensures { result ≡ settled_value self }
    {
        let Settled { value, ran: _ } = self;
        value
    }

    /// Returns how many callbacks ran: 1 where one was registered, else 0.
    pub fn ran(&self) -> u8
        ensures { result ≡ settled_runs self.now }
    {
        self.ran
    }
}
