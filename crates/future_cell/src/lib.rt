//! Set-once futures with one callback, without a lock.
//!
//! `pair` makes a cell as two halves, which can go to two threads. The `Setter` sets the value, once, and becomes a
//! `Receipt`. The `Waiter` looks for the value by `peek`, registers a callback by `on_ready`, or sleeps by `wait`
//! until the value is there. `settle` takes the receipt and the waiter of one cell and gives the value:
//!
//! ```text
//! let (setter, mut waiter) = pair::<u64, Wake>(alloc)?;
//! let (wake, sleeper) = wakes(alloc)?;
//! // in one thread:
//! let receipt = setter.set(42);
//! // in another:
//! let value = waiter.wait(rt, wake, sleeper);
//! // in one thread again:
//! let settled = settle(receipt, waiter);
//! ```
//!
//! `test_threads/src/tests/cells.rt` has this caller whole, as `doubled`, with the clause that the answer is the one that was
//! computed.
//!
//! The contracts speak in the words of `specs/Cells.antt`:
//!
//! - `setter_cell`, `receipt_cell` and `waiter_cell` say to which cell a value belongs. No call tells it when it runs.
//! - `value_set` is the value that was set, `has_run` whether `set` ran a callback.
//! - `shown` is the value that the waiter showed, `registration` what became of its callback. `looks` counts its looks at
//!   the cell's word, and `last_found` is the word that it found last: `EMPTY`, `PARKED` or `SET`.
//!
//! What they promise:
//!
//! - A cell has one value for good. `peek` shows the value that was shown before. It answers None only where its own look
//!   at the word did not find `SET`, and never once `on_ready` answered `RanHere`.
//! - `on_ready` answers `Parked` exactly where its one look found `EMPTY`, and `RanHere` exactly where it found `SET`.
//! - `settle` gives the value that was set, which is the value that was shown. The receipt's `ran` is true exactly where
//!   `on_ready` answered `Parked`. The settled `ran` is 1 where a callback was registered, and 0 where none was.
//!   `settle_in_place` says the same, and keeps the cell's memory taken.
//! - After `wait` the value is shown, and a callback is registered. After `wait_in` the value is shown.
//! - Only `pair` and `wakes` can fail, for want of memory. `wait_in` takes memory too, and goes on looking where none is to be had.
//!
//! None of `set`, `on_ready`, `peek` and `settle` takes a handle to wait by, so none of them takes a lock.
//!
//! A callback is handed over by value and `Call::run` uses it up, so it runs at most once. Neither the value nor the
//! callback has to be `Drop` but for `settle_in_place`, and no code here can throw away one that is not. No clause can say that `run` was called:
//! that a parked callback runs inside `set`, and any other one inside `on_ready`, is tested, and so is that a wake wakes
//! the sleeper it was made with. Which word a look found is told by the step of that look alone, so it is also tested that
//! `peek` shows a value which was set. Nothing is said of progress, or of when a sleeping thread wakes.
//!
//! The value and the callback are handed over through two slots of an `atomic_table`, by one word. `specs/Rule.antt` has
//! the rule of the table: its word, its slots and what each half knows, computed from how far the two halves are.
#![tactic(auto)]

mod callback;
mod half;
mod pairing;
mod rule;
mod setter;
mod settling;
mod slot;
mod stage;
mod waiter;
mod wake;
mod word;

pub use callback::{Call, Ready, Registered};
pub use setter::{Receipt, Setter};
pub use settling::{Settled, pair, settle, settle_in_place};
pub use waiter::Waiter;
pub use wake::{Sleeper, Wake, wakes};
pub use word::{EMPTY, PARKED, SET};
