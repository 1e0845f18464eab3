//! Watches on keys of the database.
//!
//! A watch is made on a key at the last version of a `version_store`, and awaited in a cell of `future_cell`. It fires at the least later
//! version at which the key's value, absence included, differs from the one that it was made at: its cell is then set to
//! `Changed` with that version. A watch that is cancelled before, or still pending at the end, is set to `Cancelled`:
//!
//! ```text
//! let mut watches: Watches<Wake> = Watches::new(alloc, &store);
//! let (number, waiter) = watches.watch(&store, b"k")?;
//! store.reserve(&changes)?;
//! store.install(changes);
//! watches.committed_keys(&store, &keys);  // after each install, with the keys that it changed
//! let ends = watches.close();             // the receipt of each watch, with which its waiter is settled
//! ```
//!
//! Contracts see the last version that was seen and a list of watches, each at the place of its number (`specs/Watching.antt`): its
//! key, the version that it was made at and the value then, its cell, and how it ended, if it has. Each call says what it makes of
//! this list.
//!
//! What they promise of a history, which is the database at each version (`specs/Firing.antt`): where the store agreed with it whenever
//! `watch` and `committed` looked, each watch that has ended did so as `Changed` at w exactly where w is the version at which it fires and
//! had been seen by then, and as `Cancelled` else. The clauses `right` carry this from call to call, and the clause `settled`
//! of `close` says it. `events_settle_watches` has the same as a law over every list of installs, watches and cancels
//! (`specs/Events.antt`).
//!
//! `watch` takes all room that the watch will need, so `committed`, `committed_keys`, `cancel` and `close` take no memory. `committed`
//! looks at each watch that was made. `committed_keys` takes one search for each key that it is given, and one look-up in the store for each
//! watch on it that is pending, or was cancelled since it was last given; it looks at no other watch. So the keys must be those that
//! changed, or more: each pending watch on another key must have its value still. The clauses `current` of the calls, and that of the
//! store's `install`, tell that (`proofs/Changing.antt`).
#![tactic(auto)]

mod ending;
mod index;
mod laws;
mod watch;
mod watches;

pub use ending::{Ending, WatchEnd, WatchEnds};
pub use laws::events_settle_watches;
pub use watches::{MOST_PENDING, Watches};
