//! Events on a database in definitions alone: lines that watch a key, clear a key, or give a key a value.
//!
//! Nothing here runs but the types of what is read. `specs/Events.antt` says how a line of an event is read, and what the
//! bytes of such lines come to, a fault included. `proofs/Rows.antt` has lines that were worked out by hand.
#![tactic(auto)]

mod event;

pub use event::{Event, Events};
