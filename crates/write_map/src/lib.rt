//! The pending mutations of a transaction: what each key has under them, and where that changes.
//!
//! Contracts see `Pending`: the list of the mutations, in their order, and the boundaries, between which all keys are alike
//! (`specs/Pending.antt`). What a key has under the list is `state_under` of `model_database`; that of the reads is `unreadable`
//! there. Each write adds one mutation at the end of the list, or leaves all as it was.
//!
//! Beside the list lies a map of boundaries, each with the state of the keys from it up to the next boundary. It says nothing that
//! the list doesn't say; `specs/Levels.antt` ties the two.
#![tactic(auto)]

mod changing;
mod edits;
mod filling;
mod level;
mod mutation;
mod stamping;
mod state;
mod write_map;

pub use edits::{AtomicEdit, AtomicEdits};
pub use mutation::Mutation;
pub use state::KeyState;
pub use write_map::WriteMap;
