//! The database at each of its versions.
//!
//! A `Store` begins as the empty map at version 0, and each `install` adds one version: the map before, after a list of
//! changes. Contracts see the map at each version by the words of `specs/Versions.antt` (`at`, `last_of`, `oldest_of`,
//! `IsReadyFor` for what was reserved, and `nodes_of` and `later_of` for how much the store holds), and what changes make of a
//! map by those of `specs/Changed.antt`.
//!
//! Each key has the chain of what it was given, the newest first, so a read at a version walks the chain of one key. All of it
//! lies in one slot of a slab: `reserve` searches the tree for each key, and makes room in its slot, and `install` writes at the
//! places found. `prune` drops from the ends of chains what no version that can be read needs.
#![tactic(auto)]

mod chains;
mod changes;
mod fault;
mod loading;
mod merging;
mod pairs_left;
mod pruning;
mod store;
mod values;

pub use changes::{Change, Changes};
pub use fault::VersionFault;
pub use pairs_left::PairsLeft;
pub use store::Store;
