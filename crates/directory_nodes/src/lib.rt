//! What the calls of a directory layer rest on (the directory layer's documentation): the keys of nodes, the version of a layer,
//! entries, paths that are followed from node to node, and the prefixes of directories that are to be created.
//!
//! Each call makes the steps of a course, which is one of the definitions' (`model_directory`, `specs/Steps.antt`,
//! `specs/Calls.antt`), for every setting and transaction at once (`specs/Runs.antt`, `Follows`): those reads and writes in their
//! order, and no other that a transaction keeps, up to the first refusal. It works over any transaction that answers as the definitions say (`Tr`), and any random
//! words. After NoMemory the transaction stands for the one after some first of the steps.
#![tactic(auto)]

mod calls;
mod checking;
mod entries;
mod fault;
mod finding;
mod in_use;
mod nodes;
mod prefixes;

pub use calls::{clear_range, pairs_of, set};
pub use checking::check;
pub use entries::{asked_or_empty, clear_entry, enter, is_within, opened, set_entry};
pub use finding::{Found, find, root};
pub use nodes::Node;
pub use prefixes::take_prefix;
