//! Three layers over any transaction that answers as the definitions say (`Tr`), each in a subspace of its own: a queue
//! (`push`, `pop`), a map from pairs to counts (`add`, `subtract`, `values`) and a byte string in chunks (`size`, `read`,
//! `write`).
//!
//! Each call makes the reads and writes that its definition lists (`model_recipes`), all of them ordinary, in that order, and no
//! other that a transaction keeps. Its contract says what they make of the queue, the counts or the bytes, and that every key outside
//! the subspace is seen as before. What that means for calls of transactions that commit is said by laws (`laws_queue`).
#![tactic(auto)]

mod blob;
mod keys;
mod multimap;
mod queue;
mod reading;

pub use blob::{read, size, write};
pub use model_recipes::{Count, Counts, RecipeFault};
pub use multimap::{add, subtract, values};
pub use queue::{pop, push};
