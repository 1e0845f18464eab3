//! Three layers over a transaction in definitions: a queue, a map of counts and a byte string, each in a subspace of its own.
//!
//! Nothing here runs but the types that definitions and code share. `specs/Turns.antt` has a call of a layer as data: the one
//! read that it makes, the writes behind it and its reply, and what that leaves of a transaction. `specs/Queues.antt` has the
//! queue, `specs/Multimaps.antt` the counts and `specs/Blobs.antt` the byte string: what each is of the map that a transaction
//! sees, and what each call asks, writes and answers. `proofs/` has what follows from these definitions alone: what the queue,
//! the counts and the bytes are after a call.
#![tactic(auto)]

ghost use Rattle.std.specs.Prelude.{◌≡◌};

mod fault;

pub use fault::RecipeFault;
use key_bytes::Bytes;
use lists::List;

/// The greatest index of a queue's item.
pub const GREATEST_INDEX: u64 = 4_611_686_018_427_387_904;

/// The greatest count of a pair.
pub const GREATEST_COUNT: u64 = u64::MAX;

/// How many bytes each chunk of a byte string has but the last.
pub const CHUNK_BYTES: usize = 10_000;

/// How many chunks a byte string may have.
pub const CHUNK_LIMIT: usize = 100_000_000;

/// How many bytes a byte string may have.
pub const SIZE_LIMIT: u64 = 1_000_000_000_000;

/// A value of a key, and how often the pair of the two was added.
#[derive(Debug, Drop)]
pub struct Count {
    pub value: Bytes,
    pub count: u64,
}

/// The values of a key with their counts, in the order of the values.
pub type Counts = List<Count>;
