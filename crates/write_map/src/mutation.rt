//! A write that a transaction keeps.

ghost use Rattle.std.specs.Prelude.{◌≡◌, IfOk};
ghost use Rattle.model_database.specs.Databases as rules;
ghost use Rattle.write_map.specs.Mutations.{mutation_of};

use key_bytes::{Bytes, Key, KeyRange};
use model_database::AtomicOp;
use std::alloc::AllocError;

/// A write that a transaction keeps until its commit (API reference of release 6.3, "Transaction").
#[derive(Debug, Drop)]
pub enum Mutation {
    /// The key has this value.
    Set {
        key: Key,
        value: Bytes,
    },
    /// The key has no value.
    Clear {
        key: Key,
    },
    /// No key of the range has a value.
    ClearRange {
        range: KeyRange,
    },
    /// The key has what the operation makes of its value, with this operand.
    Atomic {
        op: AtomicOp,
        key: Key,
        operand: Bytes,
    },
}

impl Mutation {
    // An atomic operation, with copies of its key and its operand.
    pub(crate) fn atomic(op: AtomicOp, key: &Key, operand: &Bytes) -> Result<Mutation, AllocError>
        ensures { IfOk result (λ mutation. mutation_of mutation ≡ rules.Atomic op key.now operand.now) }
    {
        let key = key.copy()?;
        let operand = operand.copy()?;
        Ok(Mutation::Atomic { op, key, operand })
    }
}
