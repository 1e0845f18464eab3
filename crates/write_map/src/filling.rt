//! The mutations as a commit does them.

ghost use Rattle.std.specs.Prelude.{◌≡◌, [], ◌∷◌, ◌++◌, IfOk, OnOk, OnErr};
ghost use Rattle.std.specs.List.{All};
ghost use Rattle.model_database.specs.States.{all_filled, filled};
ghost use Rattle.write_map.specs.Mutations.{mutation_of, mutations_of};
ghost use Rattle.write_map.specs.Stamps.{HasRoom};

use crate::mutation::Mutation;
use crate::write_map::WriteMap;
use atomic_ops::stamped;
use model_database::AtomicOp;
use std::alloc::{AllocError, Global};

// A map of mutations, each as a commit with this versionstamp does it.
fn filled(alloc: Global, mutations: &[Mutation], stamp: &[u8; 10]) -> Result<WriteMap, AllocError>
    requires { All HasRoom (mutations_of mutations.now) }
    ensures { IfOk result (λ map. map.mutations ≡ all_filled stamp.now (mutations_of mutations.now)) }
{
    let mut map = WriteMap::new(alloc);
    for mutation in mutations {
        map.fill(mutation, stamp)?;
    }
    Ok(map)
}

impl WriteMap {
    /// Makes a map of the same mutations, each as a commit with this versionstamp does it: a key or a value
    /// with a versionstamp is filled in, and set (API reference, "fdb_transaction_atomic_op"). No key of it is
    /// unreadable.
    pub fn filled(&self, stamp: &[u8; 10]) -> Result<WriteMap, AllocError>
        ensures { IfOk result (λ map. map.mutations ≡ all_filled stamp.now self.now.mutations) }
    {
        self.shows_room();
        filled(self.allocator(), self.mutations(), stamp)
    }

    // Adds a mutation as a commit with this versionstamp does it. After a refusal the map is as it was.
    fn fill(&mut self, mutation: &Mutation, stamp: &[u8; 10]) -> Result<(), AllocError>
        requires { HasRoom (mutation_of mutation.now) }
        ensures added { OnOk result (self.new.mutations
            ≡ self.old.mutations ++ filled stamp.now (mutation_of mutation.now) ∷ []) }
        ensures unchanged { OnErr result (self.new ≡ self.old) }
    {
        match mutation {
            Mutation::Set { key, value } => self.set(key.as_slice(), value.as_slice()),
            Mutation::Clear { key } => self.clear(key.as_slice()),
            Mutation::ClearRange { range } => self.clear_range(range),
            Mutation::Atomic { op, key, operand } => match op {
                AtomicOp::SetVersionstampedKey | AtomicOp::OldStampedKey => {
                    let key = stamped(self.allocator(), op.stamp_form(), stamp, key.as_slice())?;
                    self.set(key.as_slice(), operand.as_slice())
                }
                AtomicOp::SetVersionstampedValue | AtomicOp::OldStampedValue => {
                    let form = op.stamp_form();
                    let value = stamped(self.allocator(), form, stamp, operand.as_slice())?;
                    self.set(key.as_slice(), value.as_slice())
                }
                _ => self.atomic(*op, key.as_slice(), operand.as_slice()),
            },
        }
    }
}
