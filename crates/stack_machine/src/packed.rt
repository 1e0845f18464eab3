//! Pairs packed as one tuple of their keys and values in turn.

ghost use Rattle.std.specs.Prelude.{◌≡◌, List, ◌∷◌, ◌++◌, IfOk, OnOk};
ghost use Rattle.model_database.specs.Slices.{Entries};
ghost use Rattle.key_bytes.specs.Entries.{entry_of, entries_of};
ghost use Rattle.model_machine.specs.Machines.{packed_pairs, pairs_within};
ghost use Rattle.stack_machine.specs.Packed.{spelled_within};

use fdb_tuple::{Elem, pack_element_into};
use key_bytes::{Bytes, Pair};
use std::alloc::{AllocError, Global};

/// Returns the keys and values in turn of the pairs with keys that begin with the prefix, as one packed tuple.
#[tactic(auto, unfolding(model_machine::specs::Machines::packed_pairs))]
pub fn pack_within(alloc: Global, prefix: &[u8], pairs: &[Pair]) -> Result<Bytes, AllocError>
    ensures { IfOk result (λ packed. Elem.Bytes packed ≡ packed_pairs (pairs_within prefix.now (entries_of pairs.now))) }
{
    let mut packed = Vec::new(alloc);
    for pair in pairs {
        add_within(&mut packed, prefix, pair)?;
    }
    Bytes::from_vec(packed)
}

// Adds a pair where its key begins with the prefix.
fn add_within(to: &mut Vec<u8>, prefix: &[u8], pair: &Pair) -> Result<(), AllocError>
    ensures { OnOk result ((rest : Entries) → to.new.items ++ spelled_within prefix.now rest
        ≡ to.old.items ++ spelled_within prefix.now (entry_of pair.now ∷ rest)) }
{
    if pair.key.starts_with(prefix) {
        pack_element_into(to, &Elem::Bytes(pair.key.copy()?))?;
        pack_element_into(to, &Elem::Bytes(pair.value.copy()?))?;
    }
    Ok(())
}
