//! The machines that were started.

ghost use Rattle.std.specs.Prelude.{◌≡◌, ◌∷◌, ◌++◌, [], Some, length, nat_lt, IfOk};
ghost use Rattle.model_machine.specs.declared.TheConstants.{MACHINES as MOST};
ghost use Rattle.model_machine.specs.Worlds.{World, instruction_pairs, packed_prefix, start_by};
ghost use Rattle.std.specs.Map.{values_of};
ghost use Rattle.version_store.specs.Versions.{at, last_of};
ghost use Rattle.client_core.specs.Contents.{model_of, Starts, TookStart};
ghost use Rattle.client_core.specs.Stands.{HasStarted, KeepsWorld};

use crate::contents::Contents;
use fdb_calls::Reply;
use fdb_tuple::{Elem, pack_element};
use key_bytes::{Bytes, Key, Pairs};
use model_machine::MACHINES;
use std::alloc::{AllocError, Global};
use std::marker::Model;
use version_store::{PairsLeft, Store};

/// The prefixes of the machines that were started, by their numbers. Contracts see the list.
#[derive(Drop)]
pub struct Machines {
    prefixes: Vec<Bytes>,
}

impl Model for Machines {
    ghost use Rattle.std.specs.Prelude.{List, ℕ};

    ghost Value = { List (List ℕ) };

    ghost view = { λ machines. machines.prefixes.items };
}

impl Machines {
    /// Makes the list with machine 0 alone, started under this prefix. It is refused for want of memory alone.
    pub fn new(alloc: Global, prefix: Bytes) -> Result<Machines, AllocError>
        ensures { IfOk result (λ machines. machines ≡ prefix ∷ []) }
    {
        let mut prefixes = Vec::new(alloc);
        prefixes.push(prefix)?;
        Ok(Machines { prefixes })
    }

    // One machine more, if there may be one: its number. It is refused for want of memory alone.
    fn start(&mut self, prefix: &Bytes) -> Result<Option<u16>, AllocError>
        ensures { IfOk result (λ number. Starts number prefix.now self.old self.new) }
    {
        let number = self.prefixes.len();
        if number >= MACHINES {
            return Ok(None);
        }
        self.prefixes.push(prefix.copy()?)?;
        Ok(Some(number as u16))
    }
}

/// Starts a machine under a prefix: the step of that request in the world. It is refused for want of memory alone.
pub fn start(
    machines: &mut Machines,
    contents: &Contents,
    prefix: &Bytes,
) -> Result<Reply, AllocError>
    ensures step { IfOk result (λ reply. (world : World) → KeepsWorld (model_of contents.now) world → machines.old ≡ world.started
        → TookStart reply machines.new (start_by (nat_lt (length world.started) MOST) world prefix.now)) }
    ensures counted { IfOk result (λ reply. HasStarted (Some prefix.now) reply machines.old machines.new) }
{
    let Some(machine) = machines.start(prefix)? else {
        return Ok(Reply::NoMachine);
    };
    let instructions = pairs_under(contents.alloc, &contents.store, prefix.as_slice())?;
    Ok(Reply::Started {
        machine,
        instructions,
    })
}

// The pairs of the instructions of a prefix at the last version: those in the range of the tuples that begin with it.
fn pairs_under(alloc: Global, store: &Store, prefix: &[u8]) -> Result<Pairs, AllocError>
    ensures { IfOk result (λ pairs. pairs ≡ instruction_pairs prefix.now (at store.now (last_of store.now))) }
{
    let begin = range_end(alloc, prefix, 0)?;
    let end = range_end(alloc, prefix, 0xff)?;
    store.pairs_between(&begin, &end)
}

/// Returns the instructions of a prefix at the last version, in the order of their keys: the values of those
/// pairs. No list of the pairs stands between the store and this one.
pub fn instructions_under(
    alloc: Global,
    store: &Store,
    prefix: &[u8],
) -> Result<Vec<Bytes>, AllocError>
    ensures { IfOk result (λ values. values.items ≡ values_of (instruction_pairs prefix.now (at store.now (last_of store.now)))) }
{
    let begin = range_end(alloc, prefix, 0)?;
    let end = range_end(alloc, prefix, 0xff)?;
    match store.pairs_in(&begin, &end, store.last()) {
        Ok(left) => values_of(alloc, left),
        Err(_) => unreachable!(),
    }
}

// Copies of the values of the pairs that are left, in order.
fn values_of(alloc: Global, left: PairsLeft<'_>) -> Result<Vec<Bytes>, AllocError>
    ensures { IfOk result (λ values. values.items ≡ values_of left.entry) }
{
    let mut values = Vec::new(alloc);
    for (_, value) in left {
        values.push(value.copy()?)?;
    }
    Ok(values)
}

// An end of the range of the tuples that begin with a prefix: the packed prefix, and one byte more.
fn range_end(alloc: Global, prefix: &[u8], last: u8) -> Result<Key, AllocError>
    ensures { IfOk result (λ key. key ≡ packed_prefix prefix.now ++ last ∷ []) }
{
    let mut key = packed(alloc, prefix)?;
    key.extend(&[last])?;
    Ok(key)
}

fn packed(alloc: Global, prefix: &[u8]) -> Result<Bytes, AllocError>
    ensures { IfOk result (λ packed. packed ≡ packed_prefix prefix.now) }
{
    pack_element(alloc, &Elem::Bytes(Bytes::from_slice(alloc, prefix)?))
}
