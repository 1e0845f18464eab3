//! What LOG_STACK writes of a stack (bindingApiTester.md, "LOG_STACK").

ghost use Rattle.std.specs.Prelude.{◌≡◌, ◌+◌, ◌<◌, ◌≤◌, ◌^◌, length, map, take, drop, pos, IfOk, OnOk, OnErr};
ghost use Rattle.std.specs.List.{enumerate_from};
ghost use Rattle.fdb_tuple.specs.Tuples.{Int, Empty, Single};
ghost use Rattle.fdb_tuple.specs.Listed.{before};
ghost use Rattle.fdb_tuple.specs.Spelling.{spelling};
ghost use Rattle.key_bytes.specs.Entries.{entry_of};
ghost use Rattle.model_machine.specs.Calls.{item_bytes, log_entry, log_entries};
ghost use Rattle.model_machine.specs.Machines.{first_life};

use crate::stack::Stack;
use crate::waiting::uppermost_life;
use fdb_tuple::{Elem, pack_element_into};
use key_bytes::{Bytes, Key, Pair, Pairs};
use model_machine::{Item, ItemValue, LOG_BATCH, LOGGED_BYTES};
use std::alloc::{AllocError, Global};

impl Stack {
    /// Returns the life that the uppermost item waits for which waits, of the items that `take_log` would take.
    pub fn batch_life(&self) -> Option<u64>
        ensures { result ≡ first_life (take LOG_BATCH self.now) }
    {
        let first = self.len().saturating_sub(LOG_BATCH);
        uppermost_life(&self.as_slice()[first..])
    }

    /// Takes the uppermost items off, at most `LOG_BATCH`, and answers what LOG_STACK writes of them, in the order of their
    /// places: of each its place and its instruction as the key, and its first packed bytes, at most `LOGGED_BYTES`, as the
    /// value; of one that waits the value is the byte `*`, so ask `batch_life` before. The items below are not looked at.
    /// After a refusal the stack is unchanged.
    pub fn take_log(&mut self) -> Result<Pairs, AllocError>
        ensures entries { IfOk result (λ entries. entries ≡ log_entries self.old) }
        ensures left { OnOk result (self.new ≡ drop LOG_BATCH self.old) }
        ensures err { OnErr result (self.new ≡ self.old) }
    {
        let first = self.len().saturating_sub(LOG_BATCH);
        let entries = entries_from(self.alloc(), first, &self.as_slice()[first..])?;
        self.drop_newest(LOG_BATCH);
        Ok(entries)
    }
}

// The entries of items that lie one on the other, the lowest at this place.
fn entries_from(alloc: Global, first: usize, items: &[Item]) -> Result<Pairs, AllocError>
    requires { first + length items.now < 2 ^ 64 }
    ensures { IfOk result (λ entries. entries ≡ map log_entry (enumerate_from first items.now)) }
{
    let mut entries = Pairs::new(alloc);
    let mut packed = Vec::new(alloc);
    for (above, item) in items.iter().enumerate() {
        let place = (first + above) as u64;
        let key = log_key(alloc, &mut packed, place, item.instruction)?;
        let value = log_value(alloc, &mut packed, &item.value)?;
        entries.push(Pair { key, value })?;
    }
    Ok(entries)
}

// The packed place and instruction of an item, by way of a vector whose room is used again.
fn log_key(
    alloc: Global,
    packed: &mut Vec<u8>,
    place: u64,
    instruction: u64,
) -> Result<Key, AllocError>
    ensures { IfOk result (λ key. key ≡ spelling (Single (Int (pos place)) (Single (Int (pos instruction)) Empty))) }
{
    packed.clear();
    pack_element_into(packed, &Elem::Int(i128::from(place)))?;
    pack_element_into(packed, &Elem::Int(i128::from(instruction)))?;
    Bytes::from_slice(alloc, packed)
}

// The first bytes of a packed element, by way of a vector whose room is used again; of an item that waits the byte `*`.
fn log_value(alloc: Global, packed: &mut Vec<u8>, value: &ItemValue) -> Result<Bytes, AllocError>
    ensures { IfOk result (λ logged. logged ≡ take LOGGED_BYTES (item_bytes value.now)) }
{
    match value {
        ItemValue::Known(element) => first_bytes(alloc, packed, element),
        ItemValue::Waits(_) => Bytes::from_slice(alloc, b"*"),
    }
}

// The first bytes of a packed element.
#[tactic(auto, using(std::proofs::lemmas::List::take_min))]
fn first_bytes(alloc: Global, packed: &mut Vec<u8>, element: &Elem) -> Result<Bytes, AllocError>
    ensures { IfOk result (λ logged. logged ≡ take LOGGED_BYTES (spelling (before element.now Empty))) }
{
    packed.clear();
    pack_element_into(packed, element)?;
    let logged = LOGGED_BYTES.min(packed.len());
    Bytes::from_slice(alloc, &packed[..logged])
}
