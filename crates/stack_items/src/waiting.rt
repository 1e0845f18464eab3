//! Items that wait for the versionstamp of a commit (bindingApiTester.md, "GET_VERSIONSTAMP").

ghost use Rattle.std.specs.Prelude.{◌≡◌, ◌<◌, ◌∷◌, length, reverse, slice_get, IfSome, OnOk, OnErr, IsOkUnless};
ghost use Rattle.fdb_tuple.specs.Listed.{IsElement};
ghost use Rattle.model_machine.specs.declared.ItemValue.TheVariants.{Waits};
ghost use Rattle.model_machine.specs.Machines.{first_life, with_known, below_waiting};
ghost use Rattle.stack_items.specs.Items.{IsWaiting, waiting_place};

use crate::fault::StackFault;
use crate::stack::Stack;
use fdb_tuple::Elem;
use model_machine::{Item, ItemValue};

impl Stack {
    /// Puts an item on top that waits for the versionstamp of the commit of this life, with the number of the instruction that
    /// is run. After a refusal, for want of memory alone, the stack is unchanged.
    pub fn push_waiting(&mut self, life: u64, instruction: u64) -> Result<(), StackFault>
        ensures ok { OnOk result (self.new ≡ record { value = Waits life; instruction = instruction } ∷ self.old) }
        ensures err { OnErr result (self.new ≡ self.old) }
        ensures cause { IsOkUnless result StackFault.NoMemory }
    {
        self.put(Item {
            value: ItemValue::Waits(life),
            instruction,
        })?;
        Ok(())
    }

    /// Returns the place of the uppermost item that waits, the oldest item at 0.
    pub fn first_waiting(&self) -> Option<usize>
        ensures value { result ≡ waiting_place self.now }
        ensures within { IfSome result (λ place. place < length self.now) }
        ensures waits { IfSome result (λ place. IfSome (slice_get (reverse self.now) place) IsWaiting) }
    {
        uppermost_waiting(self.as_slice())
    }

    /// Makes the uppermost item known that waits, where one does: it is this element from then on, and keeps
    /// the number of its instruction.
    pub fn decide_first(&mut self, value: Elem)
        requires { IsElement value }
        ensures { self.new ≡ with_known value self.old }
    {
        if let Some(place) = self.first_waiting() {
            self.decide(place, value);
        }
    }

    /// Drops the uppermost item that waits and all above it; where none waits, all items.
    pub fn drop_waiting(&mut self)
        ensures { self.new ≡ below_waiting self.old }
    {
        let below = self.first_waiting().unwrap_or(0);
        self.keep_oldest(below);
    }
}

// The place of the uppermost item that waits, of items with the oldest first.
fn uppermost_waiting(items: &[Item]) -> Option<usize>
    ensures { result ≡ waiting_place (reverse items.now) }
{
    for place in (0..items.len()).rev() {
        if let ItemValue::Waits(_) = items[place].value {
            return Some(place);
        }
    }
    None
}

// The life that the uppermost item waits for which waits, of items with the oldest first.
pub(crate) fn uppermost_life(items: &[Item]) -> Option<u64>
    ensures { result ≡ first_life (reverse items.now) }
{
    for place in (0..items.len()).rev() {
        if let ItemValue::Waits(life) = items[place].value {
            return Some(life);
        }
    }
    None
}
