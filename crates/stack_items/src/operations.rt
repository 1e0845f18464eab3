//! The operations on data (bindingApiTester.md, "Data Operations" and "Miscellaneous").
//!
//! Each is run as the instruction of a number, which the items that it pushes have. After Underflow or Operand the
//! items popped before the fault was judged are gone, and all others stand. After Waits, which comes exactly where the item
//! that is to be popped waits, all items stand.

ghost use Rattle.std.specs.Prelude.{◌≡◌, ◌≢◌, [], ◌∷◌, Ok, Err, IsOk, IfOk, OnOk, OnErr, IsOkUnless};
ghost use Rattle.fdb_tuple.specs.Listed.{IsElement};
ghost use Rattle.model_machine.specs.Operands.{bytes_operand, string_operand, int_operand, two_operands, left_of};
ghost use Rattle.model_machine.specs.StackOperations.{dup, swap_by_depth, pop, sub, concat, wait_future, get_approximate_size, get_estimated_range_size, joined, pushed};
ghost use Rattle.stack_items.specs.Looks.{left_in, LooksUnlessFull, joined_operand, Joins};
ghost use Rattle.stack_items.specs.Pops.{Does};

use crate::fault::StackFault;
use crate::operands::Operands;
use crate::stack::Stack;
use fdb_tuple::Elem;
use key_bytes::Bytes;
use model_machine::{Item, ItemValue};
use std::alloc::AllocError;

impl Stack {
    /// Pushes a copy of the top item (DUP), with the copied item's number; the copy of one that waits waits for
    /// the same life. Underflow comes exactly where there is no item. After NoMemory the stack is unchanged.
    pub fn dup(&mut self, _instruction: u64) -> Result<(), StackFault>
        ensures said { Does result (dup self.old) self.old self.new }
        ensures memory { result ≡ Err StackFault.NoMemory → self.new ≡ self.old }
    {
        let top = self.top().ok_or(StackFault::Underflow)?;
        let copy = Item {
            value: copy_of(&top.value)?,
            instruction: top.instruction,
        };
        self.put(copy)?;
        Ok(())
    }

    /// Drops all items (EMPTY_STACK).
    pub fn empty_stack(&mut self, _instruction: u64) -> Result<(), StackFault>
        ensures said { Does result (Ok []) self.old self.new }
        ensures ok { IsOk result }
    {
        self.clear();
        Ok(())
    }

    /// Pops a depth, and swaps the top item with the one at that depth (SWAP), with their numbers. Underflow
    /// comes exactly where there is no depth or no item at it, Operand exactly where the depth is no integer
    /// from 0 upward.
    pub fn swap(&mut self, _instruction: u64) -> Result<(), StackFault>
        ensures said { Does result (swap_by_depth self.old) self.old self.new }
        ensures memory { result ≢ Err StackFault.NoMemory }
    {
        let depth = self.pop_count()?;
        if depth >= self.len() as u128 {
            return Err(StackFault::Underflow);
        }
        self.swap_top(depth as usize);
        Ok(())
    }

    /// Drops the top item (POP). Underflow comes exactly where there is none.
    pub fn pop(&mut self, _instruction: u64) -> Result<(), StackFault>
        ensures said { Does result (pop self.old) self.old self.new }
        ensures memory { result ≢ Err StackFault.NoMemory }
    {
        self.pop_item()?;
        Ok(())
    }

    /// Pops two integers, and pushes the first less the second (SUB). Operand comes exactly where one is no
    /// integer, or the difference has more than 128 bits. After NoMemory the items below the two stand.
    pub fn sub(&mut self, instruction: u64) -> Result<(), StackFault>
        ensures said { Does result (sub instruction self.old) self.old self.new }
        ensures memory { result ≡ Err StackFault.NoMemory → self.new ≡ left_of self.old (two_operands int_operand int_operand self.old) }
    {
        let mut operands = self.operands();
        let integers = operands.two_ints();
        let popped = operands.popped();
        let (first, second) = self.settle(popped, integers)?;
        let difference = first.checked_sub(second).ok_or(StackFault::Operand)?;
        self.push(Elem::Int(difference), instruction)
    }

    /// Pops two strings, and pushes the first followed by the second (CONCAT). Operand comes exactly where one
    /// is no string, or they are not of one kind. After NoMemory the items below the two stand.
    pub fn concat(&mut self, instruction: u64) -> Result<(), StackFault>
        ensures said { Does result (concat instruction self.old) self.old self.new }
        ensures memory { result ≡ Err StackFault.NoMemory → self.new ≡ left_of self.old (two_operands string_operand string_operand self.old) }
    {
        let mut operands = self.operands();
        let joined = joined_operands(&mut operands);
        let popped = operands.popped();
        let whole = self.settle(popped, joined)?;
        self.push(whole, instruction)
    }

    /// Pops the top item and pushes it again, with its own number (WAIT_FUTURE). Underflow comes exactly where
    /// there is none.
    pub fn wait_future(&mut self, _instruction: u64) -> Result<(), StackFault>
        ensures said { Does result (wait_future self.old) self.old self.new }
        ensures memory { result ≢ Err StackFault.NoMemory }
    {
        self.top_known()
    }

    /// Pushes the fixed text of GET_APPROXIMATE_SIZE. After NoMemory the stack is unchanged.
    pub fn get_approximate_size(&mut self, instruction: u64) -> Result<(), StackFault>
        ensures said { Does result (get_approximate_size instruction self.old) self.old self.new }
        ensures memory { result ≡ Err StackFault.NoMemory → self.new ≡ self.old }
    {
        self.push_text(b"GOT_APPROXIMATE_SIZE", instruction)
    }

    /// Pops the two ends of a range, and pushes the fixed text of GET_ESTIMATED_RANGE_SIZE. Operand comes
    /// exactly where one is not of the kind "bytes". After NoMemory the items below the two stand.
    pub fn get_estimated_range_size(&mut self, instruction: u64) -> Result<(), StackFault>
        ensures said { Does result (get_estimated_range_size instruction self.old) self.old self.new }
        ensures memory { result ≡ Err StackFault.NoMemory → self.new ≡ left_of self.old (two_operands bytes_operand bytes_operand self.old) }
    {
        let mut operands = self.operands();
        let ends = operands.pass_two_bytes();
        let popped = operands.popped();
        self.settle(popped, ends)?;
        self.push_text(b"GOT_ESTIMATED_RANGE_SIZE", instruction)
    }

    /// Does nothing (UNIT_TESTS).
    pub fn unit_tests(&mut self, _instruction: u64) -> Result<(), StackFault>
        ensures said { Does result (Ok self.old) self.old self.new }
        ensures ok { IsOk result }
    {
        Ok(())
    }

    // Pushes a fixed text, as a byte string. After a refusal, for want of memory alone, the stack is unchanged.
    pub(crate) fn push_text(&mut self, text: &[u8], instruction: u64) -> Result<(), StackFault>
        ensures ok { OnOk result (self.new ≡ pushed instruction (Elem.Bytes text.now ∷ []) self.old) }
        ensures err { OnErr result (self.new ≡ self.old) }
        ensures cause { IsOkUnless result StackFault.NoMemory }
    {
        let bytes = Bytes::from_slice(self.alloc(), text)?;
        self.push(Elem::Bytes(bytes), instruction)
    }
}

// A copy of what an item is.
fn copy_of(value: &ItemValue) -> Result<ItemValue, AllocError>
    ensures { IfOk result (λ copy. copy ≡ value.now) }
{
    Ok(match value {
        ItemValue::Known(element) => ItemValue::Known(element.copy()?),
        ItemValue::Waits(life) => ItemValue::Waits(*life),
    })
}

// Two strings, joined. Operand comes exactly where one is no string, or they are not of one kind.
fn joined_operands(operands: &mut Operands<'_>) -> Result<Elem, StackFault>
    ensures joined { LooksUnlessFull (λ whole. whole) result joined_operand operands.old operands.new }
    ensures memory { result ≡ Err StackFault.NoMemory → left_in operands.new
        ≡ left_of (left_in operands.old) (two_operands string_operand string_operand (left_in operands.old)) }
    ensures element { IfOk result IsElement }
{
    let first = operands.string()?;
    let second = operands.string()?;
    join(first, second)
}

// The first string followed by the second. Operand comes exactly where they are not of one kind.
fn join(first: &Elem, second: &Elem) -> Result<Elem, StackFault>
    ensures joined { Joins result (joined first.now second.now) }
    ensures element { IfOk result IsElement }
{
    match (first, second) {
        (Elem::Bytes(first), Elem::Bytes(second)) => {
            let mut whole = first.copy()?;
            whole.extend(second.as_slice())?;
            Ok(Elem::Bytes(whole))
        }
        (Elem::Text(first), Elem::Text(second)) => {
            let mut whole = first.copy()?;
            whole.append(second)?;
            Ok(Elem::Text(whole))
        }
        _ => Err(StackFault::Operand),
    }
}
