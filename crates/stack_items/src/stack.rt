//! A machine's stack.

ghost use Rattle.std.specs.Prelude.{◌≡◌, ◌==◌, ◌<◌, [], ◌∷◌, Some, length, take, drop, reverse, slice_get, IfSome, OnOk, OnErr, IsOkUnless};
ghost use Rattle.std.specs.List.{swap};
ghost use Rattle.model_machine.specs.StackOperations.{pushed};
ghost use Rattle.stack_items.specs.Items.{IsItem, AreItems, IsWaiting, known_at};
ghost use Rattle.stack_items.specs.Pops.{SeesTop};
ghost use Rattle.fdb_tuple.specs.Listed.{IsElement};

use crate::fault::StackFault;
use fdb_tuple::Elem;
use model_machine::{Item, ItemValue};
use std::alloc::{AllocError, Global};
use std::marker::Model;

/// A machine's stack. Contracts see the list of its items, the top first. An item is an element of some tuple, so a nested
/// tuple in it has a depth of at most 99; or it waits for the versionstamp of a commit.
#[derive(Debug, Drop)]
pub struct Stack {
    items: Vec<Item>,
}

impl Model for Stack {
    ghost use Rattle.std.specs.Prelude.{List, reverse};
    ghost use Rattle.model_machine.specs.declared.Item.{Item};
    ghost use Rattle.stack_items.specs.Items.{AreItems};

    ghost Value = { List Item };

    ghost use Rattle.model_machine.specs.contracts.Item as item;
    ghost use Rattle.std.specs.Coded.{codes};

    ghost coded = { Prim.hlevel (codes, item.the_row.coded) };

    ghost view = { λ stack. reverse stack.items.items };

    ghost invariant = { λ stack. AreItems stack.items.items };
}

impl Stack {
    /// Makes the empty stack, and keeps the allocator for what is pushed later.
    pub fn new(alloc: Global) -> Stack
        ensures { result ≡ [] }
    {
        Stack {
            items: Vec::new(alloc),
        }
    }

    /// Returns how many items there are.
    pub fn len(&self) -> usize
        ensures { result ≡ length self.now }
    {
        self.items.len()
    }

    /// Tells whether there is no item.
    pub fn is_empty(&self) -> bool
        ensures { result ≡ (length self.now == 0) }
    {
        self.items.is_empty()
    }

    /// Returns the item at place `i`, the oldest at 0.
    pub fn get(&self, i: usize) -> &Item
        requires { i < length self.now }
        ensures item { slice_get (reverse self.now) i ≡ Some result.now }
        ensures element { IsItem result.now }
    {
        &self.items[i]
    }

    /// Returns the items, oldest first.
    pub fn as_slice(&self) -> &[Item]
        ensures items { result.now ≡ reverse self.now }
        ensures elements { AreItems result.now }
    {
        self.items.as_slice()
    }

    /// Puts an item on top. After a refusal the stack is unchanged.
    pub fn put(&mut self, item: Item) -> Result<(), AllocError>
        requires { IsItem item }
        ensures ok { OnOk result (self.new ≡ item ∷ self.old) }
        ensures err { OnErr result (self.new ≡ self.old) }
    {
        self.items.push(item)?;
        Ok(())
    }

    /// Takes the top item off.
    pub fn take(&mut self) -> Item
        requires { 0 < length self.old }
        ensures item { self.old ≡ result ∷ self.new }
        ensures element { IsItem result }
    {
        self.items.pop().unwrap()
    }

    /// Makes the item known that waits at place `i`, the oldest item at 0: it is this element from then on, and
    /// keeps the number of its instruction.
    pub fn decide(&mut self, i: usize, value: Elem)
        requires place { i < length self.old }
        requires waits { IfSome (slice_get (reverse self.old) i) IsWaiting }
        requires element { IsElement value }
        ensures { reverse self.new ≡ known_at i value (reverse self.old) }
    {
        self.items[i].value = ItemValue::Known(value);
    }

    /// Pushes an element on top (PUSH), with the number of the instruction that is run (bindingApiTester.md,
    /// "Data Operations"). After a refusal, for want of memory alone, the stack is unchanged.
    pub fn push(&mut self, element: Elem, instruction: u64) -> Result<(), StackFault>
        requires { IsElement element }
        ensures ok { OnOk result (self.new ≡ pushed instruction (element ∷ []) self.old) }
        ensures err { OnErr result (self.new ≡ self.old) }
        ensures cause { IsOkUnless result StackFault.NoMemory }
    {
        self.put(Item {
            value: ItemValue::Known(element),
            instruction,
        })?;
        Ok(())
    }

    // The top item, if there is one.
    pub(crate) fn top(&self) -> Option<&Item>
        ensures seen { SeesTop result self.now }
        ensures element { IfSome result (λ top. IsItem top.now) }
    {
        self.items.as_slice().last()
    }

    // Swaps the top item with the one at this depth.
    pub(crate) fn swap_top(&mut self, depth: usize)
        requires { depth < length self.old }
        ensures { self.new ≡ swap self.old 0 depth }
    {
        let top = self.items.len() - 1;
        self.items.swap(top, top - depth);
    }

    // Takes all items off.
    pub(crate) fn clear(&mut self)
        ensures { self.new ≡ [] }
    {
        self.items.clear();
    }

    // Takes off all items but so many of the oldest.
    pub(crate) fn keep_oldest(&mut self, count: usize)
        ensures { reverse self.new ≡ take count (reverse self.old) }
    {
        self.items.truncate(count);
    }

    // Takes off so many of the newest items, or all.
    pub(crate) fn drop_newest(&mut self, count: usize)
        ensures { self.new ≡ drop count self.old }
    {
        self.keep_oldest(self.len().saturating_sub(count));
    }

    // The allocator of the stack.
    pub(crate) fn alloc(&self) -> Global {
        *self.items.allocator()
    }
}

// The top of these items, oldest first, if there is one.
pub(crate) fn top_of(items: &[Item]) -> Option<&Item>
    ensures { SeesTop result (reverse items.now) }
{
    items.last()
}
