//! Operands that are popped: taken off a stack by their value, where none of them waits.

ghost use Rattle.std.specs.Prelude.{◌≡◌, ◌≢◌, [], ◌∷◌, ◌++◌, Ok, Err, IsOk, IfOk, OnOk, OnErr, IsOkUnless};
ghost use Rattle.fdb_tuple.specs.Listed.{elements_of, IsElement};
ghost use Rattle.model_machine.specs.Operands.{left_of, item_operand, bytes_operand, count_operand, element_operand, operands_by};
ghost use Rattle.model_machine.specs.Operands.{tuple_operand, byte_strings_operand, two_operands};
ghost use Rattle.model_machine.specs.StackOperations.{wait_future};
ghost use Rattle.stack_items.specs.Items.{IsItem, EndsIn};
ghost use Rattle.stack_items.specs.Pops.{Pops, PopsUnlessFull, Does, Knows, settled};

use crate::fault::StackFault;
use crate::kinds::into_bytes;
use crate::operands::Operands;
use crate::stack::Stack;
use fdb_tuple::{Elem, Tuple};
use key_bytes::Bytes;
use model_machine::{Item, ItemValue};

impl Stack {
    /// Looks at the operands of an operation, from the top item on.
    pub fn operands(&self) -> Operands<'_>
        ensures { result ≡ record { whole = self.now; popped = 0 } }
    {
        Operands::new(self.as_slice())
    }

    /// Takes so many items off, those that a look at operands came past, where the operands were found or refused; where
    /// the look came to an item that waits, all items stay. It answers what the look has come to.
    pub fn settle<T>(
        &mut self,
        popped: usize,
        outcome: Result<T, StackFault>,
    ) -> Result<T, StackFault>
        ensures outcome { result ≡ outcome }
        ensures left { self.new ≡ settled outcome popped self.old }
    {
        match outcome {
            Err(StackFault::Waits { life }) => Err(StackFault::Waits { life }),
            settled => {
                self.drop_newest(popped);
                settled
            }
        }
    }

    /// Pops an operand of the kind "bytes": a byte string, or a Unicode string taken as its UTF-8. Where there
    /// is no item it answers Underflow; where the top item is of another kind it answers Operand, and the item
    /// is gone; where the top item waits it answers Waits, and the item stays.
    pub fn pop_bytes(&mut self) -> Result<Bytes, StackFault>
        ensures { Pops (λ bytes. bytes) result (bytes_operand self.old) self.old self.new }
    {
        let (element, _) = self.pop_item()?;
        into_bytes(element).ok_or(StackFault::Operand)
    }

    // Pops an integer from 0 upward.
    pub(crate) fn pop_count(&mut self) -> Result<u128, StackFault>
        ensures { Pops (λ count. count) result (count_operand self.old) self.old self.new }
    {
        let mut operands = self.operands();
        let count = operands.count();
        let popped = operands.popped();
        self.settle(popped, count)
    }

    // Pops an item of any kind that is known: its element, and the number of its instruction.
    pub(crate) fn pop_item(&mut self) -> Result<(Elem, u64), StackFault>
        ensures popped { Pops (λ item. item) result (item_operand self.old) self.old self.new }
        ensures element { IfOk result (λ item. IsElement item.0) }
    {
        self.top_known()?;
        into_known(self.take())
    }

    // Whether the top item is known.
    pub(crate) fn top_known(&self) -> Result<(), StackFault>
        ensures said { Does result (wait_future self.now) self.now self.now }
        ensures memory { result ≢ Err StackFault.NoMemory }
    {
        match self.top() {
            None => Err(StackFault::Underflow),
            Some(
                Item {
                    value: ItemValue::Waits(life),
                    ..
                },
            ) => Err(StackFault::Waits { life: *life }),
            Some(_) => Ok(()),
        }
    }

    // Pops a count and so many items, as the elements of a tuple in the order popped. Where memory runs out, the
    // items below them stand.
    pub(crate) fn pop_tuple(&mut self) -> Result<Tuple, StackFault>
        ensures popped { PopsUnlessFull (λ tuple. tuple) result (tuple_operand self.old) self.old self.new }
        ensures memory { result ≡ Err StackFault.NoMemory → EndsIn (left_of self.old (tuple_operand self.old)) self.new }
    {
        let mut operands = self.operands();
        if let Err(fault) = operands.pass_tuple() {
            let popped = operands.popped();
            return self.settle(popped, Err(fault));
        }
        let count = self.pop_count()?;
        self.take_elements(count)
    }

    // Takes so many items off that are known, as the elements of a tuple in the order taken.
    fn take_elements(&mut self, count: u128) -> Result<Tuple, StackFault>
        requires { IsOk (operands_by element_operand count self.old) }
        ensures taken { IfOk result (λ tuple. operands_by element_operand count self.old ≡ Ok (elements_of tuple, self.new)) }
        ensures memory { OnErr result (EndsIn (left_of self.old (operands_by element_operand count self.old)) self.new) }
        ensures cause { IsOkUnless result StackFault.NoMemory }
    {
        let mut tuple = Tuple::new(self.alloc());
        for _taken in 0..count {
            let (element, _) = self.pop_item()?;
            add_element(&mut tuple, element)?;
        }
        Ok(tuple)
    }

    // Pops a prefix of the kind "bytes", and a tuple. Where memory runs out, the items below them stand.
    pub(crate) fn pop_prefixed_tuple(&mut self) -> Result<(Bytes, Tuple), StackFault>
        ensures popped { PopsUnlessFull (λ operands. operands) result (two_operands bytes_operand tuple_operand self.old) self.old self.new }
        ensures memory { result ≡ Err StackFault.NoMemory → EndsIn (left_of self.old (two_operands bytes_operand tuple_operand self.old)) self.new }
    {
        let mut operands = self.operands();
        if let Err(fault) = operands.pass_prefixed_tuple() {
            let popped = operands.popped();
            return self.settle(popped, Err(fault));
        }
        let prefix = self.pop_bytes()?;
        let tuple = self.pop_tuple()?;
        Ok((prefix, tuple))
    }

    // Pops a count and so many byte strings, in the order popped. Where memory runs out, the items below them stand.
    pub(crate) fn pop_byte_strings(&mut self) -> Result<Vec<Bytes>, StackFault>
        ensures popped { PopsUnlessFull (λ strings. strings.items) result (byte_strings_operand self.old) self.old self.new }
        ensures memory { result ≡ Err StackFault.NoMemory → EndsIn (left_of self.old (byte_strings_operand self.old)) self.new }
    {
        let mut operands = self.operands();
        if let Err(fault) = operands.pass_byte_strings() {
            let popped = operands.popped();
            return self.settle(popped, Err(fault));
        }
        let count = self.pop_count()?;
        self.take_byte_strings(count)
    }

    // Takes so many byte strings off, in the order taken.
    fn take_byte_strings(&mut self, count: u128) -> Result<Vec<Bytes>, StackFault>
        requires { IsOk (operands_by bytes_operand count self.old) }
        ensures taken { IfOk result (λ strings. operands_by bytes_operand count self.old ≡ Ok (strings.items, self.new)) }
        ensures memory { OnErr result (EndsIn (left_of self.old (operands_by bytes_operand count self.old)) self.new) }
        ensures cause { IsOkUnless result StackFault.NoMemory }
    {
        let mut strings = Vec::new(self.alloc());
        for _taken in 0..count {
            let string = self.pop_bytes()?;
            strings.push(string)?;
        }
        Ok(strings)
    }
}

// The element of an item and the number of its instruction, where it is known.
fn into_known(item: Item) -> Result<(Elem, u64), StackFault>
    requires { IsItem item }
    ensures known { Knows result item }
    ensures element { IfOk result (λ known. IsElement known.0) }
{
    let Item { value, instruction } = item;
    match value {
        ItemValue::Known(element) => Ok((element, instruction)),
        ItemValue::Waits(life) => Err(StackFault::Waits { life }),
    }
}

// Adds an element of some tuple, whose refusal is for want of memory alone.
fn add_element(tuple: &mut Tuple, element: Elem) -> Result<(), StackFault>
    requires { IsElement element }
    ensures ok { OnOk result (elements_of tuple.new ≡ elements_of tuple.old ++ element ∷ []) }
    ensures cause { IsOkUnless result StackFault.NoMemory }
{
    match tuple.push(element) {
        Ok(()) => Ok(()),
        Err(_) => Err(StackFault::NoMemory),
    }
}
