//! The operands of an operation, one after the other, before any is taken off.
//!
//! An operation whose operand waits leaves all items as they were, also those of the operands before it. So it looks at
//! its operands first, by a cursor that takes none off; then `Stack::settle` takes off those that it came past, unless it
//! came to an item that waits.

ghost use Rattle.std.specs.Prelude.{◌≡◌, reverse};
ghost use Rattle.model_machine.specs.Operands.{code_operand, flag_operand, offset_operand, limit_operand, mode_operand, bytes_operand};
ghost use Rattle.model_machine.specs.Operands.{string_operand, int_operand, count_operand, element_operand, operands_by, two_operands};
ghost use Rattle.model_machine.specs.Operands.{elements_operand, byte_strings_operand};
ghost use Rattle.stack_items.specs.Looks.{ComesPast, Looks, LooksUnlessFull, Passes};

use crate::fault::StackFault;
use crate::kinds::{
    bytes_of, code_in, count_in, flag_of, int_of, limit_in, mode_in, offset_in, string_of,
};
use crate::stack::top_of;
use fdb_tuple::Elem;
use key_bytes::Bytes;
use model_database::Mode;
use model_machine::{Item, ItemValue};
use std::marker::Model;

/// A look at the operands of an operation, from the top of a stack on. It takes no item off. Contracts see the items of the
/// stack and how many the look came past.
///
/// Each call looks at the next item. Where there is none it answers Underflow; where the item is of another kind it
/// answers Operand, and the look came past it; where the item waits it answers Waits. None takes memory but
/// `copied_bytes`.
#[derive(Debug, Drop)]
pub struct Operands<'a> {
    items: &'a [Item],
    popped: usize,
}

impl<'a> Model for Operands<'a> {
    ghost use Rattle.std.specs.Prelude.{◌≤◌, length, reverse};
    ghost use Rattle.stack_items.specs.Looks.{Look};

    ghost Value = { Look };

    ghost use Rattle.model_machine.specs.contracts.Item as item;
    ghost use Rattle.std.specs.Coded.{codes};

    ghost coded = { Prim.hlevel (codes, item.the_row.coded) };

    ghost view = { λ operands. record { whole = reverse operands.items.now; popped = operands.popped } };

    ghost invariant = { λ operands. operands.popped ≤ length operands.items.now };
}

impl<'a> Operands<'a> {
    // A look at these items, oldest first, that came past none.
    pub(crate) fn new(items: &'a [Item]) -> Operands<'a>
        ensures { result ≡ record { whole = reverse items.now; popped = 0 } }
    {
        Operands { items, popped: 0 }
    }

    /// Returns how many items the look came past.
    pub fn popped(&self) -> usize
        ensures { result ≡ self.now.popped }
    {
        self.popped
    }

    /// Looks at the next operand: a byte string, or the UTF-8 of a Unicode string.
    pub fn bytes(&mut self) -> Result<&'a [u8], StackFault>
        ensures { Looks (λ bytes. bytes.now) result bytes_operand self.old self.new }
    {
        bytes_of(self.element()?).ok_or(StackFault::Operand)
    }

    /// Copies the next operand: a byte string, or the UTF-8 of a Unicode string. It answers NoMemory where
    /// there is none for the copy.
    pub fn copied_bytes(&mut self) -> Result<Bytes, StackFault>
        ensures { LooksUnlessFull (λ bytes. bytes) result bytes_operand self.old self.new }
    {
        match self.element()? {
            Elem::Bytes(bytes) => Ok(bytes.copy()?),
            Elem::Text(text) => Ok(text.copy()?.into_bytes()),
            _ => Err(StackFault::Operand),
        }
    }

    /// Looks at the next operand: a code, an integer from 0 to 65,535.
    pub fn code(&mut self) -> Result<u16, StackFault>
        ensures { Looks (λ code. code) result code_operand self.old self.new }
    {
        int_of(self.element()?)
            .and_then(count_in)
            .and_then(code_in)
            .ok_or(StackFault::Operand)
    }

    /// Looks at the next operand: a flag, an integer that is true where it isn't 0, or a boolean.
    pub fn flag(&mut self) -> Result<bool, StackFault>
        ensures { Looks (λ flag. flag) result flag_operand self.old self.new }
    {
        flag_of(self.element()?).ok_or(StackFault::Operand)
    }

    /// Looks at the next operand: an offset, an integer of 32 bits with a sign.
    pub fn offset(&mut self) -> Result<i32, StackFault>
        ensures { Looks (λ offset. offset) result offset_operand self.old self.new }
    {
        int_of(self.element()?)
            .and_then(offset_in)
            .ok_or(StackFault::Operand)
    }

    /// Looks at the next operand: a limit, an integer from 0 to 2^31 - 1.
    pub fn limit(&mut self) -> Result<u32, StackFault>
        ensures { Looks (λ limit. limit) result limit_operand self.old self.new }
    {
        int_of(self.element()?)
            .and_then(count_in)
            .and_then(limit_in)
            .ok_or(StackFault::Operand)
    }

    /// Looks at the next operand: a streaming mode by its number, from -2 to 4 (API reference,
    /// "FDBStreamingMode").
    pub fn mode(&mut self) -> Result<Mode, StackFault>
        ensures { Looks (λ mode. mode) result mode_operand self.old self.new }
    {
        int_of(self.element()?)
            .and_then(mode_in)
            .ok_or(StackFault::Operand)
    }

    // A byte string or a Unicode string, as it is.
    pub(crate) fn string(&mut self) -> Result<&'a Elem, StackFault>
        ensures { Looks (λ string. string.now) result string_operand self.old self.new }
    {
        string_of(self.element()?).ok_or(StackFault::Operand)
    }

    /// Looks at the next operand: an integer.
    pub fn int(&mut self) -> Result<i128, StackFault>
        ensures { Looks (λ number. number) result int_operand self.old self.new }
    {
        int_of(self.element()?).ok_or(StackFault::Operand)
    }

    // Two integers.
    pub(crate) fn two_ints(&mut self) -> Result<(i128, i128), StackFault>
        ensures { Looks (λ numbers. numbers) result (two_operands int_operand int_operand) self.old self.new }
    {
        let first = self.int()?;
        let second = self.int()?;
        Ok((first, second))
    }

    /// Looks at the next operand: an integer from 0 upward.
    pub fn count(&mut self) -> Result<u128, StackFault>
        ensures { Looks (λ count. count) result count_operand self.old self.new }
    {
        int_of(self.element()?)
            .and_then(count_in)
            .ok_or(StackFault::Operand)
    }

    // Comes past two byte strings.
    pub(crate) fn pass_two_bytes(&mut self) -> Result<(), StackFault>
        ensures { Passes result (two_operands bytes_operand bytes_operand) self.old self.new }
    {
        self.bytes()?;
        self.bytes()?;
        Ok(())
    }

    // Comes past a count and so many items.
    pub(crate) fn pass_tuple(&mut self) -> Result<(), StackFault>
        ensures { Passes result elements_operand self.old self.new }
    {
        let count = self.count()?;
        self.pass_elements(count)
    }

    // Comes past so many items.
    fn pass_elements(&mut self, count: u128) -> Result<(), StackFault>
        ensures { Passes result (operands_by element_operand count) self.old self.new }
    {
        for _passed in 0..count {
            self.element()?;
        }
        Ok(())
    }

    // Comes past a byte string, and then a count and so many items.
    pub(crate) fn pass_prefixed_tuple(&mut self) -> Result<(), StackFault>
        ensures { Passes result (two_operands bytes_operand elements_operand) self.old self.new }
    {
        self.bytes()?;
        self.pass_tuple()
    }

    // Comes past a count and so many byte strings.
    pub(crate) fn pass_byte_strings(&mut self) -> Result<(), StackFault>
        ensures { Passes result byte_strings_operand self.old self.new }
    {
        let count = self.count()?;
        self.pass_bytes(count)
    }

    // Comes past so many byte strings.
    fn pass_bytes(&mut self, count: u128) -> Result<(), StackFault>
        ensures { Passes result (operands_by bytes_operand count) self.old self.new }
    {
        for _passed in 0..count {
            self.bytes()?;
        }
        Ok(())
    }

    /// Looks at the next operand: an element of any kind.
    pub fn element(&mut self) -> Result<&'a Elem, StackFault>
        ensures { Looks (λ element. element.now) result element_operand self.old self.new }
    {
        let item = self.next().ok_or(StackFault::Underflow)?;
        match &item.value {
            ItemValue::Known(element) => Ok(element),
            ItemValue::Waits(life) => Err(StackFault::Waits { life: *life }),
        }
    }

    // The next item, if there is one, which the look comes past.
    fn next(&mut self) -> Option<&'a Item>
        ensures { ComesPast result self.old self.new }
    {
        let left = self.items.len() - self.popped;
        let item = top_of(&self.items[..left])?;
        self.popped += 1;
        Some(item)
    }
}
