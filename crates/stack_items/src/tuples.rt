//! The operations on tuples (bindingApiTester.md, "Tuple Operations").
//!
//! The operand "tuple" is a count and then so many items, in the order popped. After Underflow or Operand the items
//! popped before the fault was judged are gone, and all others stand; after Waits, which comes exactly where the item that is
//! to be popped waits, all items stand; after NoMemory the items below the operands stand.

ghost use Rattle.std.specs.Prelude.{◌≡◌, ◌+◌, ◌^◌, ◌<◌, length, map, Err, OnOk, OnErr, IsOkUnless};
ghost use Rattle.fdb_tuple.specs.Listed.{elements_of};
ghost use Rattle.fdb_tuple.specs.Spelling.{spelling};
ghost use Rattle.fdb_tuple.specs.Stamps.{stamp_packed};
ghost use Rattle.model_machine.specs.Operands.{bytes_operand, tuple_operand, byte_strings_operand, two_operands, left_of};
ghost use Rattle.model_machine.specs.StackOperations.{tuple_pack, tuple_pack_with_versionstamp, tuple_unpack, tuple_range, tuple_sort, pushed, packed_alone, stamp_answer};
ghost use Rattle.stack_items.specs.Items.{EndsIn};
ghost use Rattle.stack_items.specs.Pops.{Does};
ghost use Rattle.stack_items.specs.Unpacked.{Unpacks, UnpacksEach};

use crate::fault::StackFault;
use crate::stack::Stack;
use fdb_tuple::{
    Elem, StampPackFault, Tuple, UnpackFault, pack, pack_element, pack_with_stamp, packed_len,
    range, unpack,
};
use key_bytes::Bytes;
use std::alloc::Global;

// A prefix and a packed tuple with fewer bytes have a place of 4 bytes behind them.
const STAMPED_LIMIT: usize = (1 << 32) - 4;

impl Stack {
    /// Pops a tuple, and pushes its packed bytes (TUPLE_PACK).
    pub fn tuple_pack(&mut self, instruction: u64) -> Result<(), StackFault>
        ensures said { Does result (tuple_pack instruction self.old) self.old self.new }
        ensures memory { result ≡ Err StackFault.NoMemory → EndsIn (left_of self.old (tuple_operand self.old)) self.new }
    {
        let tuple = self.pop_tuple()?;
        let packed = pack(self.alloc(), &tuple)?;
        self.push(Elem::Bytes(packed), instruction)
    }

    /// Pops a prefix of the kind "bytes" and a tuple, and pushes `OK` and the two packed with the place of the
    /// one incomplete versionstamp (TUPLE_PACK_WITH_VERSIONSTAMP); `ERROR: NONE` where there is none, `ERROR:
    /// MULTIPLE` where there are more. Operand comes, besides for a wrong kind, exactly where the prefix and
    /// the packed tuple have together 2^32 - 4 bytes or more.
    pub fn tuple_pack_with_versionstamp(&mut self, instruction: u64) -> Result<(), StackFault>
        ensures said { Does result (tuple_pack_with_versionstamp instruction self.old) self.old self.new }
        ensures memory { result ≡ Err StackFault.NoMemory → EndsIn (left_of self.old (two_operands bytes_operand tuple_operand self.old)) self.new }
    {
        let (prefix, tuple) = self.pop_prefixed_tuple()?;
        if prefix.len().saturating_add(packed_len(&tuple)) >= STAMPED_LIMIT {
            return Err(StackFault::Operand);
        }
        self.push_stamped(prefix.as_slice(), &tuple, instruction)
    }

    // Pushes a prefix and a tuple, packed with the place of the incomplete versionstamp, or why they aren't packed so.
    fn push_stamped(
        &mut self,
        prefix: &[u8],
        tuple: &Tuple,
        instruction: u64,
    ) -> Result<(), StackFault>
        requires { length prefix.now + length (spelling tuple.now) + 4 < 2 ^ 32 }
        ensures ok { OnOk result (self.new ≡ pushed instruction (stamp_answer (stamp_packed prefix.now tuple.now)) self.old) }
        ensures err { OnErr result (EndsIn self.old self.new) }
        ensures cause { IsOkUnless result StackFault.NoMemory }
    {
        match pack_with_stamp(self.alloc(), prefix, tuple) {
            Ok(packed) => {
                self.push_text(b"OK", instruction)?;
                self.push(Elem::Bytes(packed), instruction)
            }
            Err(StampPackFault::NoStamp) => self.push_text(b"ERROR: NONE", instruction),
            Err(StampPackFault::ManyStamps) => self.push_text(b"ERROR: MULTIPLE", instruction),
            Err(StampPackFault::NoMemory) => Err(StackFault::NoMemory),
        }
    }

    /// Pops bytes, and pushes each element of the tuple that they pack, packed alone (TUPLE_UNPACK). Operand
    /// comes exactly where they are not of the kind "bytes", or pack no tuple.
    pub fn tuple_unpack(&mut self, instruction: u64) -> Result<(), StackFault>
        ensures said { Does result (tuple_unpack instruction self.old) self.old self.new }
        ensures memory { result ≡ Err StackFault.NoMemory → EndsIn (left_of self.old (bytes_operand self.old)) self.new }
    {
        let packed = self.pop_bytes()?;
        let tuple = unpack_operand(self.alloc(), packed.as_slice())?;
        self.push_elements(&tuple, instruction)
    }

    // Pushes each element, packed alone.
    fn push_elements(&mut self, tuple: &Tuple, instruction: u64) -> Result<(), StackFault>
        ensures ok { OnOk result (self.new ≡ pushed instruction (map packed_alone (elements_of tuple.now)) self.old) }
        ensures err { OnErr result (EndsIn self.old self.new) }
        ensures cause { IsOkUnless result StackFault.NoMemory }
    {
        for element in tuple.as_slice() {
            let packed = pack_element(self.alloc(), element)?;
            self.push(Elem::Bytes(packed), instruction)?;
        }
        Ok(())
    }

    /// Pops a tuple, and pushes the begin and then the end of its range (TUPLE_RANGE).
    pub fn tuple_range(&mut self, instruction: u64) -> Result<(), StackFault>
        ensures said { Does result (tuple_range instruction self.old) self.old self.new }
        ensures memory { result ≡ Err StackFault.NoMemory → EndsIn (left_of self.old (tuple_operand self.old)) self.new }
    {
        let tuple = self.pop_tuple()?;
        let ends = range(self.alloc(), &tuple)?;
        self.push(Elem::Bytes(ends.begin), instruction)?;
        self.push(Elem::Bytes(ends.end), instruction)
    }

    /// Pops a count and so many byte strings, and pushes them in the order of the tuples that they pack, the
    /// greatest last (TUPLE_SORT); equal ones all stay. Operand comes exactly where one is not of the kind
    /// "bytes", judged as it is popped, or, after all were popped, where one packs no tuple.
    pub fn tuple_sort(&mut self, instruction: u64) -> Result<(), StackFault>
        ensures said { Does result (tuple_sort instruction self.old) self.old self.new }
        ensures memory { result ≡ Err StackFault.NoMemory → EndsIn (left_of self.old (byte_strings_operand self.old)) self.new }
    {
        let mut strings = self.pop_byte_strings()?;
        unpack_each(self.alloc(), &strings)?;
        strings.sort_unstable();
        self.push_strings(strings, instruction)
    }

    // Pushes each byte string, the last on top.
    fn push_strings(&mut self, strings: Vec<Bytes>, instruction: u64) -> Result<(), StackFault>
        ensures ok { OnOk result (self.new ≡ pushed instruction (map Elem.Bytes strings.items) self.old) }
        ensures err { OnErr result (EndsIn self.old self.new) }
        ensures cause { IsOkUnless result StackFault.NoMemory }
    {
        for string in strings {
            self.push(Elem::Bytes(string), instruction)?;
        }
        Ok(())
    }
}

// The tuple that the bytes pack; Operand where they pack none.
fn unpack_operand(alloc: Global, packed: &[u8]) -> Result<Tuple, StackFault>
    ensures { Unpacks result packed.now }
{
    match unpack(alloc, packed) {
        Ok(tuple) => Ok(tuple),
        Err(UnpackFault::NoMemory) => Err(StackFault::NoMemory),
        Err(_) => Err(StackFault::Operand),
    }
}

// Whether each byte string packs a tuple; Operand where one packs none.
fn unpack_each(alloc: Global, strings: &[Bytes]) -> Result<(), StackFault>
    ensures { UnpacksEach result strings.now }
{
    for string in strings {
        unpack_operand(alloc, string.as_slice())?;
    }
    Ok(())
}
