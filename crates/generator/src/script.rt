//! Instructions, packed, one after the other.

ghost use Rattle.std.specs.Prelude.{◌≡◌, ◌∷◌, [], ◌++◌, OnOk};
ghost use Rattle.fdb_tuple.specs.Listed.{tuple_of};
ghost use Rattle.fdb_tuple.specs.Spelling.{spelling};
ghost use Rattle.generator.specs.Generated.{push, bare, packed_instruction};

use fdb_tuple::{Elem, Text, pack_element_into};
use key_bytes::Bytes;
use std::alloc::{AllocError, Global};
use std::marker::Model;

// What an instruction that pushes an element begins with: its name, packed.
const PUSH: &[u8] = b"\x02PUSH\x00";

// Packed instructions, in their order. Contracts see the list of them.
#[derive(Debug, Drop)]
pub(crate) struct Script {
    alloc: Global,
    packed: Vec<Bytes>,
    // Where an instruction is packed: memory that is used again for the next one.
    scratch: Vec<u8>,
}

impl Model for Script {
    ghost use Rattle.std.specs.Prelude.{ℕ, List};

    ghost Value = { List (List ℕ) };

    ghost view = { λ script. script.packed.items };
}

impl Script {
    // No instruction.
    pub(crate) fn new(alloc: Global) -> Script
        ensures { result ≡ [] }
    {
        Script {
            alloc,
            packed: Vec::new(alloc),
            scratch: Vec::new(alloc),
        }
    }

    // The packed instructions.
    pub(crate) fn as_slice(&self) -> &[Bytes]
        ensures { result.now ≡ self.now }
    {
        self.packed.as_slice()
    }

    // Adds the instruction that has its name alone.
    pub(crate) fn bare(&mut self, name: &str) -> Result<(), AllocError>
        ensures { OnOk result (self.new ≡ self.old ++ packed_instruction (bare name.now) ∷ []) }
    {
        let name = Elem::Text(Text::from_str(self.alloc, name)?);
        self.add(&[], &name)
    }

    // Adds the instruction that pushes a null.
    pub(crate) fn push_null(&mut self) -> Result<(), AllocError>
        ensures { OnOk result (self.new ≡ self.old ++ packed_instruction (push Elem.Null) ∷ []) }
    {
        self.push(&Elem::Null)
    }

    // Adds the instruction that pushes a byte string.
    pub(crate) fn push_bytes(&mut self, bytes: &[u8]) -> Result<(), AllocError>
        ensures { OnOk result (self.new ≡ self.old ++ packed_instruction (push (Elem.Bytes bytes.now)) ∷ []) }
    {
        let element = Elem::Bytes(Bytes::from_slice(self.alloc, bytes)?);
        self.push(&element)
    }

    // Adds the instruction that pushes a Unicode string.
    pub(crate) fn push_text(&mut self, text: &str) -> Result<(), AllocError>
        ensures { OnOk result (self.new ≡ self.old ++ packed_instruction (push (Elem.Text text.now)) ∷ []) }
    {
        let element = Elem::Text(Text::from_str(self.alloc, text)?);
        self.push(&element)
    }

    // Adds the instruction that pushes an integer.
    pub(crate) fn push_int(&mut self, number: i128) -> Result<(), AllocError>
        ensures { OnOk result (self.new ≡ self.old ++ packed_instruction (push (Elem.Int number)) ∷ []) }
    {
        self.push(&Elem::Int(number))
    }

    // Adds the instruction that pushes an element.
    fn push(&mut self, element: &Elem) -> Result<(), AllocError>
        ensures { OnOk result (self.new ≡ self.old ++ packed_instruction (push element.now) ∷ []) }
    {
        self.add(PUSH, element)
    }

    // Adds an instruction: what is packed of it, and behind that its last element.
    fn add(&mut self, begin: &[u8], element: &Elem) -> Result<(), AllocError>
        ensures { OnOk result (self.new ≡ self.old ++ (begin.now ++ spelling (tuple_of (element.now ∷ []))) ∷ []) }
    {
        self.scratch.clear();
        self.scratch.extend_from_slice(begin)?;
        pack_element_into(&mut self.scratch, element)?;
        let packed = Bytes::from_slice(self.alloc, self.scratch.as_slice())?;
        self.packed.push(packed)?;
        Ok(())
    }
}
