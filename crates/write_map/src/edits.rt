//! Atomic operations on one value.

ghost use Rattle.std.specs.Prelude.{◌≡◌, ◌<◌, [], ◌∷◌, ◌++◌, Some, length, slice_get, IfOk, OnOk, OnErr};
ghost use Rattle.write_map.specs.Edits.{edit_of, edits_of};

use key_bytes::Bytes;
use model_database::AtomicOp;
use std::alloc::{AllocError, Global};
use std::marker::Model;

/// An atomic operation with its operand.
#[derive(Debug, Drop)]
pub struct AtomicEdit {
    pub op: AtomicOp,
    pub operand: Bytes,
}

/// Atomic operations on one value, in their order. Contracts see the list of operations with their operands.
#[derive(Debug, Drop)]
pub struct AtomicEdits {
    items: Vec<AtomicEdit>,
}

impl Model for AtomicEdits {
    ghost use Rattle.std.specs.Prelude.{ℕ, List};
    ghost use Rattle.model_database.specs.declared.AtomicOp.{AtomicOp};
    ghost use Rattle.write_map.specs.Edits.{edits_of};

    ghost Value = { List (AtomicOp × List ℕ) };

    ghost view = { λ edits. edits_of edits.items.items };
}

impl AtomicEdits {
    // The list of one operation.
    pub(crate) fn one(
        alloc: Global,
        op: AtomicOp,
        operand: &Bytes,
    ) -> Result<AtomicEdits, AllocError>
        ensures { IfOk result (λ edits. edits ≡ (op, operand.now) ∷ []) }
    {
        let operand = operand.copy()?;
        let mut edits = AtomicEdits {
            items: Vec::new(alloc),
        };
        edits.push(AtomicEdit { op, operand })?;
        Ok(edits)
    }

    /// Returns how many operations there are.
    pub fn len(&self) -> usize
        ensures { result ≡ length self.now }
    {
        self.items.len()
    }

    /// Returns the operation at place `i`, the first at 0.
    pub fn get(&self, i: usize) -> &AtomicEdit
        requires { i < length self.now }
        ensures { slice_get self.now i ≡ Some (edit_of result.now) }
    {
        &self.items[i]
    }

    /// Returns the operations in order, for a loop over them.
    pub fn as_slice(&self) -> &[AtomicEdit]
        ensures { edits_of result.now ≡ self.now }
    {
        self.items.as_slice()
    }

    // Adds an operation at the end. After a refusal the list is as it was.
    pub(crate) fn push(&mut self, edit: AtomicEdit) -> Result<(), AllocError>
        ensures ok { OnOk result (self.new ≡ self.old ++ edit_of edit ∷ []) }
        ensures err { OnErr result (self.new ≡ self.old) }
    {
        self.items.push(edit)?;
        Ok(())
    }
}
