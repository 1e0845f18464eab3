//! Writes: each is refused by its code, or kept.

ghost use Rattle.std.specs.Prelude.{◌≡◌, false, Some, IfOk, OnOk, OnErr};
ghost use Rattle.model_database.specs.Atomics.{atomic_named};
ghost use Rattle.model_database.specs.Databases as database;
ghost use Rattle.model_database.specs.Transactions as rules;
ghost use Rattle.txn_calls.specs.Accesses.{StandsOn, StandsWritten, Writes, WritesNamed};

use crate::txn::Txn;
use atomic_ops::from_name;
use fdb_calls::TrFault;
use key_bytes::KeyRange;
use model_database::{Api, AtomicOp, Code, INVALID_MUTATION_TYPE, SIZE_LIMIT};
use std::alloc::AllocError;
use txn_parts::{clear_code, op_code, phase_code, range_code, set_code};

// How many bytes a range counts: those of both its ends.
pub(crate) fn range_size(range: &KeyRange) -> u64
    ensures { result ≡ rules.range_size range.now }
{
    range.begin.as_slice().len() as u64 + range.end.as_slice().len() as u64
}

// The size after some bytes more, counted no further than one past its limit.
pub(crate) fn grown(size: u64, bytes: u64) -> u64
    ensures { result ≡ rules.grown size bytes }
{
    size.saturating_add(bytes).min(SIZE_LIMIT + 1)
}

// The additions: each keeps a mutation that no check refuses, and counts its bytes. After a refusal all is as before.
impl Txn {
    fn add_set(&mut self, key: &[u8], value: &[u8]) -> Result<(), AllocError>
        ensures ok { OnOk result (StandsWritten self.old self.new (database.Set key.now value.now)) }
        ensures err { OnErr result (StandsOn self.old self.new) }
    {
        self.adds_conflict.reserve(1)?;
        self.edits.set(key, value)?;
        self.adds_conflict.push(!self.skips_write_conflict).unwrap();
        self.skips_write_conflict = false;
        self.size = grown(self.size, key.len() as u64 + value.len() as u64);
        Ok(())
    }

    fn add_clear(&mut self, key: &[u8]) -> Result<(), AllocError>
        ensures ok { OnOk result (StandsWritten self.old self.new (database.Clear key.now)) }
        ensures err { OnErr result (StandsOn self.old self.new) }
    {
        self.adds_conflict.reserve(1)?;
        self.edits.clear(key)?;
        self.adds_conflict.push(!self.skips_write_conflict).unwrap();
        self.skips_write_conflict = false;
        self.size = grown(self.size, 2 * key.len() as u64 + 1);
        Ok(())
    }

    fn add_clear_range(&mut self, range: &KeyRange) -> Result<(), AllocError>
        ensures ok { OnOk result (StandsWritten self.old self.new (database.ClearRange range.now.begin range.now.end)) }
        ensures err { OnErr result (StandsOn self.old self.new) }
    {
        self.adds_conflict.reserve(1)?;
        self.edits.clear_range(range)?;
        self.adds_conflict.push(!self.skips_write_conflict).unwrap();
        self.skips_write_conflict = false;
        self.size = grown(self.size, range_size(range));
        Ok(())
    }

    fn add_atomic(&mut self, op: AtomicOp, key: &[u8], operand: &[u8]) -> Result<(), AllocError>
        requires { rules.lacks_room op key.now operand.now ≡ false }
        ensures ok { OnOk result (StandsWritten self.old self.new (database.Atomic op key.now operand.now)) }
        ensures err { OnErr result (StandsOn self.old self.new) }
    {
        self.adds_conflict.reserve(1)?;
        if op.is_versionstamped() {
            self.edits.stamp(op, key, operand)?;
        } else {
            self.edits.atomic(op, key, operand)?;
        }
        self.adds_conflict.push(!self.skips_write_conflict).unwrap();
        self.skips_write_conflict = false;
        self.size = grown(self.size, key.len() as u64 + operand.len() as u64);
        Ok(())
    }
}

impl Txn {
    /// Sets a key.
    pub fn set(&mut self, key: &[u8], value: &[u8]) -> Result<(), TrFault>
        ensures { Writes result self.old self.new (rules.set_code self.old.phase key.now value.now) (database.Set key.now value.now) }
    {
        if let Some(code) = set_code(self.phase, key, value) {
            return Err(TrFault::Code(code));
        }
        Ok(self.add_set(key, value)?)
    }

    /// Clears a key.
    pub fn clear(&mut self, key: &[u8]) -> Result<(), TrFault>
        ensures { Writes result self.old self.new (rules.clear_code self.old.phase key.now) (database.Clear key.now) }
    {
        if let Some(code) = clear_code(self.phase, key) {
            return Err(TrFault::Code(code));
        }
        Ok(self.add_clear(key)?)
    }

    /// Clears the keys of a range.
    pub fn clear_range(&mut self, range: &KeyRange) -> Result<(), TrFault>
        ensures { Writes result self.old self.new (rules.range_code self.old.phase range.now.begin range.now.end)
            (database.ClearRange range.now.begin range.now.end) }
    {
        if let Some(code) = range_code(self.phase, range) {
            return Err(TrFault::Code(code));
        }
        Ok(self.add_clear_range(range)?)
    }

    /// Writes an atomic operation.
    pub fn atomic(&mut self, op: AtomicOp, key: &[u8], operand: &[u8]) -> Result<(), TrFault>
        ensures { Writes result self.old self.new (rules.op_code self.old.phase op key.now operand.now) (database.Atomic op key.now operand.now) }
    {
        if let Some(code) = op_code(self.allocator(), self.phase, op, key, operand)? {
            return Err(TrFault::Code(code));
        }
        Ok(self.add_atomic(op, key, operand)?)
    }

    /// Writes the atomic operation that a name means under an API version.
    pub fn named_atomic(
        &mut self,
        api: Api,
        name: &[u8],
        key: &[u8],
        operand: &[u8],
    ) -> Result<(), TrFault>
        ensures { WritesNamed result self.old self.new (rules.atomic_code api self.old.phase name.now key.now operand.now)
            (atomic_named api name.now) key.now operand.now }
    {
        if let Some(code) = phase_code(self.phase) {
            return Err(TrFault::Code(code));
        }
        match from_name(name, api) {
            Some(op) => self.atomic(op, key, operand),
            None => Err(TrFault::Code(Code(INVALID_MUTATION_TYPE))),
        }
    }
}
