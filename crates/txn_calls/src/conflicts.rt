//! Read and write conflict ranges that are added to a transaction.

ghost use Rattle.std.specs.Prelude.{◌≡◌, ◌||◌, ◌&&◌, not, ℕ, List, length, nat_lt, OnOk, OnErr};
ghost use Rattle.key_bytes.specs.Keys.{key_lt};
ghost use Rattle.key_bytes.specs.Ranges.{has};
ghost use Rattle.model_database.specs.States.{covers};
ghost use Rattle.fdb_calls.specs.declared.Reply.TheVariants as reply;
ghost use Rattle.fdb_calls.specs.Calling.{no_write_conflict_called, read_conflict_called, write_conflict_called};
ghost use Rattle.txn_calls.specs.Accesses.{Calls};

use crate::txn::Txn;
use crate::writing::{grown, range_size};
use conflict_ranges::RangeSet;
use fdb_calls::TrFault;
use key_bytes::KeyRange;
use std::alloc::AllocError;
use txn_parts::{phase_code, range_code};

// Adds a range, unless it is empty: then the set stays as it is.
fn add_filled(ranges: &mut RangeSet, range: &KeyRange) -> Result<(), AllocError>
    ensures ok { OnOk result ((key : List ℕ) → covers ranges.new key ≡ (covers ranges.old key || has range.now key)) }
    ensures bare { OnOk result (nat_lt (length ranges.new) 1
        ≡ (nat_lt (length ranges.old) 1 && not (key_lt range.now.begin range.now.end))) }
    ensures err { OnErr result (ranges.new ≡ ranges.old) }
{
    if range.is_empty() {
        return Ok(());
    }
    ranges.add(range)
}

impl Txn {
    /// Adds a read conflict range.
    pub fn read_conflict(&mut self, range: &KeyRange) -> Result<(), TrFault>
        ensures { Calls (λ _. reply.Done) result self.old self.new (λ t. read_conflict_called t range.now) }
    {
        if let Some(code) = range_code(self.phase, range) {
            return Err(TrFault::Code(code));
        }
        self.read_ranges.add(range)?;
        self.size = grown(self.size, range_size(range));
        Ok(())
    }

    /// Adds a write conflict range, unless it is empty.
    pub fn write_conflict(&mut self, range: &KeyRange) -> Result<(), TrFault>
        ensures { Calls (λ _. reply.Done) result self.old self.new (λ t. write_conflict_called t range.now) }
    {
        if let Some(code) = range_code(self.phase, range) {
            return Err(TrFault::Code(code));
        }
        add_filled(&mut self.write_ranges, range)?;
        self.size = grown(self.size, range_size(range));
        Ok(())
    }

    /// Lets the next write add no write conflict range.
    #[tactic(auto, unfolding(model_database::specs::Transactions::phase_code))]
    pub fn no_write_conflict(&mut self) -> Result<(), TrFault>
        ensures { Calls (λ _. reply.Done) result self.old self.new no_write_conflict_called }
    {
        if let Some(code) = phase_code(self.phase) {
            return Err(TrFault::Code(code));
        }
        self.skips_write_conflict = true;
        Ok(())
    }
}
