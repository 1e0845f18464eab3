//! The end of a life, and the next one.

ghost use Rattle.std.specs.Prelude.{◌≡◌, []};
ghost use Rattle.model_database.specs.Transactions as rules;
ghost use Rattle.fdb_calls.specs.Calling.{on_error_called};
ghost use Rattle.txn_calls.specs.Judging.{Handled};
ghost use Rattle.txn_calls.specs.Stands.{StandsFor};

use crate::txn::Txn;
use conflict_ranges::RangeSet;
use model_database::{Code, Phase, TRANSACTION_CANCELLED};
use std::alloc::Global;

// Of so many mutations at most the room stays for those of the next life.
const FEW: usize = 16;

// Takes all flags away. Room for a few stays, and of more all is given back.
fn take_away(flags: &mut Vec<bool>)
    ensures { flags.new.items ≡ [] }
{
    if flags.len() > FEW {
        *flags = Vec::new(*flags.allocator());
    } else {
        flags.clear();
    }
}

// Takes all keys away. A set without a key, as most transactions have, is left as it lies.
fn take_keys_away(keys: &mut RangeSet, alloc: Global)
    ensures { keys.new ≡ [] }
{
    if !keys.is_empty() {
        *keys = RangeSet::new(alloc);
    }
}

// Whether a transaction may be tried again after an error of this code.
fn is_retryable(code: Code) -> bool
    ensures { result ≡ rules.is_retryable code.0 }
{
    matches!(code.0, 1007 | 1009 | 1020 | 1021 | 1037)
}

impl Txn {
    /// Begins anew, with a life of this number (`fdb_transaction_reset`). Room for a few mutations stays.
    pub fn reset(&mut self, life: u64)
        ensures { StandsFor self.new (rules.fresh life) }
    {
        let alloc = self.allocator();
        self.life = life;
        self.version = None;
        self.edits.reset();
        take_away(&mut self.adds_conflict);
        take_keys_away(&mut self.read_ranges, alloc);
        take_keys_away(&mut self.write_ranges, alloc);
        self.size = 0;
        self.skips_write_conflict = false;
        self.phase = Phase::Active;
    }

    /// Lets each further call of this life fail (`fdb_transaction_cancel`). A life that a commit was tried in
    /// stays as it is.
    pub fn cancel(&mut self)
        ensures { (t : rules.Transaction) → StandsFor self.old t → StandsFor self.new (rules.cancelled t) }
    {
        if !matches!(self.phase, Phase::Tried(_)) {
            self.phase = Phase::Cancelled;
        }
    }

    /// Begins anew after an error that may be retried, with a life of this number (`fdb_transaction_on_error`).
    /// Another error is answered with its own code, and cancels; a cancelled life answers 1025.
    pub fn on_error(&mut self, code: Code, life: u64) -> Result<(), Code>
        ensures { (t : rules.Transaction) → StandsFor self.old t → Handled result self.new (on_error_called life t code) }
    {
        if self.phase == Phase::Cancelled {
            return Err(Code(TRANSACTION_CANCELLED));
        }
        if is_retryable(code) {
            self.reset(life);
            return Ok(());
        }
        self.phase = Phase::Cancelled;
        Err(code)
    }
}
