//! The writes of entries to be logged.

ghost use Rattle.std.specs.Prelude.{◌≡◌, ◌++◌};
ghost use Rattle.key_bytes.specs.Entries.{entry_of};
ghost use Rattle.model_database.specs.Databases.{Set};
ghost use Rattle.model_database.specs.Transactions as rules;
ghost use Rattle.fdb_calls.specs.Calling.{in_turn, logs};
ghost use Rattle.txn_calls.specs.Accesses.{Writes};
ghost use Rattle.txn_calls.specs.Logging.{Logs};
ghost use Rattle.txn_calls.specs.Stands.{StandsFor};

use crate::txn::Txn;
use fdb_calls::TrFault;
use key_bytes::{Bytes, Pair, Pairs};

impl Txn {
    // Writes an entry under the prefix followed by its key.
    fn log_entry(&mut self, prefix: &Bytes, entry: &Pair) -> Result<(), TrFault>
        ensures { Writes result self.old self.new
            (rules.set_code self.old.phase (prefix.now ++ entry.now.key) entry.now.value) (Set (prefix.now ++ entry.now.key) entry.now.value) }
    {
        let mut key = prefix.copy()?;
        key.extend(entry.key.as_slice())?;
        self.set(key.as_slice(), entry.value.as_slice())
    }

    /// Writes each entry under the prefix followed by its key, in their order, until a check refuses one. Where memory runs
    /// out, some of them may have been written.
    pub fn log(&mut self, prefix: &Bytes, entries: &Pairs) -> Result<(), TrFault>
        ensures { (t : rules.Transaction) → StandsFor self.old t
            → Logs result self.new (in_turn (logs prefix.now entries.now) t) }
    {
        for entry in entries.as_slice() {
            self.log_entry(prefix, entry)?;
        }
        Ok(())
    }
}
