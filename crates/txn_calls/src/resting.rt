//! What a read leaves: the version that it took, and the read conflict ranges of its transaction since then.

ghost use Rattle.std.specs.Prelude.{option_map, ◌≡◌};
ghost use Rattle.model_database.specs.Transactions.{number_of};
ghost use Rattle.txn_calls.specs.Accesses.{Rests, is_ahead_of, is_behind_of, version_code};

use crate::txn::Txn;
use fdb_calls::TrFault;
use key_bytes::KeyRange;
use model_database::{ACCESSED_UNREADABLE, Code, FUTURE_VERSION, TRANSACTION_TOO_OLD};
use txn_parts::add_unless;
use version_store::Store;

impl Txn {
    // Whether its version is above the last one of a store.
    fn is_ahead(&self, store: &Store) -> bool
        ensures { result ≡ is_ahead_of self.now store.now }
    {
        store.last() < self.version_over(store)
    }

    // Whether its version is below the oldest one of a store.
    fn is_behind(&self, store: &Store) -> bool
        ensures { result ≡ is_behind_of self.now store.now }
    {
        self.version_over(store) < store.oldest()
    }

    // The code of a version that can't be read, where there is one. It takes no memory.
    pub(crate) fn version_code(&self, store: &Store) -> Option<Code>
        ensures { option_map number_of result ≡ version_code self.now store.now }
    {
        if self.is_behind(store) {
            Some(Code(TRANSACTION_TOO_OLD))
        } else if self.is_ahead(store) {
            Some(Code(FUTURE_VERSION))
        } else {
            None
        }
    }

    // What a read leaves that is answered on this interval: unless by snapshot, the transaction's read conflict ranges get the keys
    // of it that its mutations don't decide. 1036 where a key of the interval is unreadable. The version is taken, unless memory
    // runs out.
    pub(crate) fn rest_on(
        &mut self,
        store: &Store,
        interval: &[KeyRange],
        snapshot: bool,
    ) -> Result<(), TrFault>
        ensures { Rests result self.old self.new store.now snapshot interval.now }
    {
        let version = self.version_over(store);
        let is_readable = add_unless(snapshot, &self.edits, interval, &mut self.read_ranges)?;
        self.version = Some(version);
        if !is_readable {
            return Err(TrFault::Code(Code(ACCESSED_UNREADABLE)));
        }
        Ok(())
    }
}
