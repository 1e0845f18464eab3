//! A transaction on a store, by its calls.

ghost use Rattle.std.specs.Prelude.{◌≡◌, ◌^◌, ◌<◌, ℕ, pos, true, false, List, IfOk, OnOk};
ghost use Rattle.std.specs.List.{All};
ghost use Rattle.model_database.specs.declared.Phase.TheVariants as phase;
ghost use Rattle.model_database.specs.Databases.{do_all};
ghost use Rattle.model_database.specs.Histories.{Setting};
ghost use Rattle.model_database.specs.Modes.{lacks_limit};
ghost use Rattle.model_database.specs.Reads as read;
ghost use Rattle.model_database.specs.States.{all_filled, covers, state_under, is_unmodified};
ghost use Rattle.model_database.specs.Transactions.{Transaction, write_conflicts_of, writes_of, with_phase};
ghost use Rattle.fdb_calls.specs.declared.Reply.TheVariants as reply;
ghost use Rattle.fdb_calls.specs.Answers.{Answered};
ghost use Rattle.fdb_calls.specs.Calling.{read_called, set_called, clear_called, clear_range_called, atomic_called};
ghost use Rattle.fdb_calls.specs.Calling.{read_conflict_called, write_conflict_called, no_write_conflict_called, read_version_called, set_read_version_called};
ghost use Rattle.version_store.specs.Changed.{changed};
ghost use Rattle.version_store.specs.Versions.{at, last_of};
ghost use Rattle.txn_calls.specs.Judging.{IsLow, Judged, Promises};
ghost use Rattle.txn_calls.specs.Stands.{StandsFor, Keeps};

use conflict_ranges::{RangeSet, WriteIndex};
use fdb_calls::{Tr, TrFault};
use key_bytes::{Bytes, Key, KeyRange, Pairs};
use model_database::{AtomicOp, Code, Mode, RangeOptions, Selector, Tried};
use std::alloc::AllocError;
use txn_calls::{Txn, Verdict};
use version_store::{Changes, Store};

/// A transaction on a store and the index of its writes: its reads see the store's versions, and its commit is judged by the
/// index.
#[derive(Drop)]
pub struct TxnOn<'a> {
    pub txn: &'a mut Txn,
    pub store: &'a Store,
    pub index: &'a WriteIndex,
}

impl TxnOn<'_> {
    /// Asks the checks of a commit, and answers the first that fails by its code: 2101 where the mutations have too many bytes,
    /// 1007 where the read version is below the oldest one, 1009 where it is above the last one, 1020 exactly where a commit after it wrote a key of the transaction's
    /// read conflict ranges; then whether there is anything to write. A transaction that goes on to its version takes it.
    pub fn judge(&mut self) -> Result<Verdict, TrFault>
        ensures verdict { (setting : Setting) (t : Transaction) → StandsFor self.old.txn.now t → Keeps self.old.store.now self.old.index.now setting
            → Judged result (StandsFor self.new.txn.now) setting t }
        ensures active { OnOk result (self.new.txn.now.phase ≡ phase.Active) }
        ensures same_txn { self.new.txn.ghost_name ≡ self.old.txn.ghost_name }
        ensures same_store { self.new.store ≡ self.old.store }
        ensures same_index { self.new.index ≡ self.old.index }
    {
        self.txn.judge(self.store, self.index)
    }

    /// Returns the changes that lead from the map at the store's last version to that map after the transaction's
    /// mutations, where this is the commit's versionstamp. They name only keys that a mutation touches.
    pub fn changes(&self, stamp: &[u8; 10]) -> Result<Changes, AllocError>
        ensures leads { IfOk result (λ changes. (t : Transaction) → StandsFor self.now.txn.now t
            → changed changes (at self.now.store.now (last_of self.now.store.now))
            ≡ do_all (all_filled stamp.now (writes_of t)) (at self.now.store.now (last_of self.now.store.now))) }
        ensures only { IfOk result (λ changes. (t : Transaction) → StandsFor self.now.txn.now t
            → All (λ change. is_unmodified (state_under (all_filled stamp.now (writes_of t)) change.0) ≡ false) changes) }
    {
        self.txn.changes(self.store, stamp)
    }

    /// Returns the write conflict ranges of the transaction's commit, where this is its versionstamp.
    pub fn write_ranges(&self, stamp: &[u8; 10]) -> Result<RangeSet, AllocError>
        ensures { IfOk result (λ ranges. (t : Transaction) (key : List ℕ) → StandsFor self.now.txn.now t
            → covers ranges key ≡ covers (write_conflicts_of stamp.now t) key) }
    {
        self.txn.write_conflict_keys(stamp)
    }

    /// Notes what became of a commit.
    pub fn tried(&mut self, tried: Tried)
        requires active { self.old.txn.now.phase ≡ phase.Active }
        requires low { IsLow tried }
        ensures tried { (t : Transaction) → StandsFor self.old.txn.now t → StandsFor self.new.txn.now (with_phase t (phase.Tried tried)) }
        ensures same_txn { self.new.txn.ghost_name ≡ self.old.txn.ghost_name }
        ensures same_store { self.new.store ≡ self.old.store }
        ensures same_index { self.new.index ≡ self.old.index }
    {
        self.txn.tried(tried);
    }
}

impl TxnOn<'_> {
    /// Returns the key that `selector` means among those that the transaction sees (`fdb_transaction_get_key`). A read by snapshot
    /// has the same answer, and adds no read conflict range.
    pub fn get_key(&mut self, selector: &Selector, snapshot: bool) -> Result<Key, TrFault>
        ensures answer { (setting : Setting) (t : Transaction) → StandsFor self.old.txn.now t → Keeps self.old.store.now self.old.index.now setting
            → Answered reply.KeyIs result (StandsFor self.new.txn.now) t (read_called setting t false snapshot (read.GetKey selector.now)) }
        ensures same_txn { self.new.txn.ghost_name ≡ self.old.txn.ghost_name }
        ensures same_store { self.new.store ≡ self.old.store }
        ensures same_index { self.new.index ≡ self.old.index }
    {
        self.txn.get_key(self.store, selector, snapshot)
    }

    /// Returns the pairs between the keys that two selectors mean, up to `options.limit`, or all where it is 0, in the
    /// order of their keys, or in the other order where `options.reverse` holds (`fdb_transaction_get_range`). 2210
    /// where the mode is `Exact` and the limit is 0; else the mode changes nothing.
    pub fn get_range(
        &mut self,
        begin: &Selector,
        end: &Selector,
        options: RangeOptions,
        snapshot: bool,
    ) -> Result<Pairs, TrFault>
        ensures answer { (setting : Setting) (t : Transaction) → StandsFor self.old.txn.now t → Keeps self.old.store.now self.old.index.now setting
            → Answered reply.PairsAre result (StandsFor self.new.txn.now) t
            (read_called setting t (lacks_limit options.mode options.limit) snapshot
            (read.GetRange begin.now end.now options.limit options.reverse)) }
        ensures same_txn { self.new.txn.ghost_name ≡ self.old.txn.ghost_name }
        ensures same_store { self.new.store ≡ self.old.store }
        ensures same_index { self.new.index ≡ self.old.index }
    {
        self.txn
            .get_range(self.store, begin, end, options, snapshot)
    }

    /// Returns the pairs between two keys, as `get_range` does between the keys that two selectors mean.
    pub fn get_key_range(
        &mut self,
        range: &KeyRange,
        options: RangeOptions,
        snapshot: bool,
    ) -> Result<Pairs, TrFault>
        ensures answer { (setting : Setting) (t : Transaction) → StandsFor self.old.txn.now t → Keeps self.old.store.now self.old.index.now setting
            → Answered reply.PairsAre result (StandsFor self.new.txn.now) t
            (read_called setting t (lacks_limit options.mode options.limit) snapshot
            (read.GetKeyRange range.now.begin range.now.end options.limit options.reverse)) }
        ensures same_txn { self.new.txn.ghost_name ≡ self.old.txn.ghost_name }
        ensures same_store { self.new.store ≡ self.old.store }
        ensures same_index { self.new.index ≡ self.old.index }
    {
        self.txn.get_key_range(self.store, range, options, snapshot)
    }
}

impl TxnOn<'_> {
    /// Adds a read conflict range, as if its keys had been read (`fdb_transaction_add_conflict_range`).
    pub fn read_conflict(&mut self, range: &KeyRange) -> Result<(), TrFault>
        ensures answer { (t : Transaction) → StandsFor self.old.txn.now t
            → Answered (λ _. reply.Done) result (StandsFor self.new.txn.now) t (read_conflict_called t range.now) }
        ensures same_txn { self.new.txn.ghost_name ≡ self.old.txn.ghost_name }
        ensures same_store { self.new.store ≡ self.old.store }
        ensures same_index { self.new.index ≡ self.old.index }
    {
        self.txn.read_conflict(range)
    }

    /// Adds a write conflict range, as if its keys were written (`fdb_transaction_add_conflict_range`).
    pub fn write_conflict(&mut self, range: &KeyRange) -> Result<(), TrFault>
        ensures answer { (t : Transaction) → StandsFor self.old.txn.now t
            → Answered (λ _. reply.Done) result (StandsFor self.new.txn.now) t (write_conflict_called t range.now) }
        ensures same_txn { self.new.txn.ghost_name ≡ self.old.txn.ghost_name }
        ensures same_store { self.new.store ≡ self.old.store }
        ensures same_index { self.new.index ≡ self.old.index }
    {
        self.txn.write_conflict(range)
    }

    /// Returns the read version, which is taken where there is none; it may be above the last one
    /// (`fdb_transaction_get_read_version`).
    pub fn read_version(&mut self) -> Result<u64, TrFault>
        ensures answer { (setting : Setting) (t : Transaction) → StandsFor self.old.txn.now t → Keeps self.old.store.now self.old.index.now setting
            → Answered (λ version. reply.Version (pos version)) result (StandsFor self.new.txn.now) t (read_version_called setting t) }
        ensures low { IfOk result (λ version. version < 2 ^ 63) }
        ensures same_txn { self.new.txn.ghost_name ≡ self.old.txn.ghost_name }
        ensures same_store { self.new.store ≡ self.old.store }
        ensures same_index { self.new.index ≡ self.old.index }
    {
        self.txn.read_version(self.store)
    }

    /// Sets the read version (`fdb_transaction_set_read_version`): 2010 where it is set or taken, and 2011 where the version
    /// isn't above 0.
    pub fn set_read_version(&mut self, version: i64) -> Result<(), TrFault>
        ensures answer { (t : Transaction) → StandsFor self.old.txn.now t
            → Answered (λ _. reply.Done) result (StandsFor self.new.txn.now) t (set_read_version_called t version) }
        ensures same_txn { self.new.txn.ghost_name ≡ self.old.txn.ghost_name }
        ensures same_store { self.new.store ≡ self.old.store }
        ensures same_index { self.new.index ≡ self.old.index }
    {
        self.txn.set_read_version(version)
    }

    /// Returns the life whose commit's versionstamp is promised (`fdb_transaction_get_versionstamp`); 1025
    /// exactly where it was cancelled, and 2017 exactly where a commit of it was tried.
    pub fn promise(&self) -> Result<u64, Code>
        ensures { Promises result self.now.txn.now }
    {
        self.txn.promise()
    }

    /// Returns the transaction's read conflict ranges, as ranges that are not empty, lie apart and rise.
    pub fn read_ranges(&self) -> &RangeSet
        ensures { result.now ≡ self.now.txn.now.read_ranges }
    {
        self.txn.read_ranges()
    }
}

impl Tr for TxnOn<'_> {
    ghost use Rattle.std.proofs.Common.{refl, ◌∙◌};
    ghost use Rattle.txn_calls.specs.StandLaws.{stands_granted};

    ghost stands = { λ on setting t. StandsFor on.txn.now t × Keeps on.store.now on.index.now setting };

    ghost takes = { λ _. true };

    ghost same = { λ one two. (one.txn.ghost_name ≡ two.txn.ghost_name) × (one.store.now ≡ two.store.now)
        × (one.index.now ≡ two.index.now) };

    fn get(&mut self, key: &[u8], snapshot: bool) -> Result<Option<Bytes>, TrFault> {
        let key = Bytes::from_slice(self.txn.allocator(), key)?;
        self.txn.get(self.store, &key, snapshot)
    }

    fn range(
        &mut self,
        range: &KeyRange,
        limit: u32,
        reverse: bool,
        snapshot: bool,
    ) -> Result<Pairs, TrFault> {
        let options = RangeOptions {
            limit,
            reverse,
            mode: Mode::WantAll,
        };
        self.txn.get_key_range(self.store, range, options, snapshot)
    }

    fn set(&mut self, key: &[u8], value: &[u8]) -> Result<(), TrFault> {
        self.txn.set(key, value)
    }

    fn clear(&mut self, key: &[u8]) -> Result<(), TrFault> {
        self.txn.clear(key)
    }

    fn clear_range(&mut self, range: &KeyRange) -> Result<(), TrFault> {
        self.txn.clear_range(range)
    }

    fn atomic(&mut self, op: AtomicOp, key: &[u8], operand: &[u8]) -> Result<(), TrFault> {
        self.txn.atomic(op, key, operand)
    }

    fn no_write_conflict(&mut self) -> Result<(), TrFault> {
        self.txn.no_write_conflict()
    }

    fn write_conflict_key(&mut self, key: &[u8]) -> Result<(), TrFault> {
        let alloc = self.txn.allocator();
        let range = KeyRange::single(alloc, &Bytes::from_slice(alloc, key)?)?;
        self.txn.write_conflict(&range)
    }

    ghost takes_add = { refl };

    ghost same_itself = { λ one. (refl, refl, refl) };

    ghost same_still = { λ one two three first second. (first.0 ∙ second.0, first.1 ∙ second.1, first.2 ∙ second.2) };

    ghost granted_still = { λ on setting t space number from stands.
        (stands_granted on.txn.now t space number from stands.0, stands.1) };
}
