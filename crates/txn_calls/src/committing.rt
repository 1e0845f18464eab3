//! The parts of a commit: its changes, its write conflict ranges, and the version that it makes.

ghost use Rattle.std.specs.Prelude.{◌≡◌, ◌+◌, ◌++◌, ◌∷◌, ◌^◌, ◌<◌, ℕ, List, true, [], if◌then◌else◌, IfOk, IfSome, OnOk, OnErr};
ghost use Rattle.std.specs.List.{All};
ghost use Rattle.model_database.specs.declared.Phase.TheVariants as phase;
ghost use Rattle.model_database.specs.declared.Tried.TheVariants as tried;
ghost use Rattle.model_database.specs.Databases.{do_all};
ghost use Rattle.model_database.specs.Histories.{Setting, grown_by, stamp_of};
ghost use Rattle.model_database.specs.Intervals.{one};
ghost use Rattle.model_database.specs.KeyByKey.{is_modified_by};
ghost use Rattle.model_database.specs.States.{all_filled, covers};
ghost use Rattle.model_database.specs.Transactions as rules;
ghost use Rattle.conflict_ranges.specs.Writes.{above, newest_at};
ghost use Rattle.fdb_calls.specs.Calling.{commit_of, next_version};
ghost use Rattle.version_store.specs.Changed.{changed};
ghost use Rattle.version_store.specs.Versions.{at, last_of};
ghost use Rattle.write_map.specs.Mutations.{mutations_of};
ghost use Rattle.txn_parts.specs.WriteConflicts.{write_conflicts_among};
ghost use Rattle.txn_calls.specs.Stands.{Keeps, StandsFor, write_conflicts_in};

use crate::txn::Txn;
use conflict_ranges::{RangeSet, WriteIndex};
use key_bytes::{Key, KeyRange};
use model_database::{DatabaseOptions, Tried};
use std::alloc::AllocError;
use txn_parts::{changes_at_last, only_set, push_ranges, push_written, stamp_of};
use version_store::{Changes, Store};
use write_map::WriteMap;

impl Txn {
    /// Returns the changes that lead from the map at the store's last version to that map after the writes, where this is the
    /// commit's versionstamp. They name only keys that a write touches.
    pub fn changes(&self, store: &Store, stamp: &[u8; 10]) -> Result<Changes, AllocError>
        ensures only { IfOk result (λ changes. All (λ change. is_modified_by (all_filled stamp.now self.now.mutations) change.0 ≡ true) changes) }
        ensures leads { IfOk result (λ changes. changed changes (at store.now (last_of store.now))
            ≡ do_all (all_filled stamp.now self.now.mutations) (at store.now (last_of store.now))) }
    {
        if self.edits.has_stamps() {
            changes_at_last(&self.edits.filled(stamp)?, store)
        } else {
            changes_at_last(&self.edits, store)
        }
    }

    // The write conflict ranges of the commit, where these are its mutations with the versionstamp filled in.
    fn write_conflicts(&self, edits: &WriteMap) -> Result<Vec<KeyRange>, AllocError>
        ensures { IfOk result (λ ranges. ranges.items ≡ write_conflicts_among edits.now.mutations self.now.adds_conflict ++ self.now.write_ranges) }
    {
        let mut ranges = Vec::new(self.allocator());
        push_written(&mut ranges, edits.mutations(), &self.adds_conflict)?;
        push_ranges(&mut ranges, &self.write_ranges)?;
        Ok(ranges)
    }

    // The write conflict ranges of the commit, where this is its versionstamp: those of its mutations in their order, and then
    // those that were added to it.
    fn write_conflicts_by(&self, stamp: &[u8; 10]) -> Result<Vec<KeyRange>, AllocError>
        ensures { IfOk result (λ ranges. ranges.items ≡ write_conflicts_in stamp.now self.now) }
    {
        if self.edits.has_stamps() {
            self.write_conflicts(&self.edits.filled(stamp)?)
        } else {
            self.write_conflicts(&self.edits)
        }
    }

    // The one key of the commit's write conflict ranges, where its only mutation sets it, and there is no other range.
    fn only_write_conflicts(&self) -> Option<&Key>
        ensures { IfSome result (λ key. (stamp : List ℕ) → write_conflicts_in stamp self.now ≡ one key.now ∷ []) }
    {
        match (
            only_set(self.edits.mutations()),
            self.adds_conflict.as_slice(),
        ) {
            (Some((key, _)), [true]) if self.write_ranges.is_empty() => Some(key),
            _ => None,
        }
    }

    // Gives the keys of the commit's write conflict ranges this version, where this is its versionstamp. After a refusal each key
    // keeps its version. One set of a key alone takes no list of ranges.
    fn add_write_conflicts(
        &self,
        index: &mut WriteIndex,
        stamp: &[u8; 10],
        version: u64,
    ) -> Result<(), AllocError>
        ensures given { OnOk result ((key : List ℕ) → newest_at index.new key
            ≡ (if covers (write_conflicts_in stamp.now self.now) key then above index.old.forgotten version else newest_at index.old key)) }
        ensures forgotten { index.new.forgotten ≡ index.old.forgotten }
        ensures same { OnErr result ((key : List ℕ) → newest_at index.new key ≡ newest_at index.old key) }
    {
        match self.only_write_conflicts() {
            Some(key) => index.install_key(key, version),
            None => index.install_all(&self.write_conflicts_by(stamp)?, version),
        }
    }

    /// Returns the keys of the write conflict ranges of the commit, where this is its versionstamp.
    pub fn write_conflict_keys(&self, stamp: &[u8; 10]) -> Result<RangeSet, AllocError>
        ensures { IfOk result (λ ranges. (key : List ℕ)
            → covers ranges key ≡ covers (write_conflicts_in stamp.now self.now) key) }
    {
        let mut keys = RangeSet::new(self.allocator());
        keys.add_all(&self.write_conflicts_by(stamp)?)?;
        Ok(keys)
    }

    /// Makes the next version of the writes, and notes it. After want of memory the transaction stands as before, and the store and
    /// the index keep what they kept.
    pub fn make_version(
        &mut self,
        store: &mut Store,
        index: &mut WriteIndex,
        options: DatabaseOptions,
    ) -> Result<(), AllocError>
        requires { last_of store.old + 1 < 2 ^ 63 }
        ensures ok { OnOk result ((setting : Setting) (t : rules.Transaction) → StandsFor self.old t → Keeps store.old index.old setting
            → setting.options ≡ options → StandsFor self.new (rules.with_phase t (phase.Tried (tried.Version (next_version setting))))
            × Keeps store.new index.new (grown_by setting (commit_of (stamp_of (next_version setting)) setting t ∷ []))) }
        ensures err { OnErr result ((setting : Setting) (t : rules.Transaction) → StandsFor self.old t → Keeps store.old index.old setting
            → StandsFor self.new t × Keeps store.new index.new setting) }
    {
        let version = store.last() + 1;
        let stamp = stamp_of(version);
        let changes = self.changes(store, &stamp)?;
        store.reserve(&changes)?;
        self.add_write_conflicts(index, &stamp, version)?;
        store.install(changes);
        let lowest = options.lowest(version);
        store.prune(lowest);
        index.forget(lowest);
        self.tried(Tried::Version(version));
        Ok(())
    }
}
