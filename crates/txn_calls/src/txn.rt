//! A transaction.

ghost use Rattle.std.specs.Prelude.{◌≡◌, ℕ};
ghost use Rattle.model_database.specs.Histories.{Setting};
ghost use Rattle.model_database.specs.Transactions as rules;
ghost use Rattle.conflict_ranges.specs.Writes.{Index};

use conflict_ranges::RangeSet;
use model_database::Phase;
use std::alloc::Global;
use std::marker::Model;
use version_store::Store;
use write_map::WriteMap;

/// A transaction. Contracts see what it keeps, and for which transactions of the definitions it stands.
pub struct Txn {
    pub(crate) life: u64,
    pub(crate) version: Option<u64>,
    pub(crate) edits: WriteMap,
    // of each mutation whether it has a write conflict range
    pub(crate) adds_conflict: Vec<bool>,
    pub(crate) read_ranges: RangeSet,
    pub(crate) write_ranges: RangeSet,
    pub(crate) size: u64,
    pub(crate) skips_write_conflict: bool,
    pub(crate) phase: Phase,
}

// Written out, so that a caller's proof sees one call where a transaction ends, and nothing of what lies in it.
impl Drop for Txn {
    fn drop(self) {
        let Txn {
            life: _,
            version: _,
            edits: _,
            adds_conflict: _,
            read_ranges: _,
            write_ranges: _,
            size: _,
            skips_write_conflict: _,
            phase: _,
        } = self;
    }
}

impl Model for Txn {
    ghost use Rattle.std.specs.Prelude.{◌≡◌, ◌≤◌, length};
    ghost use Rattle.txn_calls.specs.Judging.{IsLowPhase, IsLowVersion};
    ghost use Rattle.txn_calls.specs.Stands.{Kept};

    ghost Value = { Kept };

    ghost view = { λ t. record {
      life = t.life;
      version = t.version;
      mutations = t.edits.mutations;
      adds_conflict = t.adds_conflict.items;
      read_ranges = t.read_ranges;
      write_ranges = t.write_ranges;
      size = t.size;
      skips_write_conflict = t.skips_write_conflict;
      phase = t.phase;
    } };

    ghost invariant = { λ t. (t.size ≤ 10000001) × (length t.adds_conflict.items ≡ length t.edits.mutations) × IsLowPhase t.phase
        × IsLowVersion t.version };
}

impl Txn {
    ghost use Rattle.txn_calls.specs.Stands.{StandsFor, Keeps};

    /// Makes a life of this number, before its first call.
    pub fn new(alloc: Global, life: u64) -> Txn
        ensures { StandsFor result (rules.fresh life) }
    {
        Txn {
            life,
            version: None,
            edits: WriteMap::new(alloc),
            adds_conflict: Vec::new(alloc),
            read_ranges: RangeSet::new(alloc),
            write_ranges: RangeSet::new(alloc),
            size: 0,
            skips_write_conflict: false,
            phase: Phase::Active,
        }
    }

    /// Makes a transaction of a new life at the last version of a store, for a call of its own.
    pub fn at_last(alloc: Global, life: u64, store: &Store) -> Txn
        ensures { (index : Index) (setting : Setting) → Keeps store.now index setting
            → StandsFor result (rules.with_version setting (rules.fresh life)) }
    {
        let mut transaction = Txn::new(alloc, life);
        transaction.version = Some(store.last());
        transaction
    }

    /// Returns the allocator that it keeps.
    pub fn allocator(&self) -> Global {
        self.edits.allocator()
    }

    /// Returns its read conflict ranges, as ranges that are not empty, lie apart and rise.
    pub fn read_ranges(&self) -> &RangeSet
        ensures { result.now ≡ self.now.read_ranges }
    {
        &self.read_ranges
    }
}
