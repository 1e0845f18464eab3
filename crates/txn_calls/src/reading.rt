//! Reads: each is refused by its code, or answered from what the transaction sees at its version.

ghost use Rattle.std.specs.Prelude.{◌≡◌, ◌^◌, ◌<◌, ℕ, false, min, IfOk};
ghost use Rattle.std.specs.FinMap as finite;
ghost use Rattle.model_database.specs.States.{seen};
ghost use Rattle.model_database.specs.Histories.{Setting};
ghost use Rattle.model_database.specs.Modes.{lacks_limit};
ghost use Rattle.model_database.specs.Reads as read;
ghost use Rattle.model_database.specs.Selecting.{select};
ghost use Rattle.model_database.specs.Slices.{slice};
ghost use Rattle.version_store.specs.Versions.{at, last_of};
ghost use Rattle.txn_calls.specs.Accesses.{Admits, Reads, seen_by, version_of};
ghost use Rattle.conflict_ranges.specs.Writes.{Index};
ghost use Rattle.txn_calls.specs.Stands.{Keeps};

use crate::txn::Txn;
use fdb_calls::TrFault;
use key_bytes::{Bytes, Key, KeyRange, Pairs, is_below};
use model_database::{RangeOptions, Selector};
use range_read::{RangeFault, all, lacks_limit, resolve};
use ryw_view::{NearView, View, ViewFault};
use std::alloc::AllocError;
use txn_parts::{is_end_outside, read_code, selector_interval, slice_interval};
use version_store::Store;

impl Txn {
    // The version of its reads: the one that was taken, or else the last one.
    pub(crate) fn version_over(&self, store: &Store) -> u64
        ensures version { result ≡ version_of self.now store.now }
        ensures low { result < 2 ^ 63 }
    {
        self.version.unwrap_or(store.last())
    }

    // What it sees of a store.
    fn view<'a>(&'a self, store: &'a Store) -> View<'a>
        ensures shows { seen result.edits.now.mutations (at result.store.now result.version) ≡ seen_by self.now store.now }
        ensures mutations { result.edits.now.mutations ≡ self.now.mutations }
    {
        let version = self
            .version_over(store)
            .min(store.last())
            .max(store.oldest());
        View {
            edits: &self.edits,
            store,
            version,
        }
    }

    // The value of a key that it sees; an unreadable key has none.
    fn value(&self, store: &Store, key: &Key) -> Result<Option<Bytes>, AllocError>
        ensures { IfOk result (λ value. value ≡ finite.get (seen_by self.now store.now) key.now) }
    {
        match self.view(store).get(key) {
            Ok(value) => Ok(value),
            Err(ViewFault::Unreadable) => Ok(None),
            Err(ViewFault::NoMemory) => Err(AllocError),
        }
    }

    // The pairs of a range that it sees: a walk from the one end of the range to the other. The options lack no limit.
    fn pairs(
        &self,
        store: &Store,
        range: &KeyRange,
        options: RangeOptions,
    ) -> Result<Pairs, AllocError>
        requires { lacks_limit options.mode options.limit ≡ false }
        ensures { IfOk result (λ pairs. pairs
            ≡ slice (seen_by self.now store.now) range.now.begin range.now.end options.limit options.reverse) }
    {
        let begin = if options.reverse {
            &range.end
        } else {
            &range.begin
        };
        let view = NearView::new(self.view(store), begin, options.reverse)?;
        match all(&view, range, options) {
            Ok(pairs) => Ok(pairs),
            Err(RangeFault::NoLimit) => unreachable!(),
            Err(RangeFault::NoMemory) => Err(AllocError),
        }
    }

    // The key that a selector means among those that it sees.
    fn key(&self, store: &Store, selector: &Selector) -> Result<Key, AllocError>
        ensures { IfOk result (λ key. key ≡ select (seen_by self.now store.now) selector.now) }
    {
        resolve(self.allocator(), &self.view(store), selector)
    }
}

// Each read takes the version, unless a check refuses it before that, or memory runs out: then it changes nothing.
impl Txn {
    // Whether a read is refused before it is answered: by an earlier check, or since its version can't be read, which it takes.
    fn admit(&mut self, store: &Store, is_outside: bool, lacks_limit: bool) -> Result<(), TrFault>
        ensures { Admits result self.old self.new store.now is_outside lacks_limit }
    {
        if let Some(code) = read_code(self.phase, is_outside, lacks_limit) {
            return Err(TrFault::Code(code));
        }
        if let Some(code) = self.version_code(store) {
            self.version = Some(self.version_over(store));
            return Err(TrFault::Code(code));
        }
        Ok(())
    }

    /// Returns the value of a key (`fdb_transaction_get`).
    pub fn get(
        &mut self,
        store: &Store,
        key: &Key,
        snapshot: bool,
    ) -> Result<Option<Bytes>, TrFault>
        ensures { (index : Index) (setting : Setting) → Keeps store.now index setting
            → Reads read.ValueIs result self.old self.new setting false snapshot (read.Get key.now) }
    {
        self.admit(store, !is_below(key.as_slice(), &[0xff]), false)?;
        let value = self.value(store, key)?;
        let interval = KeyRange::single(self.allocator(), key)?;
        self.rest_on(store, &[interval], snapshot)?;
        Ok(value)
    }

    /// Returns the key that a selector means (`fdb_transaction_get_key`).
    pub fn get_key(
        &mut self,
        store: &Store,
        selector: &Selector,
        snapshot: bool,
    ) -> Result<Key, TrFault>
        ensures { (index : Index) (setting : Setting) → Keeps store.now index setting
            → Reads read.KeyIs result self.old self.new setting false snapshot (read.GetKey selector.now) }
    {
        self.admit(store, is_end_outside(selector.key.as_slice()), false)?;
        let key = self.key(store, selector)?;
        let interval = selector_interval(self.allocator(), selector, &key)?;
        self.rest_on(store, &[interval], snapshot)?;
        Ok(key)
    }

    /// Returns the pairs of a range (`fdb_transaction_get_range`).
    pub fn get_key_range(
        &mut self,
        store: &Store,
        range: &KeyRange,
        options: RangeOptions,
        snapshot: bool,
    ) -> Result<Pairs, TrFault>
        ensures { (index : Index) (setting : Setting) → Keeps store.now index setting
            → Reads read.PairsAre result self.old self.new setting (lacks_limit options.mode options.limit) snapshot
            (read.GetKeyRange range.now.begin range.now.end options.limit options.reverse) }
    {
        let is_outside = is_end_outside(range.begin.as_slice())
            || is_end_outside(range.end.as_slice());
        self.admit(store, is_outside, lacks_limit(options))?;
        let pairs = self.pairs(store, range, options)?;
        let span = slice_interval(range, options, &pairs)?;
        self.rest_on(store, &[span], snapshot)?;
        Ok(pairs)
    }

    /// Returns the pairs between the keys that two selectors mean (`fdb_transaction_get_range`).
    pub fn get_range(
        &mut self,
        store: &Store,
        begin: &Selector,
        end: &Selector,
        options: RangeOptions,
        snapshot: bool,
    ) -> Result<Pairs, TrFault>
        ensures { (index : Index) (setting : Setting) → Keeps store.now index setting
            → Reads read.PairsAre result self.old self.new setting (lacks_limit options.mode options.limit) snapshot
            (read.GetRange begin.now end.now options.limit options.reverse) }
    {
        let is_outside = is_end_outside(begin.key.as_slice()) || is_end_outside(end.key.as_slice());
        self.admit(store, is_outside, lacks_limit(options))?;
        let alloc = self.allocator();
        let range = KeyRange {
            begin: self.key(store, begin)?,
            end: self.key(store, end)?,
        };
        let pairs = self.pairs(store, &range, options)?;
        let interval = [
            selector_interval(alloc, begin, &range.begin)?,
            selector_interval(alloc, end, &range.end)?,
            slice_interval(&range, options, &pairs)?,
        ];
        self.rest_on(store, &interval, snapshot)?;
        Ok(pairs)
    }
}
