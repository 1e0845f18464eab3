//! The store.

ghost use Rattle.std.specs.Prelude.{◌≡◌, ℕ, ◌+◌, ◌^◌, ◌<◌, ◌≤◌, max, true, false, length, IfOk, IfErr, OnOk, option_copied};
ghost use Rattle.std.specs.FinMap as finite;
ghost use Rattle.std.specs.List.{filter};
ghost use Rattle.std.specs.Map.Iter.{deref_pair};
ghost use Rattle.std.specs.Option.{option_map};
ghost use Rattle.key_bytes.specs.Keys.{key_le, key_lt, within};
ghost use Rattle.key_map.specs.Ends.{first, last};
ghost use Rattle.model_database.specs.Databases.{do_all};
ghost use Rattle.model_database.specs.Histories.{loaded};
ghost use Rattle.version_store.specs.Versions.{at, last_of, later_of, nodes_of, oldest_of, HasFew, IsReadable, IsFaultAt, IsReadyFor};
ghost use Rattle.version_store.specs.Changed.{changed};

use crate::chains::{add_keys, add_room, count_values, last_present, put_changes, value_at};
use crate::changes::Changes;
use crate::fault::VersionFault;
use crate::loading::load_places;
use crate::merging::merge_runs;
use crate::pairs_left::{PairsLeft, copied};
use crate::pruning::{Dues, prune_values};
use crate::values::Values;
use key_bytes::{Bytes, Key, Pairs};
use slab::Slab;
use std::alloc::{AllocError, Global};
use std::collections::BTreeMap;
use std::marker::Model;

/// The database at each of its versions.
pub struct Store {
    alloc: Global,
    // The place of each key, whose slot has what the key was given.
    tree: BTreeMap<Bytes, u32>,
    nodes: Slab<Values>,
    dues: Dues,
    last: u64,
    // The oldest version that can be read.
    oldest: u64,
    // How many values were given at all, so that a count of those that are held fits.
    given: usize,
    // The places of the keys of the changes that were reserved last, in their order.
    reserved: Vec<u32>,
}

// Written out, so that a caller's proof sees one call where a store ends, and nothing of what lies in it.
impl Drop for Store {
    fn drop(self) {
        let Store {
            alloc: _,
            tree: _,
            nodes: _,
            dues: _,
            last: _,
            oldest: _,
            given: _,
            reserved: _,
        } = self;
    }
}

impl Model for Store {
    ghost use Rattle.std.specs.Prelude.{◌+◌, ◌^◌, ◌<◌, ◌≤◌, length};
    ghost use Rattle.version_store.specs.Versions.{Versions};
    ghost use Rattle.version_store.specs.Chains.{chains_of, rooms_of, total, Sound};
    ghost use Rattle.version_store.specs.Dues.{room_in, IsComplete};
    ghost use Rattle.version_store.specs.Kept.{AreFew};

    ghost Value = { Versions };

    ghost view = { λ store. record {
      last = store.last;
      oldest = store.oldest;
      chains = chains_of store.nodes.slots store.tree.entries;
      rooms = rooms_of store.nodes.slots;
      places = store.tree.entries;
      dues = room_in store.dues;
      given = store.given;
      reserved = store.reserved.items;
    } };

    ghost invariant = { λ store. Sound store.nodes.slots (store.last + 1) store.tree.entries
        × (store.last < 2 ^ 63)
        × (store.oldest ≤ store.last)
        × (total length store.nodes.slots store.tree.entries ≤ store.given)
        × (store.given < 2 ^ 64)
        × IsComplete (store.oldest + 1) store.last store.dues store.nodes.slots store.tree.entries
        × AreFew store.oldest store.nodes.slots store.tree.entries };
}

impl Store {
    /// Makes the empty map at version 0.
    #[tactic(auto, unfolding(crate::specs::Versions::last_of, crate::specs::Versions::oldest_of, crate::specs::Versions::at, crate::specs::Versions::database_at, crate::specs::Versions::present))]
    pub fn new(alloc: Global) -> Store
        ensures last { last_of result ≡ 0 }
        ensures oldest { oldest_of result ≡ 0 }
        ensures empty { at result 0 ≡ finite.empty }
        ensures few { HasFew result }
    {
        Store {
            alloc,
            tree: BTreeMap::new(alloc),
            nodes: Slab::new(alloc),
            dues: Dues::new(alloc, false),
            last: 0,
            oldest: 0,
            given: 0,
            reserved: Vec::new(alloc),
        }
    }

    /// Loads a store whose first version has these pairs: of two values of one key the later stays. It moves
    /// the keys and values, and copies none. `prune` goes over all keys.
    pub fn load(alloc: Global, pairs: Pairs) -> Result<Store, AllocError>
        ensures last { IfOk result (λ store. last_of store ≡ 1) }
        ensures oldest { IfOk result (λ store. oldest_of store ≡ 0) }
        ensures empty { IfOk result (λ store. at store 0 ≡ finite.empty) }
        ensures first { IfOk result (λ store. at store 1
            ≡ do_all (loaded pairs).mutations finite.empty) }
        ensures loaded { IfOk result (λ store. later_of store 0 ≡ length (finite.entries (at store 1))) }
        ensures latest { IfOk result (λ store. (version : ℕ) → 1 ≤ version → later_of store version ≡ 0) }
        ensures few { IfOk result HasFew }
    {
        Store::load_with_pruning(alloc, pairs, false)
    }

    /// Loads a store as `load` does. `prunes` tells whether it is pruned often: the store then notes each change that leaves
    /// behind it a value that will be needless, which takes memory, and `prune` takes a step for each of these changes alone.
    #[tactic(auto, unfolding(crate::specs::Versions::last_of, crate::specs::Versions::oldest_of, crate::specs::Versions::at))]
    pub fn load_with_pruning(alloc: Global, pairs: Pairs, prunes: bool) -> Result<Store, AllocError>
        ensures last { IfOk result (λ store. last_of store ≡ 1) }
        ensures oldest { IfOk result (λ store. oldest_of store ≡ 0) }
        ensures empty { IfOk result (λ store. at store 0 ≡ finite.empty) }
        ensures first { IfOk result (λ store. at store 1
            ≡ do_all (loaded pairs).mutations finite.empty) }
        ensures loaded { IfOk result (λ store. later_of store 0 ≡ length (finite.entries (at store 1))) }
        ensures latest { IfOk result (λ store. (version : ℕ) → 1 ≤ version → later_of store version ≡ 0) }
        ensures few { IfOk result HasFew }
    {
        let mut pairs = pairs.into_vec();
        merge_runs(&mut pairs);
        // Half as much room again, so that the first new keys find room and need not move what was loaded. The system
        // gives memory for a page of it when the page is first written.
        let room = pairs.len().saturating_add(pairs.len() / 2);
        let mut nodes = Slab::with_capacity(alloc, room)?;
        let tree = load_places(alloc, &mut nodes, pairs)?;
        let given = tree.len();
        Ok(Store {
            alloc,
            tree,
            nodes,
            dues: Dues::new(alloc, prunes),
            last: 1,
            oldest: 0,
            given,
            reserved: Vec::new(alloc),
        })
    }

    /// Returns the last version, which is below 2^63, as a version is an `i64` for a client (API reference,
    /// "fdb_transaction_get_read_version").
    #[tactic(auto, unfolding(crate::specs::Versions::last_of, crate::specs::Versions::oldest_of))]
    pub fn last(&self) -> u64
        ensures value { result ≡ last_of self.now }
        ensures readable { oldest_of self.now ≤ result }
        ensures low { result < 2 ^ 63 }
    {
        self.last
    }

    /// Returns the oldest version that can be read.
    #[tactic(auto, unfolding(crate::specs::Versions::oldest_of))]
    pub fn oldest(&self) -> u64
        ensures { result ≡ oldest_of self.now }
    {
        self.oldest
    }

    // Whether a version can be read.
    fn check(&self, version: u64) -> Result<(), VersionFault>
        ensures ok { OnOk result (IsReadable self.now version) }
        ensures err { IfErr result (IsFaultAt self.now version) }
    {
        let (oldest, last) = (self.oldest(), self.last());
        if version < oldest {
            return Err(VersionFault::TooOld { oldest });
        }
        if version > last {
            return Err(VersionFault::Future { last });
        }
        Ok(())
    }

    /// Returns the value of `key` at a version, if it has one then. TooOld exactly where the version is less
    /// than the oldest one, Future exactly where it is greater than the last one.
    pub fn get_at(&self, key: &Key, version: u64) -> Result<Option<&[u8]>, VersionFault>
        ensures ok { IfOk result (λ value. IsReadable self.now version
            × (option_copied value ≡ finite.get (at self.now version) key.now)) }
        ensures err { IfErr result (IsFaultAt self.now version) }
    {
        self.check(version)?;
        let Some(place) = self.tree.get(key) else {
            return Ok(None);
        };
        match value_at(&self.nodes, *place, version) {
            Some(value) => Ok(Some(value.as_slice())),
            None => Ok(None),
        }
    }

    /// Returns an iterator over the pairs at a version from `key` on, in the order of their keys. It takes one
    /// search for all of them, and copies none. TooOld exactly where the version is less than the oldest one,
    /// Future exactly where it is greater than the last one.
    pub fn pairs_from(&self, key: &Key, version: u64) -> Result<PairsLeft<'_>, VersionFault>
        ensures ok { IfOk result (λ left. IsReadable self.now version
            × (left ≡ filter (λ e. key_le key.now e.0) (finite.entries (at self.now version)))) }
        ensures err { IfErr result (IsFaultAt self.now version) }
    {
        self.check(version)?;
        Ok(PairsLeft::new(&self.nodes, self.tree.range(key..), version))
    }

    /// Returns the pairs at a version from `begin` on with keys that are less than `end`, in the order of their
    /// keys, for a loop over them: one search for all of them. It goes over that range of the tree alone, and
    /// copies no pair. TooOld exactly where the version is less than the oldest one, Future exactly where it is
    /// greater than the last one.
    pub fn pairs_in(
        &self,
        begin: &Key,
        end: &Key,
        version: u64,
    ) -> Result<PairsLeft<'_>, VersionFault>
        ensures ok { IfOk result (λ left. IsReadable self.now version
            × (left ≡ filter (λ e. within begin.now end.now e.0) (finite.entries (at self.now version)))) }
        ensures err { IfErr result (IsFaultAt self.now version) }
    {
        self.check(version)?;
        if !begin.cmp(end).is_lt() {
            return Ok(PairsLeft::new(&self.nodes, self.tree.range(begin..begin), version));
        }
        Ok(PairsLeft::new(&self.nodes, self.tree.range(begin..end), version))
    }

    /// Returns the first pair at a version with a key that is at least `key`. TooOld exactly where the version
    /// is less than the oldest one, Future exactly where it is greater than the last one.
    pub fn next_at(&self, key: &Key, version: u64) -> Result<Option<(&Key, &Bytes)>, VersionFault>
        ensures ok { IfOk result (λ pair. IsReadable self.now version
            × (option_map deref_pair pair
            ≡ first (filter (λ e. key_le key.now e.0) (finite.entries (at self.now version))))) }
        ensures err { IfErr result (IsFaultAt self.now version) }
    {
        Ok(self.pairs_from(key, version)?.next())
    }

    /// Returns the last pair at a version with a key that is less than `key`. TooOld exactly where the version
    /// is less than the oldest one, Future exactly where it is greater than the last one.
    pub fn prev_at(&self, key: &Key, version: u64) -> Result<Option<(&Key, &Bytes)>, VersionFault>
        ensures ok { IfOk result (λ pair. IsReadable self.now version
            × (option_map deref_pair pair
            ≡ last (filter (λ e. key_lt e.0 key.now) (finite.entries (at self.now version))))) }
        ensures err { IfErr result (IsFaultAt self.now version) }
    {
        self.check(version)?;
        Ok(last_present(&self.nodes, self.tree.range(..key), version))
    }

    /// Takes the memory that installing these changes needs, and searches for each key, so that installing doesn't. Reads
    /// are as before, also after a refusal. More keys than 32 bits count, and more values than a `usize` counts, are refused
    /// like want of memory.
    pub fn reserve(&mut self, changes: &Changes) -> Result<(), AllocError>
        ensures last { last_of self.new ≡ last_of self.old }
        ensures oldest { oldest_of self.new ≡ oldest_of self.old }
        ensures reads { (version : ℕ) → at self.new version ≡ at self.old version }
        ensures ready { OnOk result (IsReadyFor self.new changes.now) }
        ensures later { (version : ℕ) → later_of self.new version ≡ later_of self.old version }
        ensures few { HasFew self.new }
    {
        self.reserved.clear();
        if usize::MAX - self.given < changes.len() {
            return Err(AllocError);
        }
        // For the keys that are new.
        add_room(&mut self.nodes, changes.len())?;
        self.dues.reserve(changes.len())?;
        add_keys(
            self.alloc,
            &mut self.tree,
            &mut self.nodes,
            self.last + 1,
            changes.as_slice(),
            &mut self.reserved,
        )
    }

    /// Adds one version, which is below 2^63: the database before, after these changes. They were reserved, and
    /// nothing was installed or pruned since. It takes no search.
    pub fn install(&mut self, changes: Changes)
        requires ready { IsReadyFor self.old changes }
        requires next { last_of self.old + 1 < 2 ^ 63 }
        ensures last { last_of self.new ≡ last_of self.old + 1 }
        ensures oldest { oldest_of self.new ≡ oldest_of self.old }
        ensures before { (version : ℕ) → version ≤ last_of self.old
            → at self.new version ≡ at self.old version }
        ensures after { at self.new (last_of self.old + 1)
            ≡ changed changes (at self.old (last_of self.old)) }
        ensures later { (version : ℕ) → version ≤ last_of self.old
            → later_of self.new version ≡ later_of self.old version + length changes }
        ensures latest { (version : ℕ) → last_of self.old < version → later_of self.new version ≡ 0 }
        ensures few { HasFew self.new }
    {
        let version = self.last + 1;
        self.given += changes.len();
        put_changes(
            &self.tree,
            &mut self.nodes,
            &mut self.dues,
            version,
            self.reserved.as_slice(),
            changes.into_vec(),
        );
        self.last = version;
    }

    /// Makes the versions below `oldest` unreadable, and leaves the others as they are. It drops the values that no readable
    /// version needs: of a store that notes changes by one step for each change up to `oldest` and one for each value that goes,
    /// of another in a walk over all keys. It does nothing where `oldest` is no later than the oldest version. What was reserved must be
    /// reserved again.
    pub fn prune(&mut self, oldest: u64)
        requires { oldest ≤ last_of self.old }
        ensures oldest { oldest_of self.new ≡ max (oldest_of self.old) oldest }
        ensures last { last_of self.new ≡ last_of self.old }
        ensures reads { (version : ℕ) → oldest_of self.new ≤ version → at self.new version ≡ at self.old version }
        ensures later { (version : ℕ) → later_of self.new version ≤ later_of self.old version }
        ensures few { HasFew self.new }
    {
        if oldest <= self.oldest {
            return;
        }
        self.oldest = self.oldest.max(oldest);
        prune_values(&mut self.tree, &mut self.nodes, &mut self.dues, self.oldest);
    }

    /// Shows to a proof that the store holds few values, as it does after each call. It does nothing when it runs.
    pub fn shows_few(&self)
        ensures { HasFew self.now }
    {
        let _last = self.last;
    }

    /// Returns how many values the store holds, all versions together, and removals among them. It goes over all keys.
    pub fn nodes(&self) -> usize
        ensures counts { result ≡ nodes_of self.now }
        ensures few { HasFew self.now }
    {
        count_values(&self.nodes, self.tree.range(..))
    }

    /// Returns the pairs at the last version, in the order of their keys, for a loop over them. It copies none.
    pub fn pairs_left(&self) -> PairsLeft<'_>
        ensures { result ≡ finite.entries (at self.now (last_of self.now)) }
    {
        PairsLeft::new(&self.nodes, self.tree.range(..), self.last)
    }

    /// Returns a copy of the pairs at the last version, in the order of their keys.
    pub fn pairs(&self) -> Result<Pairs, AllocError>
        ensures { IfOk result (λ pairs. pairs ≡ finite.entries (at self.now (last_of self.now))) }
    {
        copied(self.alloc, self.pairs_left())
    }
    /// Returns a copy of the pairs at the last version with keys from `begin` up to `end`, `end` left out, in
    /// the order of their keys. There is none where `begin` isn't less than `end`. It goes over that range of
    /// the tree alone.
    pub fn pairs_between(&self, begin: &Key, end: &Key) -> Result<Pairs, AllocError>
        ensures { IfOk result (λ pairs. pairs
            ≡ filter (λ e. within begin.now end.now e.0)
            (finite.entries (at self.now (last_of self.now)))) }
    {
        if !begin.cmp(end).is_lt() {
            return Ok(Pairs::new(self.alloc));
        }
        let left = PairsLeft::new(&self.nodes, self.tree.range(begin..end), self.last);
        copied(self.alloc, left)
    }
}
