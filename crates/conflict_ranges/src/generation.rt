//! The last write version of each key, among what was installed over some time.

ghost use Rattle.std.specs.Prelude.{◌≡◌, ◌≤◌, ◌⊎◌, ℕ, List, [], true, max, if◌then◌else◌, MatchBool, OnOk, OnErr};
ghost use Rattle.std.specs.FinMap as finite;
ghost use Rattle.key_bytes.specs.Keys.{after, within};
ghost use Rattle.model_database.specs.States.{covers, range_from};
ghost use Rattle.range_map.specs.Boundaries.{is_boundary};
ghost use Rattle.conflict_ranges.specs.Generations.{version_at, GoesAlone, GoesAsRange, HasRoomFor, IsReadyFor, Keeps, KeepsRoom, with_version};

use crate::newest::{Written, is_after, newest_of_keys, newest_of_ranges};
use crate::range_set::RangeSet;
use key_bytes::{Key, KeyRange};
use key_map::KeyMap;
use range_map::RangeMap;
use std::alloc::{AllocError, Global};
use std::marker::Model;

// The version of each key: that of the last commit with it among its write conflict ranges, or 0. A range of one key is kept as that
// key, any other by its ends. Contracts see what is known of keys alone and of ranges; `version_at` says of both the version of a
// key.
pub(crate) struct Generation {
    keys: KeyMap<u64>,
    ranges: RangeMap<u64>,
    // No version is greater.
    newest: u64,
}

// Written out, so that a caller's proof sees one call where a generation ends, and nothing of what lies in it.
impl Drop for Generation {
    fn drop(self) {
        let Generation {
            keys: _,
            ranges: _,
            newest: _,
        } = self;
    }
}

impl Model for Generation {
    ghost use Rattle.std.specs.Coded.{codes, coded_ℕ, coded_list};
    ghost use Rattle.std.specs.FinMap as finite;
    ghost use Rattle.key_bytes.specs.Keys.{key_cmp};
    ghost use Rattle.conflict_ranges.specs.Generations.{LastWrites, IsBounded};

    ghost Value = { LastWrites };

    ghost coded = { Prim.hlevel (codes, coded_ℕ, coded_list, finite.code {R = key_cmp} (coded_list coded_ℕ) coded_ℕ) };

    ghost view = { λ generation. record { keys = generation.keys; ranges = generation.ranges; newest = generation.newest } };

    ghost invariant = { λ generation. IsBounded (record { keys = generation.keys; ranges = generation.ranges; newest = generation.newest }) };
}

impl Generation {
    // Makes the generation where no key was written: each has version 0.
    pub(crate) fn new(alloc: Global) -> Generation
        ensures empty { result ≡ record { keys = finite.empty; ranges = record { base = 0; entries = [] }; newest = 0 } }
        ensures unwritten { (key : List ℕ) → version_at result key ≡ 0 }
    {
        Generation {
            keys: KeyMap::new(alloc),
            ranges: RangeMap::new(alloc, 0),
            newest: 0,
        }
    }

    // Returns the newest version that was installed; 0 where none was. No key has a newer one.
    pub(crate) fn newest(&self) -> u64
        ensures is { result ≡ self.now.newest }
        ensures above { (key : List ℕ) → version_at self.now key ≤ result }
    {
        self.newest
    }

    // Shows that no key has a newer version.
    pub(crate) fn shows_bounded(&self)
        ensures { (key : List ℕ) → version_at self.now key ≤ self.now.newest }
    {
        let _ = &self.newest;
    }

    // Returns the newest version that a key from `begin` on has that is less than `end`; 0 where there is no such key. For one key it
    // takes two searches, and else four, and one step for each key and each boundary in the range.
    pub(crate) fn newest_between(&self, begin: &Key, end: &Key) -> u64
        ensures above { (key : List ℕ) → within begin.now end.now key ≡ true → version_at self.now key ≤ result }
        ensures reached { (result ≡ 0)
            ⊎ ((key : List ℕ) × (within begin.now end.now key ≡ true) × (version_at self.now key ≡ result)) }
    {
        if is_after(begin, end) {
            return self.newest_of(begin);
        }
        if !begin.cmp(end).is_lt() {
            return 0;
        }
        newest_of_ranges(&self.ranges, begin, end).max(newest_of_keys(&self.keys, begin, end))
    }

    // The newest version of a key. It takes no memory, and two searches.
    fn newest_of(&self, key: &Key) -> u64
        ensures { result ≡ version_at self.now key.now }
    {
        let in_ranges = *self.ranges.at(key);
        match self.keys.get(key) {
            Some(version) => in_ranges.max(*version),
            None => in_ranges,
        }
    }

    // Whether these keys, from `begin` up to `end`, are kept as a key where they get this version. It takes no memory.
    fn goes_alone(&self, begin: &Key, end: &Key, version: u64) -> bool
        ensures { MatchBool result (GoesAlone self.now version begin.now end.now) (GoesAsRange self.now version begin.now end.now) }
    {
        self.newest <= version && is_after(begin, end)
    }

    // Takes the memory that `install` of these ranges at this version needs: one search for a range of one key, and for any other
    // range one walk along a few boundaries, or five searches of more at most. Each key keeps its version, after a refusal too.
    pub(crate) fn reserve(&mut self, ranges: &RangeSet, version: u64) -> Result<(), AllocError>
        ensures same { (key : List ℕ) → version_at self.new key ≡ version_at self.old key }
        ensures newest { self.new.newest ≡ self.old.newest }
        ensures ready { OnOk result (IsReadyFor self.new version ranges.now) }
    {
        for (begin, end) in ranges.ranges() {
            self.make_room(begin, end, version)?;
        }
        Ok(())
    }

    // The same for `install_list`: the ranges may meet, and be empty.
    pub(crate) fn reserve_list(
        &mut self,
        ranges: &[KeyRange],
        version: u64,
    ) -> Result<(), AllocError>
        ensures same { (key : List ℕ) → version_at self.new key ≡ version_at self.old key }
        ensures newest { self.new.newest ≡ self.old.newest }
        ensures ready { OnOk result (IsReadyFor self.new version ranges.now) }
    {
        for range in ranges {
            self.make_room(&range.begin, &range.end, version)?;
        }
        Ok(())
    }

    // Makes room for one range.
    fn make_room(&mut self, begin: &Key, end: &Key, version: u64) -> Result<(), AllocError>
        ensures same { (key : List ℕ) → version_at self.new key ≡ version_at self.old key }
        ensures newest { self.new.newest ≡ self.old.newest }
        ensures kept { KeepsRoom version self.old self.new }
        ensures room { OnOk result (HasRoomFor self.new version (range_from begin.now end.now)) }
    {
        if self.goes_alone(begin, end, version) {
            return self.add_key(begin);
        }
        self.ranges.split_both(begin, end)
    }

    // Makes a key known, which no commit has had as a range of its own yet.
    fn add_key(&mut self, key: &Key) -> Result<(), AllocError>
        ensures same { (key : List ℕ) → version_at self.new key ≡ version_at self.old key }
        ensures kept { Keeps self.old self.new }
        ensures known { OnOk result (finite.contains_key self.new.keys key.now ≡ true) }
    {
        self.keys.insert_missing(key.copy()?, 0)?;
        Ok(())
    }

    // Gives the keys of the ranges this version, after room was made for them. It takes one search for each range, and one write
    // for each boundary in it; where a greater version is known, one step for each key besides.
    pub(crate) fn install(&mut self, ranges: &RangeSet, version: u64)
        requires { IsReadyFor self.old version ranges.now }
        ensures given { (key : List ℕ) → version_at self.new key
            ≡ (if covers ranges.now key then version else version_at self.old key) }
        ensures newest { self.new.newest ≡ max self.old.newest version }
    {
        self.raise_newest(version);
        for (begin, end) in ranges.ranges() {
            self.give(begin, end, version);
        }
    }

    // The same for a list of ranges, which may meet, and be empty.
    pub(crate) fn install_list(&mut self, ranges: &[KeyRange], version: u64)
        requires { IsReadyFor self.old version ranges.now }
        ensures given { (key : List ℕ) → version_at self.new key
            ≡ (if covers ranges.now key then version else version_at self.old key) }
        ensures newest { self.new.newest ≡ max self.old.newest version }
    {
        self.raise_newest(version);
        for range in ranges {
            self.give(&range.begin, &range.end, version);
        }
    }

    // Gives the keys of a list of ranges this version; they may meet, and be empty. After a refusal each key keeps its version. One
    // range of one key takes what `install_key` takes, and other ranges what `reserve` and `install` take.
    pub(crate) fn install_all(
        &mut self,
        ranges: &[KeyRange],
        version: u64,
    ) -> Result<(), AllocError>
        ensures given { OnOk result ((key : List ℕ) → version_at self.new key
            ≡ (if covers ranges.now key then version else version_at self.old key)) }
        ensures newest { OnOk result (self.new.newest ≡ max self.old.newest version) }
        ensures same { OnErr result ((key : List ℕ) → version_at self.new key ≡ version_at self.old key) }
        ensures newest_kept { OnErr result (self.new.newest ≡ self.old.newest) }
    {
        if let [range] = ranges {
            if is_after(&range.begin, &range.end) {
                return self.install_key(&range.begin, version);
            }
        }
        self.install_each(ranges, version)
    }

    // Gives a key this version. After a refusal each key keeps its version. It takes one search, and memory only where the key
    // wasn't installed alone before; where a greater version is known, what `reserve` and `install` take for its range.
    pub(crate) fn install_key(&mut self, key: &Key, version: u64) -> Result<(), AllocError>
        ensures given { OnOk result ((other : List ℕ) → version_at self.new other
            ≡ (if within key.now (after key.now) other then version else version_at self.old other)) }
        ensures newest { OnOk result (self.new.newest ≡ max self.old.newest version) }
        ensures same { OnErr result ((other : List ℕ) → version_at self.new other ≡ version_at self.old other) }
        ensures newest_kept { OnErr result (self.new.newest ≡ self.old.newest) }
    {
        if self.newest <= version {
            return self.put_key(key, version);
        }
        let range = KeyRange::single(key.allocator(), key)?;
        self.install_each(&[range], version)
    }

    // Takes the memory for the ranges of a list, and gives their keys this version.
    fn install_each(&mut self, ranges: &[KeyRange], version: u64) -> Result<(), AllocError>
        ensures given { OnOk result ((key : List ℕ) → version_at self.new key
            ≡ (if covers ranges.now key then version else version_at self.old key)) }
        ensures newest { OnOk result (self.new.newest ≡ max self.old.newest version) }
        ensures same { OnErr result ((key : List ℕ) → version_at self.new key ≡ version_at self.old key) }
        ensures newest_kept { OnErr result (self.new.newest ≡ self.old.newest) }
    {
        self.reserve_list(ranges, version)?;
        self.install_list(ranges, version);
        Ok(())
    }

    // Gives a key this version, which none is above: one search. Only a key that wasn't installed alone before takes memory. After
    // a refusal the generation is unchanged.
    fn put_key(&mut self, key: &Key, version: u64) -> Result<(), AllocError>
        requires { self.old.newest ≤ version }
        ensures given { OnOk result ((other : List ℕ) → version_at self.new other
            ≡ (if within key.now (after key.now) other then version else version_at self.old other)) }
        ensures newest { OnOk result (self.new.newest ≡ version) }
        ensures same { OnErr result (self.new ≡ self.old) }
    {
        self.keys.insert(key.copy()?, version)?;
        self.newest = version;
        Ok(())
    }

    // Counts this version as installed. It takes no memory.
    fn raise_newest(&mut self, version: u64)
        ensures newest { self.new ≡ with_version version self.old }
    {
        self.newest = self.newest.max(version);
    }

    // Gives the keys of one range this version. It takes no memory.
    fn give(&mut self, begin: &Key, end: &Key, version: u64)
        requires bounded { version ≤ self.old.newest }
        requires room { HasRoomFor self.old version (range_from begin.now end.now) }
        ensures given { (key : List ℕ) → version_at self.new key
            ≡ (if within begin.now end.now key then version else version_at self.old key) }
        ensures kept { KeepsRoom version self.old self.new }
        ensures newest { self.new.newest ≡ self.old.newest }
    {
        if self.goes_alone(begin, end, version) {
            self.give_key(begin, end, version);
        } else {
            self.give_range(begin, end, version);
        }
    }

    // Gives a key that is known this version: the one key from `begin` up to `end`. It takes no memory.
    fn give_key(&mut self, begin: &Key, end: &Key, version: u64)
        requires alone { GoesAlone self.old version begin.now end.now }
        requires bounded { version ≤ self.old.newest }
        requires known { finite.contains_key self.old.keys begin.now ≡ true }
        ensures given { (key : List ℕ) → version_at self.new key
            ≡ (if within begin.now end.now key then version else version_at self.old key) }
        ensures kept { KeepsRoom version self.old self.new }
        ensures newest { self.new.newest ≡ self.old.newest }
    {
        *self.keys.get_mut(begin).unwrap() = version;
    }

    // Gives the keys between two boundaries this version. It takes no memory.
    fn give_range(&mut self, begin: &Key, end: &Key, version: u64)
        requires bounded { version ≤ self.old.newest }
        requires boundaries { (is_boundary begin.now self.old.ranges ≡ true) × (is_boundary end.now self.old.ranges ≡ true) }
        ensures given { (key : List ℕ) → version_at self.new key
            ≡ (if within begin.now end.now key then version else version_at self.old key) }
        ensures kept { KeepsRoom version self.old self.new }
        ensures newest { self.new.newest ≡ self.old.newest }
    {
        self.ranges.shows_rising();
        self.ranges.change(begin, end, &Written(version));
        if version < self.newest {
            self.keys.clear_range(begin, end);
        }
    }
}
