//! The last write version of each key, above those that are forgotten.

ghost use Rattle.std.specs.Prelude.{◌≡◌, ◌≤◌, ◌⊎◌, ℕ, List, true, max, if◌then◌else◌, OnOk, OnErr};
ghost use Rattle.key_bytes.specs.Keys.{after, within};
ghost use Rattle.key_bytes.specs.Ranges.{has};
ghost use Rattle.model_database.specs.States.{covers};
ghost use Rattle.conflict_ranges.specs.Writes.{above, newest_at, IsReadyFor};

use crate::generation::Generation;
use crate::range_set::RangeSet;
use key_bytes::{Key, KeyRange};
use std::alloc::{AllocError, Global};
use std::marker::Model;
use std::mem;

/// The newest version of each key: that of the last commit with it among its write conflict ranges, or 0 (API reference,
/// "Transaction": conflict ranges). Versions that are forgotten count as 0. Contracts say by `newest_at` what version a key has.
pub struct WriteIndex {
    alloc: Global,
    // What was installed up to some version. Once all of it is forgotten it goes as a whole, and the younger one takes its place.
    older: Generation,
    // What was installed since.
    younger: Generation,
    // No version that was installed is greater.
    newest: u64,
    // No version up to this one is answered.
    forgotten: u64,
}

// Written out, so that a caller's proof sees one call where an index ends, and nothing of what lies in it.
impl Drop for WriteIndex {
    fn drop(self) {
        let WriteIndex {
            alloc: _,
            older: _,
            younger: _,
            newest: _,
            forgotten: _,
        } = self;
    }
}

impl Model for WriteIndex {
    ghost use Rattle.std.specs.Coded.{codes, coded_ℕ, coded_list};
    ghost use Rattle.std.specs.FinMap as finite;
    ghost use Rattle.key_bytes.specs.Keys.{key_cmp};
    ghost use Rattle.conflict_ranges.specs.Writes.{Index, IsBounded};

    ghost Value = { Index };

    ghost coded = { Prim.hlevel (codes, coded_ℕ, coded_list, finite.code {R = key_cmp} (coded_list coded_ℕ) coded_ℕ) };

    ghost view = { λ index. record { older = index.older; younger = index.younger; newest = index.newest; forgotten = index.forgotten } };

    ghost invariant = { λ index. IsBounded (record { older = index.older; younger = index.younger; newest = index.newest; forgotten = index.forgotten }) };
}

impl WriteIndex {
    /// Makes the index where no key was written: each has version 0.
    pub fn new(alloc: Global) -> WriteIndex
        ensures unwritten { (key : List ℕ) → newest_at result key ≡ 0 }
        ensures newest { result.newest ≡ 0 }
        ensures forgotten { result.forgotten ≡ 0 }
    {
        WriteIndex {
            alloc,
            older: Generation::new(alloc),
            younger: Generation::new(alloc),
            newest: 0,
            forgotten: 0,
        }
    }

    /// Returns the newest version that was installed; 0 where none was. No key has a newer one.
    pub fn newest(&self) -> u64
        ensures is { result ≡ self.now.newest }
        ensures above { (key : List ℕ) → newest_at self.now key ≤ result }
    {
        self.older.shows_bounded();
        self.younger.shows_bounded();
        self.newest
    }

    /// Returns the greatest version that was forgotten, at first 0.
    pub fn forgotten(&self) -> u64
        ensures { result ≡ self.now.forgotten }
    {
        self.forgotten
    }

    /// Forgets the versions up to `below`: a key that has one of them has 0 from now on. It takes no memory. What was installed is
    /// kept in two generations: once the newest version of the older one is forgotten, that one is dropped, a step for each of its
    /// keys and boundaries, and the younger one takes its place. So each key and each boundary goes once, and what is kept is of
    /// versions that weren't forgotten when the older generation became it, or later ones.
    pub fn forget(&mut self, below: u64)
        ensures kept { (key : List ℕ) → newest_at self.new key ≡ above self.new.forgotten (newest_at self.old key) }
        ensures forgotten { self.new.forgotten ≡ max self.old.forgotten below }
        ensures newest { self.new.newest ≡ self.old.newest }
    {
        self.forgotten = self.forgotten.max(below);
        if self.older.newest() <= self.forgotten {
            self.older = mem::replace(&mut self.younger, Generation::new(self.alloc));
        }
    }

    /// Returns the newest version that a key of the range has; 0 where the range is empty. For one key it takes two searches of each
    /// generation, and else four, and one step for each key and each boundary in the range.
    pub fn newest_in(&self, range: &KeyRange) -> u64
        ensures above { (key : List ℕ) → has range.now key ≡ true → newest_at self.now key ≤ result }
        ensures reached { (result ≡ 0)
            ⊎ ((key : List ℕ) × (has range.now key ≡ true) × (newest_at self.now key ≡ result)) }
    {
        self.newest_between(&range.begin, &range.end)
    }

    /// Returns the newest version that a key from `begin` on has that is less than `end`; 0 where there is no
    /// such key.
    pub fn newest_between(&self, begin: &Key, end: &Key) -> u64
        ensures above { (key : List ℕ) → within begin.now end.now key ≡ true → newest_at self.now key ≤ result }
        ensures reached { (result ≡ 0)
            ⊎ ((key : List ℕ) × (within begin.now end.now key ≡ true) × (newest_at self.now key ≡ result)) }
    {
        let newest = self.kept_between(begin, end);
        if newest <= self.forgotten {
            return 0;
        }
        newest
    }

    // The newest version that a key from `begin` on has that is less than `end`, or a forgotten one. Without a window the older
    // generation is empty, and isn't asked.
    fn kept_between(&self, begin: &Key, end: &Key) -> u64
        ensures above { (key : List ℕ) → within begin.now end.now key ≡ true → newest_at self.now key ≤ result }
        ensures reached { (result ≤ self.now.forgotten)
            ⊎ ((key : List ℕ) × (within begin.now end.now key ≡ true) × (newest_at self.now key ≡ result)) }
    {
        let younger = self.younger.newest_between(begin, end);
        if self.older.newest() <= self.forgotten {
            return younger;
        }
        younger.max(self.older.newest_between(begin, end))
    }

    /// Takes the memory that `install` of these ranges at this version needs: one search for a range of one key, and for any other
    /// range one walk along a few boundaries, or five searches of more at most. Each key keeps its version, after a refusal too.
    pub fn reserve(&mut self, ranges: &RangeSet, version: u64) -> Result<(), AllocError>
        ensures same { (key : List ℕ) → newest_at self.new key ≡ newest_at self.old key }
        ensures newest { self.new.newest ≡ self.old.newest }
        ensures forgotten { self.new.forgotten ≡ self.old.forgotten }
        ensures ready { OnOk result (IsReadyFor self.new version ranges.now) }
    {
        self.younger.reserve(ranges, version)?;
        if version < self.older.newest() {
            self.older.reserve(ranges, version)?;
        }
        Ok(())
    }

    /// Gives the keys of the ranges this version, after room was made for them, with nothing installed or forgotten since. It takes
    /// one search for each range, and one write for each boundary in it; where a greater version is known, one step for each key
    /// besides.
    pub fn install(&mut self, ranges: RangeSet, version: u64)
        requires { IsReadyFor self.old version ranges }
        ensures given { (key : List ℕ) → newest_at self.new key
            ≡ (if covers ranges key then above self.old.forgotten version else newest_at self.old key) }
        ensures newest { self.new.newest ≡ max self.old.newest version }
        ensures forgotten { self.new.forgotten ≡ self.old.forgotten }
    {
        if version < self.older.newest() {
            self.older.install(&ranges, version);
        }
        self.younger.install(&ranges, version);
        self.newest = self.newest.max(version);
    }

    /// Gives the keys of a list of ranges this version; they may meet, and be empty. After a refusal each key keeps its version. One
    /// range of one key takes what `install_key` takes, and other ranges what `reserve` and `install` take.
    pub fn install_all(&mut self, ranges: &[KeyRange], version: u64) -> Result<(), AllocError>
        ensures given { OnOk result ((key : List ℕ) → newest_at self.new key
            ≡ (if covers ranges.now key then above self.old.forgotten version else newest_at self.old key)) }
        ensures newest { OnOk result (self.new.newest ≡ max self.old.newest version) }
        ensures forgotten { self.new.forgotten ≡ self.old.forgotten }
        ensures same { OnErr result ((key : List ℕ) → newest_at self.new key ≡ newest_at self.old key) }
        ensures newest_kept { OnErr result (self.new.newest ≡ self.old.newest) }
    {
        if version < self.older.newest() {
            return self.install_in_both(ranges, version);
        }
        self.younger.install_all(ranges, version)?;
        self.newest = self.newest.max(version);
        Ok(())
    }

    /// Gives a key this version. After a refusal each key keeps its version. It takes one search, and memory only where the key
    /// wasn't installed alone before; where a greater version is known, what `reserve` and `install` take for its range.
    pub fn install_key(&mut self, key: &Key, version: u64) -> Result<(), AllocError>
        ensures given { OnOk result ((other : List ℕ) → newest_at self.new other
            ≡ (if within key.now (after key.now) other then above self.old.forgotten version else newest_at self.old other)) }
        ensures newest { OnOk result (self.new.newest ≡ max self.old.newest version) }
        ensures forgotten { self.new.forgotten ≡ self.old.forgotten }
        ensures same { OnErr result ((other : List ℕ) → newest_at self.new other ≡ newest_at self.old other) }
        ensures newest_kept { OnErr result (self.new.newest ≡ self.old.newest) }
    {
        if version < self.older.newest() {
            let range = KeyRange::single(key.allocator(), key)?;
            return self.install_in_both(&[range], version);
        }
        self.younger.install_key(key, version)?;
        self.newest = self.newest.max(version);
        Ok(())
    }

    // Gives the keys of a list of ranges this version, in both generations, so that no greater one is left in the older one.
    fn install_in_both(&mut self, ranges: &[KeyRange], version: u64) -> Result<(), AllocError>
        ensures given { OnOk result ((key : List ℕ) → newest_at self.new key
            ≡ (if covers ranges.now key then above self.old.forgotten version else newest_at self.old key)) }
        ensures newest { OnOk result (self.new.newest ≡ max self.old.newest version) }
        ensures forgotten { self.new.forgotten ≡ self.old.forgotten }
        ensures same { OnErr result ((key : List ℕ) → newest_at self.new key ≡ newest_at self.old key) }
        ensures newest_kept { OnErr result (self.new.newest ≡ self.old.newest) }
    {
        self.older.reserve_list(ranges, version)?;
        self.younger.reserve_list(ranges, version)?;
        self.older.install_list(ranges, version);
        self.younger.install_list(ranges, version);
        self.newest = self.newest.max(version);
        Ok(())
    }
}
