//! A set of keys.

ghost use Rattle.std.specs.Prelude.{◌≡◌, ◌==◌, ◌<◌, ◌↔◌, ◌&&◌, ◌||◌, ℕ, List, [], true, false, not, length, slice_get, Some, IsTrue, IfOk, OnOk, OnErr};
ghost use Rattle.std.specs.List.{list_any};
ghost use Rattle.key_bytes.specs.Ranges.{has, meets};
ghost use Rattle.model_database.specs.States.{covers};

use crate::boundary_ranges::BoundaryRanges;
use crate::ranges_left::RangesLeft;
use key_bytes::{Key, KeyRange};
use std::alloc::{AllocError, Global};
use std::marker::Model;

/// A set of keys. Contracts see its ranges in rising order: its only one, or what lies between one boundary and the next and is in
/// the set, so they are not empty and lie apart. Which keys the set has is `covers` of them. Until a second range comes the set
/// takes no memory but for copies of the two ends, and no search.
pub struct RangeSet {
    // The only range that was added. While there is one, the boundaries say nothing.
    only: Option<KeyRange>,
    laid: BoundaryRanges,
}

// Written out, so that a caller's proof sees one call where a set ends, and nothing of what lies in it.
impl Drop for RangeSet {
    fn drop(self) {
        let RangeSet { only: _, laid: _ } = self;
    }
}

impl Model for RangeSet {
    ghost use Rattle.std.specs.Prelude.{List};
    ghost use Rattle.key_bytes.specs.declared.range.KeyRange.{KeyRange};
    ghost use Rattle.conflict_ranges.specs.Only.{only_or, IsFilled};

    ghost Value = { List KeyRange };

    ghost view = { λ set. only_or set.only set.laid };

    ghost invariant = { λ set. IsFilled set.only };
}

// A copy of a range. Ends of up to 22 bytes take no memory.
fn copy_of(range: &KeyRange) -> Result<KeyRange, AllocError>
    ensures { IfOk result (λ copy. copy ≡ range.now) }
{
    Ok(KeyRange {
        begin: range.begin.copy()?,
        end: range.end.copy()?,
    })
}

// Whether a range has all keys of another.
fn has_all(range: &KeyRange, other: &KeyRange) -> bool
    ensures { IsTrue result → (key : List ℕ) → has other.now key ≡ true → has range.now key ≡ true }
{
    !other.begin.cmp(&range.begin).is_lt() && !range.end.cmp(&other.end).is_lt()
}

impl RangeSet {
    ghost use Rattle.conflict_ranges.specs.Segments.{range_between, AreApart};

    /// Makes the set without a key.
    pub fn new(alloc: Global) -> RangeSet
        ensures { result ≡ [] }
    {
        RangeSet {
            only: None,
            laid: BoundaryRanges::new(alloc),
        }
    }

    /// Tells whether the set has no key.
    pub fn is_empty(&self) -> bool
        ensures value { result ≡ (length self.now == 0) }
        ensures none { IsTrue result ↔ ((key : List ℕ) → covers self.now key ≡ false) }
    {
        match &self.only {
            Some(_) => false,
            None => self.laid.is_unused() || self.laid.is_empty(),
        }
    }

    // Whether no key came into the set, so that a range may be its only one.
    fn is_unused(&self) -> bool
        ensures { IsTrue result → self.now ≡ [] }
    {
        self.only.is_none() && self.laid.is_unused()
    }

    // Adds the keys of a range to the set without a key.
    fn start(&mut self, range: &KeyRange) -> Result<(), AllocError>
        requires { self.old ≡ [] }
        ensures ok { OnOk result ((key : List ℕ) → covers self.new key ≡ has range.now key) }
        ensures err { OnErr result (self.new ≡ self.old) }
    {
        if !range.is_empty() {
            self.only = Some(copy_of(range)?);
        }
        Ok(())
    }

    /// Adds the keys of a range. The first one is kept in place, with no search. A second one makes boundaries of the ends of both,
    /// unless the first has all its keys; from then on it takes two walks along a few boundaries, or six searches of more at most,
    /// and writes once for each boundary in the range. After a refusal the set is as it was (API reference, "Transaction": conflict
    /// ranges).
    pub fn add(&mut self, range: &KeyRange) -> Result<(), AllocError>
        ensures ok { OnOk result ((key : List ℕ)
            → covers self.new key ≡ (covers self.old key || has range.now key)) }
        ensures err { OnErr result (self.new ≡ self.old) }
    {
        if self.is_unused() {
            return self.start(range);
        }
        let Some(only) = &self.only else {
            return self.laid.add(range);
        };
        if has_all(only, range) {
            return Ok(());
        }
        let mut laid = self.laid.with_only(only)?;
        laid.add(range)?;
        *self = RangeSet { only: None, laid };
        Ok(())
    }

    /// Takes the keys of a range away. It makes boundaries of the ends of a range in place, takes two walks along a few boundaries,
    /// or six searches of more at most, and writes once for each boundary in the range. After a refusal the set is as it was (API
    /// reference, "Transaction": conflict ranges).
    pub fn subtract(&mut self, range: &KeyRange) -> Result<(), AllocError>
        ensures ok { OnOk result ((key : List ℕ)
            → covers self.new key ≡ (covers self.old key && not (has range.now key))) }
        ensures err { OnErr result (self.new ≡ self.old) }
    {
        let Some(only) = &self.only else {
            return self.laid.subtract(range);
        };
        let mut laid = self.laid.with_only(only)?;
        laid.subtract(range)?;
        *self = RangeSet { only: None, laid };
        Ok(())
    }

    /// Adds the keys of all these ranges, or, after a refusal, of none of them (API reference, "Transaction": conflict
    /// ranges).
    pub fn add_all(&mut self, ranges: &[KeyRange]) -> Result<(), AllocError>
        ensures ok { OnOk result ((key : List ℕ)
            → covers self.new key ≡ (covers self.old key || covers ranges.now key)) }
        ensures err { OnErr result ((key : List ℕ) → covers self.new key ≡ covers self.old key) }
    {
        if ranges.is_empty() {
            return Ok(());
        }
        if ranges.len() == 1 {
            return self.add(&ranges[0]);
        }
        let Some(only) = &self.only else {
            return self.laid.add_all(ranges);
        };
        let mut laid = self.laid.with_only(only)?;
        laid.add_all(ranges)?;
        *self = RangeSet { only: None, laid };
        Ok(())
    }

    /// Tells whether some key is both in the set and in the range. It takes one search for the range's begin, and one for each
    /// boundary in the range that it comes to; none where the set keeps its range in place.
    pub fn meets(&self, range: &KeyRange) -> bool
        ensures value { result ≡ list_any (λ own. meets own range.now) self.now }
        ensures common { IsTrue result
            ↔ ((key : List ℕ) × IsTrue (covers self.now key && has range.now key)) }
    {
        match &self.only {
            Some(only) => only.meets(range),
            None => self.laid.meets(range),
        }
    }

    /// Returns an iterator over the ranges of the set, in rising order.
    pub fn ranges(&self) -> RangesLeft<'_>
        ensures { result ≡ self.now }
    {
        match &self.only {
            Some(only) => RangesLeft::one(only),
            None if self.laid.is_unused() => RangesLeft::none(),
            None => RangesLeft::of_boundaries(self.laid.ranges()),
        }
    }

    /// Returns how many ranges there are. It walks over them.
    pub fn len(&self) -> usize
        ensures { result ≡ length self.now }
    {
        match &self.only {
            Some(_) => 1,
            None => self.laid.len(),
        }
    }

    /// Returns the range at a place, counted from 0 in rising order: its begin and its end. It walks over the
    /// ranges before it.
    pub fn get(&self, index: usize) -> (&Key, &Key)
        requires { index < length self.now }
        ensures { slice_get self.now index ≡ Some (range_between result) }
    {
        match &self.only {
            Some(only) => (&only.begin, &only.end),
            None => self.laid.get(index),
        }
    }

    /// Shows to a proof that the ranges are not empty, lie apart and rise. It does nothing when it runs.
    pub fn shows_apart(&self)
        ensures { AreApart self.now }
    {
        self.laid.shows_apart();
    }
}
