//! A set of keys that lies in a map of boundaries.

ghost use Rattle.std.specs.Prelude.{◌≡◌, ◌==◌, ◌+◌, ◌*◌, ◌^◌, ◌<◌, ◌↔◌, ◌&&◌, ◌||◌, ℕ, List, [], false, not, length, slice_get, Some, IsTrue, IfOk, OnOk, OnErr};
ghost use Rattle.std.specs.List.{list_any};
ghost use Rattle.key_bytes.specs.Ranges.{has, meets};
ghost use Rattle.model_database.specs.States.{covers};

use crate::boundary_ranges_left::BoundaryRangesLeft;
use crate::members::{any_in, put, put_all, split_all};
use crate::membership::Membership;
use key_bytes::{Bytes, Key, KeyRange};
use range_map::RangeMap;
use std::alloc::{AllocError, Global};
use std::marker::Model;

// A set of keys. Contracts see its ranges in rising order: they are what lies between one boundary and the next and is in the set,
// so they are not empty and lie apart. Which keys the set has is `covers` of them.
#[derive(Drop)]
pub(crate) struct BoundaryRanges {
    lowest: Key,
    members: RangeMap<Membership>,
    // There are no more boundaries than this, so that the number of ranges fits.
    most_boundaries: usize,
}

impl Model for BoundaryRanges {
    ghost use Rattle.std.specs.Prelude.{List};
    ghost use Rattle.key_bytes.specs.declared.range.KeyRange.{KeyRange};
    ghost use Rattle.conflict_ranges.specs.Segments.{ranges_of, IsWhole};

    ghost Value = { List KeyRange };

    ghost view = { λ set. ranges_of set.members };

    ghost invariant = { λ set. IsWhole set.lowest set.most_boundaries set.members };
}

// How many boundaries there are at most, after the ends of so many ranges came in. More than can be counted are refused.
fn more_boundaries(boundaries: usize, ranges: usize) -> Result<usize, AllocError>
    ensures { IfOk result (λ more. more ≡ boundaries + 2 * ranges) }
{
    let half = boundaries.checked_add(ranges).ok_or(AllocError)?;
    half.checked_add(ranges).ok_or(AllocError)
}

impl BoundaryRanges {
    ghost use Rattle.conflict_ranges.specs.Segments.{range_between, AreApart};

    // The set without a key. It takes no memory, and keeps the allocator for what is added later.
    pub(crate) fn new(alloc: Global) -> BoundaryRanges
        ensures { result ≡ [] }
    {
        BoundaryRanges {
            lowest: Bytes::new(alloc),
            members: RangeMap::new(alloc, Membership(false)),
            most_boundaries: 0,
        }
    }

    // The set of the keys of one range, with the allocator of this one.
    pub(crate) fn with_only(&self, range: &KeyRange) -> Result<BoundaryRanges, AllocError>
        ensures { IfOk result (λ set. (key : List ℕ) → covers set key ≡ has range.now key) }
    {
        let mut set = BoundaryRanges::new(self.lowest.allocator());
        set.add(range)?;
        Ok(set)
    }

    // Whether no boundary was made, so that the set has no key. It takes no memory, and no search.
    pub(crate) fn is_unused(&self) -> bool
        ensures { IsTrue result → self.now ≡ [] }
    {
        self.most_boundaries == 0
    }

    // Whether the set has no key. It takes no memory.
    pub(crate) fn is_empty(&self) -> bool
        ensures value { result ≡ (length self.now == 0) }
        ensures none { IsTrue result ↔ ((key : List ℕ) → covers self.now key ≡ false) }
    {
        self.shows_apart();
        self.ranges().next().is_none()
    }

    // Adds the keys of a range. It takes two walks along a few boundaries, or six searches of more at most, and writes once for
    // each boundary in the range. After a refusal the set is as it was (API reference, "Transaction": conflict ranges).
    pub(crate) fn add(&mut self, range: &KeyRange) -> Result<(), AllocError>
        ensures ok { OnOk result ((key : List ℕ)
            → covers self.new key ≡ (covers self.old key || has range.now key)) }
        ensures err { OnErr result (self.new ≡ self.old) }
    {
        self.most_boundaries = more_boundaries(self.most_boundaries, 1)?;
        put(&mut self.members, range, Membership(true))
    }

    // Takes the keys of a range away. It takes two walks along a few boundaries, or six searches of more at most, and writes once
    // for each boundary in the range. After a refusal the set is as it was (API reference, "Transaction": conflict ranges).
    pub(crate) fn subtract(&mut self, range: &KeyRange) -> Result<(), AllocError>
        ensures ok { OnOk result ((key : List ℕ)
            → covers self.new key ≡ (covers self.old key && not (has range.now key))) }
        ensures err { OnErr result (self.new ≡ self.old) }
    {
        self.most_boundaries = more_boundaries(self.most_boundaries, 1)?;
        put(&mut self.members, range, Membership(false))
    }

    // Adds the keys of all these ranges, or, after a refusal, of none of them (API reference, "Transaction": conflict
    // ranges).
    pub(crate) fn add_all(&mut self, ranges: &[KeyRange]) -> Result<(), AllocError>
        ensures ok { OnOk result ((key : List ℕ)
            → covers self.new key ≡ (covers self.old key || covers ranges.now key)) }
        ensures err { OnErr result ((key : List ℕ) → covers self.new key ≡ covers self.old key) }
    {
        self.most_boundaries = more_boundaries(self.most_boundaries, ranges.len())?;
        split_all(&mut self.members, ranges)?;
        put_all(&mut self.members, ranges, Membership(true));
        Ok(())
    }

    // Whether some key is in the set and in the range. It takes no memory, and one search for each boundary in the range that it
    // comes to, with one more for the begin.
    pub(crate) fn meets(&self, range: &KeyRange) -> bool
        ensures value { result ≡ list_any (λ own. meets own range.now) self.now }
        ensures common { IsTrue result
            ↔ ((key : List ℕ) × IsTrue (covers self.now key && has range.now key)) }
    {
        !self.is_unused() && any_in(&self.members, range)
    }

    // The ranges of the set, in rising order, for a loop over them. It takes no memory.
    pub(crate) fn ranges(&self) -> BoundaryRangesLeft<'_>
        ensures { result ≡ self.now }
    {
        BoundaryRangesLeft::new(&self.members, &self.lowest)
    }

    // How many ranges there are. It takes no memory, and walks over them.
    pub(crate) fn len(&self) -> usize
        ensures { result ≡ length self.now }
    {
        self.shows_few();
        self.ranges().count()
    }

    // The range at a place, counted from 0 in rising order: its begin and its end. It takes no memory, and walks over the
    // ranges before it.
    pub(crate) fn get(&self, index: usize) -> (&Key, &Key)
        requires { index < length self.now }
        ensures { slice_get self.now index ≡ Some (range_between result) }
    {
        let mut left = self.ranges();
        for _ in 0..index {
            let _passed = left.next();
        }
        left.next().unwrap()
    }

    // For proofs: that the number of ranges fits. It does nothing when it runs.
    fn shows_few(&self)
        ensures { length self.now < 2 ^ 64 }
    {
        let _most = self.most_boundaries;
    }

    // For proofs: that the ranges are not empty, lie apart and rise. It does nothing when it runs.
    pub(crate) fn shows_apart(&self)
        ensures { AreApart self.now }
    {
        self.members.shows_rising();
    }
}
