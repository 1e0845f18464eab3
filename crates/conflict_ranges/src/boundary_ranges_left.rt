//! The ranges between the boundaries of a set that a loop has not come to yet.

ghost use Rattle.std.specs.Prelude.{◌≡◌, length};
ghost use Rattle.std.specs.Iterator.{at_most};
ghost use Rattle.std.specs.Map.Iter.{TakesFirst};
ghost use Rattle.conflict_ranges.specs.Segments.{range_between, left_from};

use crate::membership::Membership;
use key_bytes::Key;
use range_map::{BoundariesLeft, RangeMap};
use std::iter::FusedIterator;
use std::marker::Model;
use std::mem;

// The ranges that are left, in rising order, each as its begin and its end, for a loop over them: a walk from boundary to boundary,
// which copies none and takes one search for all of them. Contracts see the list of these ranges.
#[derive(Drop)]
pub(crate) struct BoundaryRangesLeft<'a> {
    // Where the walk is, and whether the keys from there up to the next boundary are in the set.
    begin: &'a Key,
    membership: Membership,
    boundaries: BoundariesLeft<'a, Membership>,
}

impl<'a> Model for BoundaryRangesLeft<'a> {
    ghost use Rattle.std.specs.Prelude.{List};
    ghost use Rattle.key_bytes.specs.declared.range.KeyRange.{KeyRange};
    ghost use Rattle.conflict_ranges.specs.Segments.{ranges_from};

    ghost Value = { List KeyRange };

    ghost view = { λ left. ranges_from left.begin.now left.membership left.boundaries };
}

impl<'a> BoundaryRangesLeft<'a> {
    // The ranges of a set from a key on.
    pub(crate) fn new(members: &'a RangeMap<Membership>, lowest: &'a Key) -> BoundaryRangesLeft<'a>
        ensures { result ≡ left_from members.now lowest.now }
    {
        BoundaryRangesLeft {
            begin: lowest,
            membership: *members.at(lowest),
            boundaries: members.boundaries_above(lowest),
        }
    }
}

impl<'a> Iterator for BoundaryRangesLeft<'a> {
    type Item = (&'a Key, &'a Key);

    ghost next_gives = { TakesFirst range_between };

    ghost remaining = { λ left. at_most (length left) };

    // The first range that is left, which it takes. It takes no memory.
    fn next(&mut self) -> Option<(&'a Key, &'a Key)> {
        while let Some((boundary, membership)) = self.boundaries.next() {
            let begin = mem::replace(&mut self.begin, boundary);
            let before = mem::replace(&mut self.membership, *membership);
            if before.0 {
                return Some((begin, boundary));
            }
        }
        None
    }
}

impl<'a> FusedIterator for BoundaryRangesLeft<'a> {}
