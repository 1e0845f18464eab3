//! The ranges of a set that a loop has not come to yet.

ghost use Rattle.std.specs.Prelude.{◌≡◌, [], ◌∷◌, length};
ghost use Rattle.std.specs.Iterator.{at_most};
ghost use Rattle.std.specs.Map.Iter.{TakesFirst};
ghost use Rattle.conflict_ranges.specs.Segments.{range_between};

use crate::boundary_ranges_left::BoundaryRangesLeft;
use key_bytes::{Key, KeyRange};
use std::iter::FusedIterator;
use std::marker::Model;

/// The ranges that are left, in rising order, each as its begin and its end, for a loop over them. None is copied, and
/// there is one search for all of them; none where the set keeps its range in place. Contracts see the list of these ranges.
#[derive(Drop)]
pub struct RangesLeft<'a> {
    // The range in place of its set, until it is taken.
    only: Option<&'a KeyRange>,
    // Those between the boundaries, where the set keeps none in place.
    laid: Option<BoundaryRangesLeft<'a>>,
}

impl<'a> Model for RangesLeft<'a> {
    ghost use Rattle.std.specs.Prelude.{List};
    ghost use Rattle.std.specs.Prelude.{[]};
    ghost use Rattle.std.specs.Option.{option_map, unwrap_or};
    ghost use Rattle.key_bytes.specs.declared.range.KeyRange.{KeyRange};
    ghost use Rattle.conflict_ranges.specs.Only.{only_and};

    ghost Value = { List KeyRange };

    ghost view = { λ left. only_and (option_map (λ range. range.now) left.only) (unwrap_or left.laid []) };
}

impl<'a> RangesLeft<'a> {
    // No range.
    pub(crate) fn none() -> RangesLeft<'a>
        ensures { result ≡ [] }
    {
        RangesLeft {
            only: None,
            laid: None,
        }
    }

    // The range in place of its set.
    pub(crate) fn one(only: &'a KeyRange) -> RangesLeft<'a>
        ensures { result ≡ only.now ∷ [] }
    {
        RangesLeft {
            only: Some(only),
            laid: None,
        }
    }

    // What is left between the boundaries.
    pub(crate) fn of_boundaries(laid: BoundaryRangesLeft<'a>) -> RangesLeft<'a>
        ensures { result ≡ laid.entry }
    {
        RangesLeft {
            only: None,
            laid: Some(laid),
        }
    }
}

impl<'a> Iterator for RangesLeft<'a> {
    type Item = (&'a Key, &'a Key);

    ghost next_gives = { TakesFirst range_between };

    ghost remaining = { λ left. at_most (length left) };

    /// Takes the first range that is left, and returns its begin and its end.
    fn next(&mut self) -> Option<(&'a Key, &'a Key)> {
        match self.only.take() {
            Some(only) => Some((&only.begin, &only.end)),
            None => match &mut self.laid {
                Some(laid) => laid.next(),
                None => None,
            },
        }
    }
}

impl<'a> FusedIterator for RangesLeft<'a> {}
