//! A walk from boundary to boundary within a range.

ghost use Rattle.std.specs.Prelude.{◌≡◌};
ghost use Rattle.range_map.specs.Boundaries.{held};
ghost use Rattle.conflict_ranges.specs.Ends.{IsNextWithin};

use key_bytes::Key;
use range_map::RangeMap;

// What a key has, and the first boundary above it, if it is below an end. It takes no memory.
pub(crate) fn around_within<'a, T>(
    boundaries: &'a RangeMap<T>,
    from: &Key,
    end: &Key,
) -> (&'a T, Option<&'a Key>)
    ensures at { result.0.now ≡ held boundaries.now from.now }
    ensures next { IsNextWithin from.now end.now boundaries.now result.1 }
{
    let (level, next) = boundaries.around(from);
    match next {
        Some(boundary) if boundary.cmp(end).is_lt() => (level, Some(boundary)),
        _ => (level, None),
    }
}
