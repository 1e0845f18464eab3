//! What the boundaries have, in a list, at the places that the boundaries name.

ghost use Rattle.std.specs.Prelude.{◌≡◌, ◌⊎◌, ◌+◌, ◌<◌, length, take};
ghost use Rattle.key_bytes.specs.Keys.{within};
ghost use Rattle.range_map.specs.Boundaries.{changed_entries};
ghost use Rattle.range_map.specs.Places.{laid_out, HasPlaces};

use crate::change::Change;
use key_bytes::{Bytes, Key};
use std::collections::BTreeMap;

// Changes what lies at the places of the boundaries from `begin` on that are less than `end`: one search of the boundaries.
pub(crate) fn change_between<T, C: Change<T>>(
    places: &BTreeMap<Bytes, usize>,
    levels: &mut Vec<T>,
    begin: &Key,
    end: &Key,
    change: &C,
)
    requires { HasPlaces (length levels.old.items) places.now.entries }
    ensures changed { (base : T) → laid_out base levels.new.items places.now.entries
        ≡ changed_entries (within begin.now end.now) (C.changed change.now)
        (laid_out base levels.old.items places.now.entries) }
    ensures len { length levels.new.items ≡ length levels.old.items }
{
    for (boundary, place) in places.range(begin..) {
        if !boundary.cmp(end).is_lt() {
            return;
        }
        change.change(&mut levels[*place]);
    }
}

// Takes the thing at a place away where it is the last one.
pub(crate) fn pop_last<T: Drop>(levels: &mut Vec<T>, place: usize)
    requires { place < length levels.old.items }
    ensures { (levels.new.items ≡ levels.old.items)
        ⊎ ((place + 1 ≡ length levels.old.items) × (levels.new.items ≡ take place levels.old.items)) }
{
    if place + 1 == levels.len() {
        let _last = levels.pop();
    }
}
