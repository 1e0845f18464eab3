//! The newest versions between two keys.

ghost use Rattle.std.specs.Prelude.{◌≡◌, ◌≢◌, ◌≤◌, ◌⊎◌, ℕ, List, true, IsTrue, MatchBool};
ghost use Rattle.std.specs.FinMap as finite;
ghost use Rattle.key_bytes.specs.Keys.{after, key_lt, within};
ghost use Rattle.range_map.specs.Boundaries.{held};
ghost use Rattle.conflict_ranges.specs.Generations.{version_in};

use key_bytes::Key;
use key_map::KeyMap;
use range_map::{Change, RangeMap};

// The keys were last written at this version, whatever it was before.
#[derive(Drop)]
pub(crate) struct Written(pub(crate) u64);

impl Change<u64> for Written {
    ghost changed = { λ written _. written.0 };

    fn change(&self, level: &mut u64) {
        *level = self.0;
    }
}

// Whether a key is the next one after another. It takes no memory.
pub(crate) fn is_after(key: &Key, next: &Key) -> bool
    ensures { MatchBool result (next.now ≡ after key.now) (next.now ≢ after key.now) }
{
    match next.as_slice().split_last() {
        Some((last, front)) => *last == 0 && front == key.as_slice(),
        None => false,
    }
}

// The newest version that ranges give a key from `begin` on that is less than `end`. It takes no memory, two searches, and one step
// for each boundary between them.
pub(crate) fn newest_of_ranges(ranges: &RangeMap<u64>, begin: &Key, end: &Key) -> u64
    requires { IsTrue (key_lt begin.now end.now) }
    ensures above { (key : List ℕ) → within begin.now end.now key ≡ true → held ranges.now key ≤ result }
    ensures reached { (key : List ℕ) × (within begin.now end.now key ≡ true) × (held ranges.now key ≡ result) }
{
    ranges.shows_rising();
    let mut newest = *ranges.at(begin);
    for (_, version) in ranges.boundaries_between(begin, end) {
        newest = newest.max(*version);
    }
    newest
}

// The newest version of a key by itself from `begin` on that is less than `end`, or 0. It takes no memory, one search, and one step
// for each key between them.
pub(crate) fn newest_of_keys(keys: &KeyMap<u64>, begin: &Key, end: &Key) -> u64
    requires { IsTrue (key_lt begin.now end.now) }
    ensures above { (key : List ℕ) → within begin.now end.now key ≡ true → version_in (finite.get keys.now key) ≤ result }
    ensures reached { (result ≡ 0)
        ⊎ ((key : List ℕ) × (within begin.now end.now key ≡ true) × (version_in (finite.get keys.now key) ≡ result)) }
{
    let mut newest = 0;
    for (_, version) in keys.between(begin, end) {
        newest = newest.max(*version);
    }
    newest
}
