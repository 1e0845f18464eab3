//! The keys that a read adds to the read conflict ranges of its transaction.

ghost use Rattle.std.specs.Prelude.{◌≡◌, ◌≢◌, ◌||◌, ◌&&◌, not, ℕ, List, true, false, Ok, IsTrue, MatchOption, IfOk};
ghost use Rattle.std.specs.List.{list_any};
ghost use Rattle.key_bytes.specs.Ranges.{has, meets};
ghost use Rattle.ryw_view.specs.Segments.{is_open};
ghost use Rattle.model_database.specs.States.{covers, unreadable};
ghost use Rattle.model_database.specs.Intervals.{any_meet, decided, without};
ghost use Rattle.txn_parts.specs.ReadRanges.{ranges_of};

use conflict_ranges::RangeSet;
use key_bytes::KeyRange;
use ryw_view::{add_undecided, around_below, hides};
use std::alloc::AllocError;
use write_map::{KeyState, WriteMap};

// The keys of ranges that the mutations don't decide; None where a key of the ranges is unreadable.
fn undecided(edits: &WriteMap, interval: &[KeyRange]) -> Result<Option<Vec<KeyRange>>, AllocError>
    ensures { IfOk result (λ found. MatchOption found
        (any_meet interval.now (unreadable edits.now.mutations) ≡ true)
        (λ pieces. (any_meet interval.now (unreadable edits.now.mutations) ≡ false)
        × ((key : List ℕ) → covers pieces.items key ≡ covers (without (decided edits.now.mutations) interval.now) key))) }
{
    let mut pieces = Vec::new(edits.allocator());
    for range in interval {
        if !add_undecided(edits, range, &mut pieces)? {
            return Ok(None);
        }
    }
    Ok(Some(pieces))
}

// Whether a key of ranges is unreadable: it takes no search where no mutation has a versionstamp.
fn is_hidden(edits: &WriteMap, interval: &[KeyRange]) -> bool
    ensures { result ≡ any_meet interval.now (unreadable edits.now.mutations) }
{
    if !edits.has_stamps() {
        return false;
    }
    for range in interval {
        if hides(edits, range) {
            return true;
        }
    }
    false
}

// Whether the value of a key in this state depends on what is stored.
fn is_open(state: KeyState<'_>) -> bool
    ensures { result ≡ is_open state.entry }
{
    matches!(state, KeyState::Unmodified | KeyState::Depends(_))
}

// Whether one search of the boundaries tells that the mutations decide no key of a range, and make none unreadable.
fn lies_open(edits: &WriteMap, range: &KeyRange) -> bool
    ensures readable { IsTrue result → list_any (meets range.now) (unreadable edits.now.mutations) ≡ false }
    ensures open { IsTrue result → (key : List ℕ)
        → has range.now key ≡ (has range.now key && not (covers (decided edits.now.mutations) key)) }
{
    if range.is_empty() {
        return false;
    }
    match around_below(edits, &range.begin, &range.end) {
        (state, None) => is_open(state),
        (_, Some(_)) => false,
    }
}

// Adds to a set the keys of ranges that the mutations don't decide. False where a key of the ranges is unreadable: then, and after
// a refusal, the set has the same keys as before.
fn add_pieces(
    edits: &WriteMap,
    interval: &[KeyRange],
    ranges: &mut RangeSet,
) -> Result<bool, AllocError>
    ensures readable { IfOk result (λ readable. readable ≡ not (any_meet interval.now (unreadable edits.now.mutations))) }
    ensures added { result ≡ Ok true → (key : List ℕ) → covers ranges.new key
        ≡ (covers ranges.old key || covers (without (decided edits.now.mutations) interval.now) key) }
    ensures same { result ≢ Ok true → (key : List ℕ) → covers ranges.new key ≡ covers ranges.old key }
{
    if let [range] = interval {
        if lies_open(edits, range) {
            ranges.add(range)?;
            return Ok(true);
        }
    }
    let Some(pieces) = undecided(edits, interval)? else {
        return Ok(false);
    };
    ranges.add_all(&pieces)?;
    Ok(true)
}

/// Adds to a set of read conflict ranges the keys of a read's ranges that the mutations don't decide; a read by snapshot adds none.
/// False where a key of the ranges is unreadable: then, and after a refusal, the set has the same keys as before.
pub fn add_unless(
    snapshot: bool,
    edits: &WriteMap,
    interval: &[KeyRange],
    ranges: &mut RangeSet,
) -> Result<bool, AllocError>
    ensures readable { IfOk result (λ readable. readable ≡ not (any_meet interval.now (unreadable edits.now.mutations))) }
    ensures added { result ≡ Ok true → (key : List ℕ) → covers ranges.new key
        ≡ (covers ranges.old key || covers (without (decided edits.now.mutations) (ranges_of snapshot interval.now)) key) }
    ensures same { result ≢ Ok true → (key : List ℕ) → covers ranges.new key ≡ covers ranges.old key }
{
    if snapshot {
        return Ok(!is_hidden(edits, interval));
    }
    add_pieces(edits, interval, ranges)
}
