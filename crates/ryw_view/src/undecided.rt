//! The keys of a range whose values depend on what is stored, and whether a range can be read.

ghost use Rattle.std.specs.Prelude.{◌≡◌, ℕ, List, true, not, ◌&&◌, ◌||◌, Ok, MatchOption, IfOk};
ghost use Rattle.std.specs.List.{list_any};
ghost use Rattle.key_bytes.specs.Keys.{within};
ghost use Rattle.key_bytes.specs.Ranges.{has, meets};
ghost use Rattle.model_database.specs.Intervals.{decided};
ghost use Rattle.model_database.specs.States.{covers, unreadable};
ghost use Rattle.write_map.specs.Answers.{IsStateUnder};
ghost use Rattle.ryw_view.specs.Segments.{is_hidden, is_open, AreAlikeUpTo, IsBoundaryBelow};

use key_bytes::{Key, KeyRange};
use std::alloc::AllocError;
use write_map::{KeyState, WriteMap};

/// Returns what the mutations make of a key, and how far all keys from it on are alike: up to a boundary below the end of a range,
/// or, where no boundary is given, up to that end. It takes one search.
pub fn around_below<'a>(
    edits: &'a WriteMap,
    from: &Key,
    end: &Key,
) -> (KeyState<'a>, Option<&'a Key>)
    ensures state { IsStateUnder edits.now.mutations from.now result.0 }
    ensures boundary { MatchOption result.1
        (AreAlikeUpTo edits.now.mutations from.now end.now)
        (λ boundary. IsBoundaryBelow edits.now from.now end.now boundary.now) }
{
    let (state, boundary) = edits.around(from);
    match boundary {
        Some(boundary) if boundary.cmp(end).is_lt() => (state, Some(boundary)),
        _ => (state, None),
    }
}

// Whether a key in this state is unreadable.
fn is_hidden(state: KeyState<'_>) -> bool
    ensures { result ≡ is_hidden state.entry }
{
    matches!(state, KeyState::Unreadable)
}

// Adds the keys from one on, up to another, where their state leaves them undecided. False where they can't be read.
fn add_segment(
    state: KeyState<'_>,
    from: &Key,
    until: &Key,
    pieces: &mut Vec<KeyRange>,
) -> Result<bool, AllocError>
    ensures readable { IfOk result (λ readable. readable ≡ not (is_hidden state.entry)) }
    ensures added { result ≡ Ok true → (key : List ℕ) → covers pieces.new.items key
        ≡ (covers pieces.old.items key || (within from.now until.now key && is_open state.entry)) }
{
    match state {
        KeyState::Unreadable => Ok(false),
        KeyState::Decided(_) => Ok(true),
        _ => {
            let (begin, end) = (from.copy()?, until.copy()?);
            pieces.push(KeyRange { begin, end })?;
            Ok(true)
        }
    }
}

/// Adds the keys of a range whose values depend on what is stored: those that no mutation sets or clears. An atomic operation alone
/// leaves its key among them (API reference of release 6.3, "Transaction": conflict ranges; "fdb_transaction_atomic_op").
///
/// False where a mutation with a versionstamp makes a key of the range unreadable, so that the range can't be read. It is one walk
/// along the boundaries of the mutations that lie in the range, with one search for each. After false, or after a refusal, some of
/// the pieces may have been added.
pub fn add_undecided(
    edits: &WriteMap,
    range: &KeyRange,
    pieces: &mut Vec<KeyRange>,
) -> Result<bool, AllocError>
    ensures readable { IfOk result (λ readable. readable
        ≡ not (list_any (meets range.now) (unreadable edits.now.mutations))) }
    ensures added { result ≡ Ok true → (key : List ℕ) → covers pieces.new.items key
        ≡ (covers pieces.old.items key
        || (has range.now key && not (covers (decided edits.now.mutations) key))) }
{
    if range.is_empty() {
        return Ok(true);
    }
    let mut from = &range.begin;
    loop {
        let (state, boundary) = around_below(edits, from, &range.end);
        if !add_segment(state, from, boundary.unwrap_or(&range.end), pieces)? {
            return Ok(false);
        }
        let Some(boundary) = boundary else {
            return Ok(true);
        };
        from = boundary;
    }
}

/// Tells whether a mutation with a versionstamp makes a key of a range unreadable, so that the range can't be read (API reference
/// of release 6.3, "fdb_transaction_atomic_op"). Where no mutation has a versionstamp it searches nothing; else it is one walk
/// along the boundaries of the mutations that lie in the range, with one search for each.
pub fn hides(edits: &WriteMap, range: &KeyRange) -> bool
    ensures { result ≡ list_any (meets range.now) (unreadable edits.now.mutations) }
{
    if !edits.has_stamps() || range.is_empty() {
        return false;
    }
    let mut from = &range.begin;
    loop {
        let (state, boundary) = around_below(edits, from, &range.end);
        if is_hidden(state) {
            return true;
        }
        let Some(boundary) = boundary else {
            return false;
        };
        from = boundary;
    }
}
