//! The changes of a commit, by one walk along the boundaries of its pending mutations; where it set one key, and no
//! more, that is the one change.
//!
//! All keys of a segment, from a boundary up to the next, have one state. Where that is a value or a list of atomic operations the
//! segment has one key, and one change; where they have no value each key that is stored there is removed; else nothing changes. So
//! the keys of the changes rise.

ghost use Rattle.std.specs.Prelude.{◌≡◌, ◌≢◌, ℕ, List, true, false, [], ◌∷◌, ◌++◌, Some, IfOk, MatchOption, OnOk, IsTrue, option_copied};
ghost use Rattle.std.specs.List.{All};
ghost use Rattle.model_database.specs.Databases.{Set, do_all};
ghost use Rattle.model_database.specs.KeyByKey.{is_modified_by};
ghost use Rattle.model_database.specs.States.{Decided, all_filled, covers, state_under, unreadable};
ghost use Rattle.ryw_view.specs.Segments.{IsSegment};
ghost use Rattle.ryw_view.specs.Views.{stored_of};
ghost use Rattle.version_store.specs.Changed.{changed, is_above};
ghost use Rattle.version_store.specs.Versions.{at, last_of};
ghost use Rattle.txn_parts.specs.Changing.{LeadUpTo};
ghost use Rattle.write_map.specs.Answers.{IsStateUnder};
ghost use Rattle.write_map.specs.Mutations.{mutations_of};

use key_bytes::{Bytes, Key};
use ryw_view::{View, applied};
use std::alloc::AllocError;
use version_store::{Change, Changes, Store};
use write_map::{KeyState, Mutation, WriteMap};

// Adds a change of a key above those of all others.
fn push(changes: &mut Changes, key: &Key, value: Option<Bytes>) -> Result<(), AllocError>
    requires { IsTrue (is_above changes.old key.now) }
    ensures { OnOk result (changes.new ≡ changes.old ++ (key.now, value) ∷ []) }
{
    let key = key.copy()?;
    changes.push(Change { key, value })
}

// Adds the changes of a segment whose keys have no value: each key that is stored there is removed. One search for all of them.
fn clear_stored(
    changes: &mut Changes,
    view: &View<'_>,
    begin: &Key,
    boundary: Option<&Key>,
) -> Result<(), AllocError>
    requires segment { IsSegment view.now.edits.now.mutations begin.now begin.now false (option_copied boundary) }
    requires cleared { state_under view.now.edits.now.mutations begin.now ≡ Decided None }
    requires before { LeadUpTo view.now.edits.now.mutations (stored_of view.now) (Some begin.now) changes.old }
    ensures { OnOk result (LeadUpTo view.now.edits.now.mutations (stored_of view.now) (option_copied boundary.entry) changes.new) }
{
    for (key, _) in view.stored_from(begin, boundary) {
        push(changes, key, None)?;
    }
    Ok(())
}

// Adds the changes of a segment whose keys have this value, or none.
fn add_decided(
    changes: &mut Changes,
    view: &View<'_>,
    begin: &Key,
    value: Option<&[u8]>,
    boundary: Option<&Key>,
) -> Result<(), AllocError>
    requires state { state_under view.now.edits.now.mutations begin.now ≡ Decided (option_copied value) }
    requires segment { IsSegment view.now.edits.now.mutations begin.now begin.now false (option_copied boundary) }
    requires before { LeadUpTo view.now.edits.now.mutations (stored_of view.now) (Some begin.now) changes.old }
    ensures { OnOk result (LeadUpTo view.now.edits.now.mutations (stored_of view.now) (option_copied boundary.entry) changes.new) }
{
    match value {
        None => clear_stored(changes, view, begin, boundary),
        Some(value) => {
            let value = Bytes::from_slice(begin.allocator(), value)?;
            push(changes, begin, Some(value))
        }
    }
}

// Adds the changes of a segment whose keys are in this state.
fn add_segment(
    changes: &mut Changes,
    view: &View<'_>,
    begin: &Key,
    state: KeyState<'_>,
    boundary: Option<&Key>,
) -> Result<(), AllocError>
    requires state { IsStateUnder view.now.edits.now.mutations begin.now state }
    requires segment { IsSegment view.now.edits.now.mutations begin.now begin.now false (option_copied boundary) }
    requires readable { covers (unreadable view.now.edits.now.mutations) begin.now ≡ false }
    requires before { LeadUpTo view.now.edits.now.mutations (stored_of view.now) (Some begin.now) changes.old }
    ensures { OnOk result (LeadUpTo view.now.edits.now.mutations (stored_of view.now) (option_copied boundary.entry) changes.new) }
{
    match state {
        KeyState::Unmodified => Ok(()),
        KeyState::Decided(value) => add_decided(changes, view, begin, value, boundary),
        KeyState::Depends(edits) => {
            let value = applied(begin.allocator(), edits.as_slice(), view.stored(begin))?;
            push(changes, begin, value)
        }
        KeyState::Unreadable => unreachable!(),
    }
}

// The changes of all segments from the least key on.
fn changes_from(view: &View<'_>, least: &Key) -> Result<Changes, AllocError>
    requires least { least.now ≡ [] }
    requires readable { unreadable view.now.edits.now.mutations ≡ [] }
    ensures only { IfOk result (λ changes. All (λ change. is_modified_by view.now.edits.now.mutations change.0 ≡ true) changes) }
    ensures leads { IfOk result (λ changes. changed changes (stored_of view.now)
        ≡ do_all view.now.edits.now.mutations (stored_of view.now)) }
{
    let mut changes = Changes::new(least.allocator());
    let mut from = least;
    loop {
        let (state, boundary) = view.edits.around(from);
        add_segment(&mut changes, view, from, state, boundary)?;
        let Some(boundary) = boundary else {
            return Ok(changes);
        };
        from = boundary;
    }
}

/// Returns the key and the value of the one mutation, exactly where there is one alone and it sets a key.
pub fn only_set(mutations: &[Mutation]) -> Option<(&Key, &Bytes)>
    ensures { MatchOption result ((key value : List ℕ) → mutations_of mutations.now ≢ Set key value ∷ [])
        (λ set. mutations_of mutations.now ≡ Set set.0.now set.1.now ∷ []) }
{
    match mutations {
        [Mutation::Set { key, value }] => Some((key, value)),
        _ => None,
    }
}

// The one change that sets a key.
fn change_of_set(key: &Key, value: &Bytes) -> Result<Changes, AllocError>
    ensures { IfOk result (λ changes. changes ≡ (key.now, Some value.now) ∷ []) }
{
    let mut changes = Changes::new(key.allocator());
    let value = value.copy()?;
    push(&mut changes, key, Some(value))?;
    Ok(changes)
}

/// Returns the changes that lead from the map at the store's last version to that map after mutations without a versionstamp.
/// They name only keys that a mutation touches. One mutation that sets a key takes no walk.
pub fn changes_at_last(edits: &WriteMap, store: &Store) -> Result<Changes, AllocError>
    requires readable { unreadable edits.now.mutations ≡ [] }
    ensures only { IfOk result (λ changes. All (λ change. is_modified_by edits.now.mutations change.0 ≡ true) changes) }
    ensures leads { IfOk result (λ changes. changed changes (at store.now (last_of store.now))
        ≡ do_all edits.now.mutations (at store.now (last_of store.now))) }
{
    if let Some((key, value)) = only_set(edits.mutations()) {
        let changes = change_of_set(key, value)?;
        return Ok(changes);
    }
    let view = View {
        edits,
        store,
        version: store.last(),
    };
    changes_from(&view, &Bytes::new(edits.allocator()))
}
