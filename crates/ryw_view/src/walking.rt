//! Walks along the keys of a view, from boundary to boundary of the mutations.

ghost use Rattle.std.specs.Prelude.{◌≡◌, true, false, Some, IfOk, option_copied, option_map};
ghost use Rattle.std.specs.FinMap as finite;
ghost use Rattle.std.specs.Map.Iter.{deref_pair};
ghost use Rattle.key_bytes.specs.Entries.{entry_of};
ghost use Rattle.model_database.specs.States.{seen};
ghost use Rattle.version_store.specs.Versions.{at};
ghost use Rattle.write_map.specs.Answers.{IsStateUnder};
ghost use Rattle.ryw_view.specs.Segments.{IsSegment};
ghost use Rattle.ryw_view.specs.Views.{seen_of};
ghost use Rattle.ryw_view.specs.Walks.{IsFirstMet};

use crate::view::View;
use key_bytes::{Bytes, Key, KeyRange, Pair};
use range_read::{OrderedView, Taken};
use std::alloc::AllocError;
use write_map::KeyState;

// A pair, of copies of this key and this value.
pub(crate) fn pair_of(key: &Key, value: &Bytes) -> Result<Pair, AllocError>
    ensures { IfOk result (λ pair. entry_of pair ≡ (key.now, value.now)) }
{
    Ok(Pair {
        key: key.copy()?,
        value: value.copy()?,
    })
}

// A copy of a pair.
pub(crate) fn copied(found: Option<(&Key, &Bytes)>) -> Result<Option<Pair>, AllocError>
    ensures { IfOk result (λ pair. option_map entry_of pair ≡ option_map deref_pair found.entry) }
{
    match found {
        None => Ok(None),
        Some((key, value)) => Ok(Some(pair_of(key, value)?)),
    }
}

impl<'a> View<'a> {
    // The pair of a key in this state, where it has a value.
    fn pair_in(&self, key: &Key, state: KeyState<'_>) -> Result<Option<Pair>, AllocError>
        requires { IsStateUnder self.now.edits.now.mutations key.now state }
        ensures { IfOk result (λ pair. option_map entry_of pair
            ≡ option_map (λ value. (key.now, value)) (finite.get (seen_of self.now) key.now)) }
    {
        match self.value_in(key, state)? {
            None => Ok(None),
            Some(value) => Ok(Some(Pair {
                key: key.copy()?,
                value,
            })),
        }
    }

    // The first pair from a key in this state on, in the segment up to the boundary above it.
    fn first_in(
        &self,
        from: &Key,
        state: KeyState<'_>,
        boundary: Option<&Key>,
    ) -> Result<Option<Pair>, AllocError>
        requires state { IsStateUnder self.now.edits.now.mutations from.now state }
        requires segment { IsSegment self.now.edits.now.mutations from.now from.now false (option_copied boundary) }
        ensures { IfOk result (λ pair. IsFirstMet (seen_of self.now) from.now false (option_copied boundary.entry)
            (option_map entry_of pair)) }
    {
        match state {
            KeyState::Unmodified => copied(self.first_stored(from, boundary)),
            state => self.pair_in(from, state),
        }
    }

    // The last pair below a key, in the segment from the boundary below it on.
    fn last_in(&self, until: &Key, boundary: &Key) -> Result<Option<Pair>, AllocError>
        requires { IsSegment self.now.edits.now.mutations boundary.now until.now true (Some boundary.now) }
        ensures { IfOk result (λ pair. IsFirstMet (seen_of self.now) until.now true (Some boundary.now)
            (option_map entry_of pair)) }
    {
        match self.edits.at(boundary) {
            KeyState::Unmodified => copied(self.last_stored(until, Some(boundary))),
            state => self.pair_in(boundary, state),
        }
    }
}

impl<'a> OrderedView for View<'a> {
    ghost map = { λ view. seen view.edits.now.mutations (at view.store.now view.version) };

    fn next(&self, key: &Key) -> Result<Option<Pair>, AllocError> {
        let mut from = key;
        loop {
            let (state, boundary) = self.edits.around(from);
            if let Some(pair) = self.first_in(from, state, boundary)? {
                return Ok(Some(pair));
            }
            let Some(boundary) = boundary else {
                return Ok(None);
            };
            from = boundary;
        }
    }

    fn prev(&self, key: &Key) -> Result<Option<Pair>, AllocError> {
        let mut until = key;
        while let Some(boundary) = self.edits.prev_edge(until) {
            if let Some(pair) = self.last_in(until, boundary)? {
                return Ok(Some(pair));
            }
            until = boundary;
        }
        copied(self.last_stored(until, None))
    }

    fn run(&self, range: &KeyRange, _limit: u32, _down: bool) -> Result<Taken, AllocError> {
        Taken::none(range)
    }
}
