//! The view for a walk that begins at a key: a step among the keys around that one which no mutation touches takes one
//! search of the store alone.

ghost use Rattle.std.specs.Prelude.{◌≡◌, ◌<◌, ◌≤◌, ◌++◌, ℕ, List, true, false, length, IfOk, IfSome, option_copied, option_map};
ghost use Rattle.std.specs.Map.Iter.{deref_pair};
ghost use Rattle.std.specs.Option.{ForSome};
ghost use Rattle.key_bytes.specs.Keys.{key_lt};
ghost use Rattle.model_database.specs.Slices.{span};
ghost use Rattle.model_database.specs.States.{seen};
ghost use Rattle.version_store.specs.Versions.{at};
ghost use Rattle.ryw_view.specs.Segments.{AreBare};
ghost use Rattle.ryw_view.specs.Views.{seen_of};
ghost use Rattle.ryw_view.specs.Walks.{is_inside, from_of, MeetsFirst};

use crate::stored::is_inside;
use crate::view::View;
use crate::walking::{copied, pair_of};
use key_bytes::{Bytes, Key, KeyRange, Pair, Pairs};
use range_read::{OrderedView, Taken, is_full};
use std::alloc::AllocError;
use write_map::KeyState;

/// A view for a walk that begins at a key. It shows the same database as the view that it was made of, and remembers keys
/// around that one which no mutation touches.
#[derive(Drop)]
pub struct NearView<'a> {
    /// The view that it was made of.
    pub view: View<'a>,
    // No mutation touches the keys from `low` on, below `high` where there is one. Without `low` none is remembered.
    low: Option<Key>,
    high: Option<Key>,
    ghost untouched: { ForSome low (λ low. AreBare view.edits.now.mutations low false high) },
}

// A copy of the boundary of a segment.
fn copied_boundary(boundary: Option<&Key>) -> Result<Option<Key>, AllocError>
    ensures { IfOk result (λ copy. copy ≡ option_copied boundary.entry) }
{
    match boundary {
        None => Ok(None),
        Some(boundary) => Ok(Some(boundary.copy()?)),
    }
}

// Whether the keys below a key are below the boundary of a segment.
fn is_up_to(key: &Key, boundary: Option<&Key>) -> bool
    ensures { result ≡ true → (q : List ℕ) → key_lt q key.now ≡ true
        → is_inside (option_copied boundary.entry) false q ≡ true }
{
    match boundary {
        None => true,
        Some(boundary) => !boundary.cmp(key).is_lt(),
    }
}

// A key up to which keys are below an end and in the segment up to a boundary: the nearer one of the two.
fn nearer<'b>(end: &'b Key, boundary: Option<&'b Key>) -> &'b Key
    ensures below { (q : List ℕ) → key_lt q result.now ≡ true
        → (key_lt q end.now ≡ true) × (is_inside (option_copied boundary.entry) false q ≡ true) }
    ensures nearest { (q : List ℕ) → key_lt q end.now ≡ true → is_inside (option_copied boundary.entry) false q ≡ true
        → key_lt q result.now ≡ true }
{
    match boundary {
        None => end,
        Some(boundary) => {
            if boundary.cmp(end).is_lt() {
                boundary
            } else {
                end
            }
        }
    }
}

// Where a walk goes on that began at a key, and met this one last.
fn begin_behind(begin: &Key, last: Option<&Key>) -> Result<Key, AllocError>
    ensures { IfOk result (λ from. from ≡ from_of begin.now (option_copied last.entry)) }
{
    match last {
        Some(key) => key.after(),
        None => begin.copy(),
    }
}

// What a walk took of a range, of which it left all from a key on.
fn left_of(pairs: Pairs, begin: Key, range: &KeyRange) -> Result<Taken, AllocError>
    ensures pairs { IfOk result (λ taken. taken.pairs ≡ pairs) }
    ensures begin { IfOk result (λ taken. taken.left.begin ≡ begin) }
    ensures end { IfOk result (λ taken. taken.left.end ≡ range.now.end) }
{
    let end = range.end.copy()?;
    Ok(Taken {
        pairs,
        left: KeyRange { begin, end },
    })
}

impl<'a> NearView<'a> {
    /// Makes a view for a walk up from a key, or down from it. It remembers the keys from there up to the first boundary above, or
    /// down to the last boundary below, where no mutation touches them. An error where memory runs out.
    pub fn new(view: View<'a>, key: &Key, reverse: bool) -> Result<NearView<'a>, AllocError>
        ensures { IfOk result (λ near. seen near.view.edits.now.mutations (at near.view.store.now near.view.version)
            ≡ seen view.entry.edits.now.mutations (at view.entry.store.now view.entry.version)) }
    {
        if reverse {
            NearView::below(view, key)
        } else {
            NearView::above(view, key)
        }
    }

    // Remembers the keys from one on, up to the first boundary above it.
    fn above(view: View<'a>, key: &Key) -> Result<NearView<'a>, AllocError>
        ensures { IfOk result (λ near. seen_of near.view ≡ seen_of view.entry) }
    {
        let (state, boundary) = view.edits.around(key);
        match state {
            KeyState::Unmodified => NearView::knowing(view, key, boundary),
            _ => Ok(NearView::knowing_none(view)),
        }
    }

    // Remembers the keys below one, down to the last boundary below it.
    fn below(view: View<'a>, key: &Key) -> Result<NearView<'a>, AllocError>
        ensures { IfOk result (λ near. seen_of near.view ≡ seen_of view.entry) }
    {
        let Some(boundary) = view.edits.prev_edge(key) else {
            let lowest = Bytes::new(key.allocator());
            return NearView::knowing(view, &lowest, Some(key));
        };
        match view.edits.at(boundary) {
            KeyState::Unmodified => NearView::knowing(view, boundary, Some(key)),
            _ => Ok(NearView::knowing_none(view)),
        }
    }

    // Remembers these keys.
    fn knowing(view: View<'a>, low: &Key, high: Option<&Key>) -> Result<NearView<'a>, AllocError>
        requires { AreBare view.edits.now.mutations low.now false (option_copied high) }
        ensures { IfOk result (λ near. seen_of near.view ≡ seen_of view.entry) }
    {
        let low = low.copy()?;
        let high = copied_boundary(high)?;
        Ok(NearView {
            view,
            low: Some(low),
            high,
        })
    }

    // Remembers no key.
    fn knowing_none(view: View<'a>) -> NearView<'a>
        ensures { seen_of result.view ≡ seen_of view.entry }
    {
        NearView {
            view,
            low: None,
            high: None,
        }
    }

    // The first pair from a remembered key on, where its own key is remembered.
    fn next_near(&self, key: &Key) -> Option<(&'a Key, &'a Bytes)>
        ensures { IfSome (option_map deref_pair result) (MeetsFirst (seen_of self.now.view) key.now false) }
    {
        let Some(low) = &self.low else {
            return None;
        };
        let high = self.high.as_ref();
        if is_inside(key, Some(low), true) && is_inside(key, high, false) {
            self.view.first_stored(key, high)
        } else {
            None
        }
    }

    // Whether a key is one that it remembers.
    fn remembers(&self, key: &Key) -> bool
        ensures { result ≡ true → AreBare self.now.view.edits.now.mutations key.now false self.now.high
            × (is_inside self.now.high false key.now ≡ true) }
    {
        match &self.low {
            Some(low) => is_inside(key, Some(low), true)
                && is_inside(key, self.high.as_ref(), false),
            None => false,
        }
    }

    // The remembered pairs at the begin of a range that begins with a remembered key: by one search of the store, and one walk
    // behind it.
    fn run_up(&self, range: &KeyRange, limit: u32) -> Result<Taken, AllocError>
        requires bare { AreBare self.now.view.edits.now.mutations range.now.begin false self.now.high }
        requires inside { is_inside self.now.high false range.now.begin ≡ true }
        requires some { key_lt range.now.begin range.now.end ≡ true }
        ensures whole { IfOk result (λ taken. taken.pairs ++ span (seen_of self.now.view) taken.left.begin taken.left.end false
            ≡ span (seen_of self.now.view) range.now.begin range.now.end false) }
        ensures short { IfOk result (λ taken. 0 < limit → length taken.pairs ≤ limit) }
    {
        let until = nearer(&range.end, self.high.as_ref());
        let mut pairs = Pairs::new(range.begin.allocator());
        let mut last = None;
        for (key, value) in self.view.stored_from(&range.begin, Some(until)) {
            if is_full(limit, pairs.len()) {
                let begin = begin_behind(&range.begin, last)?;
                return left_of(pairs, begin, range);
            }
            pairs.push(pair_of(key, value)?)?;
            last = Some(key);
        }
        let begin = until.copy()?;
        let taken = left_of(pairs, begin, range)?;
        Ok(taken)
    }

    // The last pair below a key, where the keys below it are remembered, and that of the pair is.
    fn prev_near(&self, key: &Key) -> Option<(&'a Key, &'a Bytes)>
        ensures { IfSome (option_map deref_pair result) (MeetsFirst (seen_of self.now.view) key.now true) }
    {
        let Some(low) = &self.low else {
            return None;
        };
        if low.cmp(key).is_lt() && is_up_to(key, self.high.as_ref()) {
            self.view.last_stored(key, Some(low))
        } else {
            None
        }
    }
}

impl<'a> OrderedView for NearView<'a> {
    ghost map = { λ near. seen near.view.edits.now.mutations (at near.view.store.now near.view.version) };

    fn next(&self, key: &Key) -> Result<Option<Pair>, AllocError> {
        match self.next_near(key) {
            Some(pair) => copied(Some(pair)),
            None => self.view.next(key),
        }
    }

    fn prev(&self, key: &Key) -> Result<Option<Pair>, AllocError> {
        match self.prev_near(key) {
            Some(pair) => copied(Some(pair)),
            None => self.view.prev(key),
        }
    }

    fn run(&self, range: &KeyRange, limit: u32, reverse: bool) -> Result<Taken, AllocError> {
        if reverse || range.is_empty() || !self.remembers(&range.begin) {
            return Taken::none(range);
        }
        self.run_up(range, limit)
    }
}
