//! Walks along the keys of a view, up or down.

ghost use Rattle.std.specs.Prelude.{◌≡◌, ◌<◌, ◌≤◌, ◌++◌, ℕ, true, false, IfOk};
ghost use Rattle.std.specs.Option.{option_map};
ghost use Rattle.key_bytes.specs.Entries.{entry_of};
ghost use Rattle.key_map.specs.Ends.{first};
ghost use Rattle.model_database.specs.Slices.{slice, span};
ghost use Rattle.range_read.specs.Walks.{begin_behind, behind, end_behind, near, onward};

use crate::taken::Taken;
use crate::view::OrderedView;
use key_bytes::{Key, KeyRange, Pair};
use std::alloc::AllocError;

// The first pair that a walk from a key meets.
pub(crate) fn step<V: OrderedView>(
    view: &V,
    from: &Key,
    reverse: bool,
) -> Result<Option<Pair>, AllocError>
    ensures { IfOk result (λ pair. option_map entry_of pair
        ≡ first (onward (V.map view.now) from.now reverse)) }
{
    if reverse {
        view.prev(from)
    } else {
        view.next(from)
    }
}

// Where a walk goes on behind a key that it met.
pub(crate) fn go_on(key: Key, reverse: bool) -> Result<Key, AllocError>
    ensures { IfOk result (λ from. from ≡ behind key reverse) }
{
    if reverse { Ok(key) } else { key.after() }
}

// The end of a range at which a walk through it starts.
fn near_end(range: &KeyRange, reverse: bool) -> &Key
    ensures { result.now ≡ near range.now.begin range.now.end reverse }
{
    if reverse { &range.end } else { &range.begin }
}

// The first pair that a walk through a range meets.
pub(crate) fn first_inside<V: OrderedView>(
    view: &V,
    range: &KeyRange,
    reverse: bool,
) -> Result<Option<Pair>, AllocError>
    ensures { IfOk result (λ pair. option_map entry_of pair
        ≡ first (span (V.map view.now) range.now.begin range.now.end reverse)) }
{
    if range.is_empty() {
        return Ok(None);
    }
    let Some(pair) = step(view, near_end(range, reverse), reverse)? else {
        return Ok(None);
    };
    if range.has(pair.key.as_slice()) {
        Ok(Some(pair))
    } else {
        Ok(None)
    }
}

// What is left of a range behind a key that a walk met in it.
fn left_behind(range: KeyRange, key: &Key, reverse: bool) -> Result<KeyRange, AllocError>
    ensures begin { IfOk result (λ left. left.begin ≡ begin_behind range.begin key.now reverse) }
    ensures end { IfOk result (λ left. left.end ≡ end_behind range.end key.now reverse) }
{
    if reverse {
        Ok(KeyRange {
            begin: range.begin,
            end: key.copy()?,
        })
    } else {
        Ok(KeyRange {
            begin: key.after()?,
            end: range.end,
        })
    }
}

/// Tells whether so many pairs reach a limit; 0 is no limit.
pub fn is_full(limit: u32, taken: usize) -> bool
    ensures full { result ≡ true → (0 < limit) × (limit ≤ taken) }
    ensures room { result ≡ false → 0 < limit → taken < limit }
{
    limit != 0 && limit as usize <= taken
}

// Takes the first pairs of a range, up to a limit, and says what is left of the range behind them: those that the view comes
// to at once, and one after the other those behind them.
pub(crate) fn walk<V: OrderedView>(
    view: &V,
    range: &KeyRange,
    limit: u32,
    reverse: bool,
) -> Result<Taken, AllocError>
    ensures pairs { IfOk result (λ taken. taken.pairs
        ≡ slice (V.map view.now) range.now.begin range.now.end limit reverse) }
    ensures whole { IfOk result (λ taken. taken.pairs ++ span (V.map view.now) taken.left.begin taken.left.end reverse
        ≡ span (V.map view.now) range.now.begin range.now.end reverse) }
{
    let run = view.run(range, limit, reverse)?;
    let mut pairs = run.pairs;
    let mut left = run.left;
    while !is_full(limit, pairs.len()) {
        let Some(pair) = first_inside(view, &left, reverse)? else {
            return Ok(Taken { pairs, left });
        };
        left = left_behind(left, &pair.key, reverse)?;
        pairs.push(pair)?;
    }
    Ok(Taken { pairs, left })
}
