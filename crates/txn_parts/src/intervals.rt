//! The read conflict range of a read, by its answer.

ghost use Rattle.std.specs.Prelude.{◌≡◌, IfOk};
ghost use Rattle.model_database.specs.Intervals as rules;

use key_bytes::{Bytes, Key, KeyRange, Pairs};
use model_database::{RangeOptions, Selector};
use range_read::start_key;
use std::alloc::{AllocError, Global};

// Where the interval ends of a read that found this key: behind it, but at FF where it is FF.
fn end_at(found: &Key) -> Result<Key, AllocError>
    ensures { IfOk result (λ end. end ≡ rules.end_at found.now) }
{
    if found.as_slice() == [0xff].as_slice() {
        found.copy()
    } else {
        found.after()
    }
}

/// Returns the interval of a selector: from its place up to the key that was found, or down to it.
pub fn selector_interval(
    alloc: Global,
    selector: &Selector,
    found: &Key,
) -> Result<KeyRange, AllocError>
    ensures { IfOk result (λ range. range ≡ rules.selector_interval selector.now found.now) }
{
    let start = start_key(selector)?;
    if selector.offset > 0 {
        let end = end_at(found)?;
        return Ok(KeyRange { begin: start, end });
    }
    let top = Bytes::from_slice(alloc, &[0xff])?;
    let end = if top.cmp(&start).is_lt() { top } else { start };
    let begin = found.copy()?;
    Ok(KeyRange { begin, end })
}

// The key of the last of some pairs, or this one where there is none.
fn last_key<'a>(key: &'a Key, pairs: &'a Pairs) -> &'a Key
    ensures { result.now ≡ rules.last_key key.now pairs.now }
{
    match pairs.as_slice().last() {
        Some(pair) => &pair.key,
        None => key,
    }
}

/// Returns the interval of a range's pairs: the whole range, or as far as pairs that reach the limit.
pub fn slice_interval(
    range: &KeyRange,
    options: RangeOptions,
    pairs: &Pairs,
) -> Result<KeyRange, AllocError>
    ensures { IfOk result (λ interval. interval
        ≡ rules.slice_interval range.now.begin range.now.end options.limit options.reverse pairs.now) }
{
    let is_reached = options.limit > 0 && pairs.len() >= options.limit as usize;
    if !is_reached {
        let begin = range.begin.copy()?;
        let end = range.end.copy()?;
        return Ok(KeyRange { begin, end });
    }
    if options.reverse {
        let begin = last_key(&range.end, pairs).copy()?;
        let end = range.end.copy()?;
        return Ok(KeyRange { begin, end });
    }
    let begin = range.begin.copy()?;
    let end = last_key(&range.begin, pairs).after()?;
    Ok(KeyRange { begin, end })
}
