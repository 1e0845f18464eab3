//! The key that a selector means.

ghost use Rattle.std.specs.Prelude.{◌≡◌, IfOk, slice_get, slice_index_or};
ghost use Rattle.std.specs.Map.{keys_of};
ghost use Rattle.range_read.specs.Courses.{IsCourse};
ghost use Rattle.model_database.specs.Intervals.{start_of};
ghost use Rattle.model_database.specs.Selecting.{select};
ghost use Rattle.range_read.specs.Walks.{onward};

use crate::view::OrderedView;
use crate::walking::{go_on, step};
use key_bytes::{Bytes, Key};
use model_database::Selector;
use std::alloc::{AllocError, Global};

// The key at a place of those that a walk from a key meets, counted from 0. No step is made behind the last key.
fn nth_key<V: OrderedView>(
    view: &V,
    start: &Key,
    place: u32,
    reverse: bool,
) -> Result<Option<Key>, AllocError>
    ensures { IfOk result (λ key. key
        ≡ slice_get (keys_of (onward (V.map view.now) start.now reverse)) place) }
{
    let mut from = start.copy()?;
    let mut left = place;
    while let Some(pair) = step(view, &from, reverse)? {
        if left == 0 {
            return Ok(Some(pair.key));
        }
        from = go_on(pair.key, reverse)?;
        left -= 1;
    }
    Ok(None)
}

// The key at a place of those that a walk from a key meets, or another where there are fewer.
fn key_or<V: OrderedView>(
    alloc: Global,
    view: &V,
    start: &Key,
    place: u32,
    reverse: bool,
    otherwise: &[u8],
) -> Result<Key, AllocError>
    ensures { IfOk result (λ key. key
        ≡ slice_index_or (keys_of (onward (V.map view.now) start.now reverse)) place otherwise.now) }
{
    match nth_key(view, start, place, reverse)? {
        Some(key) => Ok(key),
        None => Bytes::from_slice(alloc, otherwise),
    }
}

// Where a selector's key is found from its start on: at a place of the keys above, or of those below.
enum Course {
    Up(u32),
    Down(u32),
}

// The way that an offset leads.
fn course_of(offset: i32) -> Course
    ensures { IsCourse offset result }
{
    if offset > 0 {
        Course::Up(offset.unsigned_abs() - 1)
    } else {
        Course::Down(offset.unsigned_abs())
    }
}

/// Returns the least key that doesn't stand before a selector's place, whether the database has it or not.
pub fn start_key(selector: &Selector) -> Result<Key, AllocError>
    ensures { IfOk result (λ start. start ≡ start_of selector.now) }
{
    if selector.or_equal {
        selector.key.after()
    } else {
        selector.key.copy()
    }
}

/// Returns the key that a selector means among the keys of `view`: with c keys that are less than the
/// selector's key, or less than or equal to it where `or_equal` holds, the key at place c - 1 + offset, counted
/// from 0; the empty key where that place is negative, and `FF` where it is behind the last key (API reference
/// of release 6.3, "Key selectors"). It makes no more steps than there are keys on the way. An error where
/// memory runs out.
pub fn resolve<V: OrderedView>(
    alloc: Global,
    view: &V,
    selector: &Selector,
) -> Result<Key, AllocError>
    ensures { IfOk result (λ key. key ≡ select (V.map view.now) selector.now) }
{
    let start = start_key(selector)?;
    match course_of(selector.offset) {
        Course::Up(place) => key_or(alloc, view, &start, place, false, &[255]),
        Course::Down(place) => key_or(alloc, view, &start, place, true, &[]),
    }
}
