//! The next elements of a tuple, as what they are to be.

ghost use Rattle.std.specs.Prelude.{◌≡◌};
ghost use Rattle.fdb_wire.specs.Reading.{Gives, fitting, next_by, next_bytes, next_flag, next_range, next_selector, next_options, code_in, limit_in, life_in, offset_in, version_in, mode_in};

use crate::fault::Unread;
use crate::kinds::{code_in, flag_in, life_in, limit_in, mode_in, offset_in, version_in};
use fdb_tuple::Elem;
use key_bytes::{Bytes, KeyRange};
use model_database::{Mode, RangeOptions, Selector};

// What an element is as one of a kind, and the elements behind it; it is stray where it is none of the kind.
fn fitting<T: Drop>(value: Option<T>, rest: &[Elem]) -> Result<(T, &[Elem]), Unread>
    ensures { Gives (λ read. (read.0, read.1.now)) result (fitting value rest.now) }
{
    match value {
        Some(value) => Ok((value, rest)),
        None => Err(Unread::Stray(rest.len() + 1)),
    }
}

pub(crate) fn next_bytes(elements: &[Elem]) -> Result<(Bytes, &[Elem]), Unread>
    ensures { Gives (λ read. (read.0, read.1.now)) result (next_bytes elements.now) }
{
    match elements {
        [] => Err(Unread::Stray(0)),
        [element, rest @ ..] => match element {
            Elem::Bytes(bytes) => Ok((bytes.copy()?, rest)),
            _ => Err(Unread::Stray(rest.len() + 1)),
        },
    }
}

pub(crate) fn next_flag(elements: &[Elem]) -> Result<(bool, &[Elem]), Unread>
    ensures { Gives (λ read. (read.0, read.1.now)) result (next_flag elements.now) }
{
    match elements {
        [] => Err(Unread::Stray(0)),
        [element, rest @ ..] => fitting(flag_in(element), rest),
    }
}

pub(crate) fn next_code(elements: &[Elem]) -> Result<(u16, &[Elem]), Unread>
    ensures { Gives (λ read. (read.0, read.1.now)) result (next_by code_in elements.now) }
{
    match elements {
        [] => Err(Unread::Stray(0)),
        [element, rest @ ..] => fitting(code_in(element), rest),
    }
}

pub(crate) fn next_life(elements: &[Elem]) -> Result<(u64, &[Elem]), Unread>
    ensures { Gives (λ read. (read.0, read.1.now)) result (next_by life_in elements.now) }
{
    match elements {
        [] => Err(Unread::Stray(0)),
        [element, rest @ ..] => fitting(life_in(element), rest),
    }
}

pub(crate) fn next_version(elements: &[Elem]) -> Result<(i64, &[Elem]), Unread>
    ensures { Gives (λ read. (read.0, read.1.now)) result (next_by version_in elements.now) }
{
    match elements {
        [] => Err(Unread::Stray(0)),
        [element, rest @ ..] => fitting(version_in(element), rest),
    }
}

fn next_limit(elements: &[Elem]) -> Result<(u32, &[Elem]), Unread>
    ensures { Gives (λ read. (read.0, read.1.now)) result (next_by limit_in elements.now) }
{
    match elements {
        [] => Err(Unread::Stray(0)),
        [element, rest @ ..] => fitting(limit_in(element), rest),
    }
}

fn next_offset(elements: &[Elem]) -> Result<(i32, &[Elem]), Unread>
    ensures { Gives (λ read. (read.0, read.1.now)) result (next_by offset_in elements.now) }
{
    match elements {
        [] => Err(Unread::Stray(0)),
        [element, rest @ ..] => fitting(offset_in(element), rest),
    }
}

fn next_mode(elements: &[Elem]) -> Result<(Mode, &[Elem]), Unread>
    ensures { Gives (λ read. (read.0, read.1.now)) result (next_by mode_in elements.now) }
{
    match elements {
        [] => Err(Unread::Stray(0)),
        [element, rest @ ..] => fitting(mode_in(element), rest),
    }
}

#[tactic(auto, unfolding(crate::specs::Reading::next_range))]
pub(crate) fn next_range(elements: &[Elem]) -> Result<(KeyRange, &[Elem]), Unread>
    ensures { Gives (λ read. (read.0, read.1.now)) result (next_range elements.now) }
{
    let (begin, elements) = next_bytes(elements)?;
    let (end, elements) = next_bytes(elements)?;
    Ok((KeyRange { begin, end }, elements))
}

#[tactic(auto, unfolding(crate::specs::Reading::next_selector))]
pub(crate) fn next_selector(elements: &[Elem]) -> Result<(Selector, &[Elem]), Unread>
    ensures { Gives (λ read. (read.0, read.1.now)) result (next_selector elements.now) }
{
    let (key, elements) = next_bytes(elements)?;
    let (or_equal, elements) = next_flag(elements)?;
    let (offset, elements) = next_offset(elements)?;
    let selector = Selector {
        key,
        or_equal,
        offset,
    };
    Ok((selector, elements))
}

#[tactic(auto, unfolding(crate::specs::Reading::next_options))]
pub(crate) fn next_options(elements: &[Elem]) -> Result<(RangeOptions, &[Elem]), Unread>
    ensures { Gives (λ read. (read.0, read.1.now)) result (next_options elements.now) }
{
    let (limit, elements) = next_limit(elements)?;
    let (reverse, elements) = next_flag(elements)?;
    let (mode, elements) = next_mode(elements)?;
    let options = RangeOptions {
        limit,
        reverse,
        mode,
    };
    Ok((options, elements))
}
