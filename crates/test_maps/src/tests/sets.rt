//! Sets of keys.

use super::range_of;
use conflict_ranges::RangeSet;
use key_bytes::{Bytes, Key, KeyRange};
use std::alloc::{AllocError, Global};
use std::test::Fail;

// The keys from `a` up to `e`, without those from `c` up to `d`.
fn set_with_a_gap(alloc: Global) -> Result<RangeSet, AllocError> {
    let (all, gap) = (range_of(alloc, b"a", b"e")?, range_of(alloc, b"c", b"d")?);
    let mut set = RangeSet::new(alloc);
    set.add(&all)?;
    set.subtract(&gap)?;
    Ok(set)
}

fn write_range(text: &mut Bytes, begin: &Key, end: &Key) -> Result<(), AllocError> {
    text.extend(begin.as_slice())?;
    text.extend(b"-")?;
    text.extend(end.as_slice())?;
    text.extend(b" ")
}

// The ranges of a set as text, by the walk over them.
fn walked(alloc: Global, set: &RangeSet) -> Result<Bytes, AllocError> {
    let mut text = Bytes::new(alloc);
    for (begin, end) in set.ranges() {
        write_range(&mut text, begin, end)?;
    }
    Ok(text)
}

// The same by the place of each range.
fn by_place(alloc: Global, set: &RangeSet) -> Result<Bytes, AllocError> {
    let mut text = Bytes::new(alloc);
    for place in 0..set.len() {
        let (begin, end) = set.get(place);
        write_range(&mut text, begin, end)?;
    }
    Ok(text)
}

// The ranges from `x` to `z` and from the empty key to itself.
fn two_ranges(alloc: Global) -> Result<[KeyRange; 2], AllocError> {
    Ok([range_of(alloc, b"x", b"z")?, range_of(alloc, b"", b"")?])
}

fn three_ranges(alloc: Global) -> Result<RangeSet, AllocError> {
    let two = two_ranges(alloc)?;
    let mut set = set_with_a_gap(alloc)?;
    set.add_all(&two)?;
    set.shows_apart();
    Ok(set)
}

// The three ranges as text, walked over and by their places, and whether there are none.
fn listed(alloc: Global) -> Result<(Bytes, Bytes, bool), AllocError> {
    let set = three_ranges(alloc)?;
    let is_empty = set.is_empty();
    Ok((walked(alloc, &set)?, by_place(alloc, &set)?, is_empty))
}

#[test]
fn lists_its_ranges(rt: HostRuntime) -> Result<(), Fail> {
    let (walked, by_place, is_empty) = listed(rt.alloc())?;
    assert_eq!(rt; walked.as_slice(), b"a-c d-e x-z ".as_slice());
    assert!(rt; by_place == walked && !is_empty);
    Ok(())
}
