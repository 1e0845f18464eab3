//! The last write version of each key.

use super::{key_of, range_of};
use conflict_ranges::{RangeSet, WriteIndex};
use key_bytes::{Key, KeyRange};
use std::alloc::{AllocError, Global};
use std::test::Fail;

// What is done to an index, and asked of it. What goes over many keys knows no more of an index, so that its proof sees nothing
// of what an index holds.
trait Versions {
    fn give(&mut self, ranges: RangeSet, version: u64) -> Result<(), AllocError>;

    fn newest_of(&self, range: &KeyRange) -> u64;
}

impl Versions for WriteIndex {
    fn give(&mut self, ranges: RangeSet, version: u64) -> Result<(), AllocError> {
        self.reserve(&ranges, version)?;
        self.install(ranges, version);
        Ok(())
    }

    fn newest_of(&self, range: &KeyRange) -> u64 {
        self.newest_in(range)
    }
}

// The set of the keys of a range.
fn set_of(alloc: Global, range: &KeyRange) -> Result<RangeSet, AllocError> {
    let mut set = RangeSet::new(alloc);
    set.add(range)?;
    Ok(set)
}

// Gives the keys of a range a version.
fn write<V: Versions>(
    alloc: Global,
    index: &mut V,
    range: &KeyRange,
    version: u64,
) -> Result<(), AllocError> {
    index.give(set_of(alloc, range)?, version)
}

// Writes `a` to `c` at 2, and `b` to `d` at 5.
fn write_two<V: Versions>(alloc: Global, index: &mut V) -> Result<(), AllocError> {
    write(alloc, index, &range_of(alloc, b"a", b"c")?, 2)?;
    write(alloc, index, &range_of(alloc, b"b", b"d")?, 5)
}

// The newest versions of a range then, by the range and by its ends, and of all keys.
fn newest(alloc: Global, begin: &[u8], end: &[u8]) -> Result<[u64; 3], AllocError> {
    let range = range_of(alloc, begin, end)?;
    let mut index = WriteIndex::new(alloc);
    write_two(alloc, &mut index)?;
    let by_ends = index.newest_between(&range.begin, &range.end);
    Ok([index.newest_in(&range), by_ends, index.newest()])
}

// The newest version from `b` to `c` once `a` to `c` was installed at 4 in a list, and `b` at 7 as a key.
fn newest_of_declared(alloc: Global) -> Result<[u64; 2], AllocError> {
    let (ranges, key) = ([range_of(alloc, b"a", b"c")?], key_of(alloc, b"b")?);
    let range = range_of(alloc, b"b", b"c")?;
    let mut index = WriteIndex::new(alloc);
    index.install_all(&ranges, 4)?;
    let first = index.newest_in(&range);
    index.install_key(&key, 7)?;
    Ok([first, index.newest_in(&range)])
}

// The newest versions from `a` to `b` and from `b` to `c` once the versions up to 2 are forgotten, and the greatest of these.
fn newest_once_forgotten(alloc: Global) -> Result<[u64; 3], AllocError> {
    let mut index = WriteIndex::new(alloc);
    write_two(alloc, &mut index)?;
    index.forget(2);
    let first = index.newest_in(&range_of(alloc, b"a", b"b")?);
    let second = index.newest_in(&range_of(alloc, b"b", b"c")?);
    Ok([first, second, index.forgotten()])
}

#[test]
fn finds_the_newest(rt: HostRuntime) -> Result<(), Fail> {
    let alloc = rt.alloc();
    assert_eq!(rt; newest(alloc, b"a", b"b")?, [2, 2, 5]);
    assert_eq!(rt; newest(alloc, b"b", b"c")?, [5, 5, 5]);
    assert_eq!(rt; newest(alloc, b"x", b"y")?, [0, 0, 5]);
    assert_eq!(rt; newest_of_declared(alloc)?, [4, 7]);
    assert_eq!(rt; newest_once_forgotten(alloc)?, [0, 5, 2]);
    Ok(())
}

// ---- many commits, over keys that are numbers as 8 bytes, the highest first

fn number_key(alloc: Global, number: u64) -> Result<Key, AllocError> {
    key_of(alloc, &number.to_be_bytes())
}

// A key alone.
fn single(alloc: Global, number: u64) -> Result<KeyRange, AllocError> {
    KeyRange::single(alloc, &number_key(alloc, number)?)
}

// So many keys from one on.
fn from_number(alloc: Global, number: u64, count: u64) -> Result<KeyRange, AllocError> {
    let begin = number_key(alloc, number)?;
    let end = number_key(alloc, number.wrapping_add(count))?;
    Ok(KeyRange { begin, end })
}

// Gives each key alone the version of its own commit.
fn write_keys<V: Versions>(alloc: Global, index: &mut V, count: u64) -> Result<(), AllocError> {
    for number in 0..count {
        let version = number.wrapping_add(2);
        write(alloc, index, &single(alloc, number)?, version)?;
    }
    Ok(())
}

// Gives each key the version of its own commit, but three of four commits have the three keys behind it among their write conflict
// ranges too, as the next commits have again.
fn write_ranges<V: Versions>(alloc: Global, index: &mut V, count: u64) -> Result<(), AllocError> {
    for number in 0..count {
        let version = number.wrapping_add(2);
        let size = if number % 4 == 0 { 1 } else { 4 };
        write(alloc, index, &from_number(alloc, number, size)?, version)?;
    }
    Ok(())
}

// The first key that has another version than that of its commit.
fn first_other_in<V: Versions>(
    alloc: Global,
    index: &V,
    count: u64,
) -> Result<Option<u64>, AllocError> {
    for number in 0..count {
        if index.newest_of(&single(alloc, number)?) != number.wrapping_add(2) {
            return Ok(Some(number));
        }
    }
    Ok(None)
}

fn first_other_of_keys(alloc: Global) -> Result<Option<u64>, AllocError> {
    let mut index = WriteIndex::new(alloc);
    write_keys(alloc, &mut index, 200_000)?;
    first_other_in(alloc, &index, 200_000)
}

fn first_other_of_ranges(alloc: Global) -> Result<Option<u64>, AllocError> {
    let mut index = WriteIndex::new(alloc);
    write_ranges(alloc, &mut index, 100_000)?;
    first_other_in(alloc, &index, 100_000)
}

#[test]
fn large_index(rt: HostRuntime) -> Result<(), Fail> {
    assert_eq!(rt; first_other_of_keys(rt.alloc())?, None);
    assert_eq!(rt; first_other_of_ranges(rt.alloc())?, None);
    Ok(())
}
