//! Byte strings, ranges of keys and lists of pairs.

use key_bytes::{Bytes, KeyRange, Pair, Pairs, is_below};
use std::alloc::{AllocError, Global};
use std::cmp::Ordering;
use std::test::Fail;

// Whether a text that was added, one made of a vector and its copy hold these bytes.
fn holds(alloc: Global, bytes: &[u8]) -> Result<bool, AllocError> {
    let mut grown = Bytes::new(alloc);
    grown.extend(bytes)?;
    let made = Bytes::from_vec(Vec::from_slice(alloc, bytes)?)?;
    let copy = made.copy()?;
    copy.shows_bytes();
    Ok(grown == made && copy.as_slice() == bytes && copy.cmp(&grown) == Ordering::Equal)
}

// How many bytes a copy of `ab` has, whether there are none, whether it begins with `a` and lies above `a`.
fn looks(alloc: Global) -> Result<(usize, bool, bool, bool), AllocError> {
    let text = Bytes::from_slice(alloc, b"ab")?;
    let copy = Bytes::from_slice(text.allocator(), text.as_slice())?;
    let (is_longer, is_above) = (copy.starts_with(b"a"), is_below(b"a", copy.as_slice()));
    Ok((copy.len(), copy.is_empty(), is_longer, is_above))
}

#[test]
fn byte_strings(rt: HostRuntime) -> Result<(), Fail> {
    assert!(rt; holds(rt.alloc(), b"abc")?);
    assert!(rt; holds(rt.alloc(), b"a text of more bytes than have room in place")?);
    assert_eq!(rt; looks(rt.alloc())?, (2, false, true, true));
    Ok(())
}

// Keys, the next key after each, and the first one above all keys that begin with it.
const NEXT: &[(&[u8], &[u8], Option<&[u8]>)] = &[
    (b"\x61\xFF", b"\x61\xFF\x00", Some(b"\x62")),
    (b"\xFF", b"\xFF\x00", None),
    (b"", b"\x00", None),
    (b"\x61", b"\x61\x00", Some(b"\x62")),
];

fn is_next(
    alloc: Global,
    key: &[u8],
    after: &[u8],
    above: Option<&[u8]>,
) -> Result<bool, AllocError> {
    let key = Bytes::from_slice(alloc, key)?;
    let next = key.after()?;
    let strinc = key.strinc()?;
    Ok(next.as_slice() == after && strinc.as_ref().map(|next| next.as_slice()) == above)
}

fn first_other_next(alloc: Global) -> Result<Option<usize>, AllocError> {
    for (place, (key, after, above)) in NEXT.iter().enumerate() {
        if !is_next(alloc, key, after, *above)? {
            return Ok(Some(place));
        }
    }
    Ok(None)
}

#[test]
fn next_keys(rt: HostRuntime) -> Result<(), Fail> {
    assert_eq!(rt; first_other_next(rt.alloc())?, None);
    Ok(())
}

fn range(alloc: Global, begin: &[u8], end: &[u8]) -> Result<KeyRange, AllocError> {
    Ok(KeyRange {
        begin: Bytes::from_slice(alloc, begin)?,
        end: Bytes::from_slice(alloc, end)?,
    })
}

// Whether the range of `b` alone has `b`, has the key after it, is empty, and meets the one from `a` to `c`.
fn range_of_one(alloc: Global) -> Result<[bool; 4], AllocError> {
    let one = KeyRange::single(alloc, &Bytes::from_slice(alloc, b"b")?)?;
    let front = range(alloc, b"a", b"c")?;
    Ok([
        one.has(b"b"),
        one.has(b"b\0"),
        one.is_empty(),
        front.meets(&one),
    ])
}

#[test]
fn ranges(rt: HostRuntime) -> Result<(), Fail> {
    assert_eq!(rt; range_of_one(rt.alloc())?, [true, false, false, true]);
    Ok(())
}

fn pair(alloc: Global) -> Result<Pair, AllocError> {
    Ok(Pair {
        key: Bytes::from_slice(alloc, b"k")?,
        value: Bytes::from_slice(alloc, b"v")?,
    })
}

fn is_pair(pair: &Pair) -> Result<bool, AllocError> {
    let copy = pair.copy()?;
    Ok(copy.key.as_slice() == b"k".as_slice() && copy.value.as_slice() == b"v".as_slice())
}

// How many pairs a copy of a list of one has, in each way, and whether it is that pair.
fn copied_pairs(alloc: Global) -> Result<(bool, usize, usize, bool), AllocError> {
    let mut pairs = Pairs::new(alloc);
    pairs.push(pair(alloc)?)?;
    let copy = pairs.copy()?;
    let (is_empty, len, is_that) = (
        copy.is_empty(),
        copy.as_slice().len(),
        is_pair(copy.get(0))?,
    );
    Ok((is_empty, len, copy.into_vec().len(), is_that))
}

#[test]
fn lists_of_pairs(rt: HostRuntime) -> Result<(), Fail> {
    assert_eq!(rt; copied_pairs(rt.alloc())?, (false, 1, 1, true));
    Ok(())
}
