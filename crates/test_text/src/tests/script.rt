//! Generated instructions.

use generator::gen_pairs;
use key_bytes::Pairs;
use std::alloc::{AllocError, Global};
use std::test::Fail;

// How many bytes keys and values have.
fn size_of(pairs: &Pairs) -> usize {
    let mut bytes: usize = 0;
    for pair in pairs.as_slice() {
        bytes = bytes
            .wrapping_add(pair.key.len())
            .wrapping_add(pair.value.len());
    }
    bytes
}

// How many pairs a run of so many workers has, and how many bytes.
fn size_of_run(alloc: Global, count: u32) -> Result<(usize, usize), AllocError> {
    let pairs = gen_pairs(alloc, count)?;
    Ok((pairs.len(), size_of(&pairs)))
}

// Places with the pair that stands there in a run of one worker.
const STANDING: &[(usize, &[u8], &[u8])] = &[
    (0, b"\x01g\x00\x14", b"\x02PUSH\x00\x01w1\x00"),
    (3, b"\x01g\x00\x15\x03", b"\x02WAIT_EMPTY\x00"),
    (5, b"\x01w1\x00\x15\x01", b"\x02PUSH\x00\x02w1\x00"),
    (9, b"\x01w1\x00\x15\x05", b"\x02PUSH\x00\x01d1/00\x00"),
    (15, b"\x01w1\x00\x15\x0b", b"\x02PUSH\x00\x13\xFE"),
    (313, b"\x01w1\x00\x16\x01\x35", b"\x02PUSH\x00\x01d1/19\x00"),
    (330, b"busy1", b""),
];

fn stands(pairs: &Pairs, place: usize, key: &[u8], value: &[u8]) -> bool {
    match pairs.as_slice().get(place) {
        Some(pair) => pair.key.as_slice() == key && pair.value.as_slice() == value,
        None => false,
    }
}

// The first place where another pair stands.
fn first_other_place(pairs: &Pairs) -> Option<usize> {
    for (place, key, value) in STANDING {
        if !stands(pairs, *place, key, value) {
            return Some(*place);
        }
    }
    None
}

fn first_other_of_one(alloc: Global) -> Result<Option<usize>, AllocError> {
    Ok(first_other_place(&gen_pairs(alloc, 1)?))
}

#[test]
fn runs(rt: HostRuntime) -> Result<(), Fail> {
    let alloc = rt.alloc();
    assert_eq!(rt; first_other_of_one(alloc)?, None);
    assert_eq!(rt; size_of_run(alloc, 1)?, (331, 5_466));
    assert_eq!(rt; size_of_run(alloc, 8)?, (2_634, 43_497));
    assert_eq!(rt; size_of_run(alloc, 30)?, (9_872, 170_793));
    Ok(())
}
