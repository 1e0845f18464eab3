//! The keys of a range that mutations leave undecided.

use super::range_of;
use super::views::{Edit, HIDDEN, edits_of};
use atomic_ops::AtomicOp;
use key_bytes::{Bytes, KeyRange};
use ryw_view::{add_undecided, applied, around_below, hides};
use std::alloc::{AllocError, Global};
use std::test::Fail;
use write_map::{KeyState, WriteMap};

// Two keys are set, one is cleared, one is added to, and a range is cleared.
const DECIDED: &[Edit] = &[
    Edit::Set(b"d", b"1"),
    Edit::Clear(b"e"),
    Edit::Add(b"f", b"\x01"),
    Edit::ClearRange(b"k", b"m"),
];

// Mutations, a range, and the pieces of it that they leave undecided as text; `hidden` where it can't be read.
type Row = (&'static [Edit], &'static [u8], &'static [u8], &'static [u8]);

const ROWS: &[Row] = &[
    (DECIDED, b"d", b"h", b"d\0-e;e\0-f;f-f\0;f\0-h;"),
    (DECIDED, b"a", b"b", b"a-b;"),
    (DECIDED, b"d", b"d\0", b""),
    (DECIDED, b"h", b"a", b""),
    (DECIDED, b"l", b"z", b"m-z;"),
    (HIDDEN, b"c", b"c\0", b"hidden"),
    (HIDDEN, b"b", b"c", b"hidden"),
    (HIDDEN, b"c\0", b"e", b"c\0-d;d\0-e;"),
];

fn add_piece(text: &mut Bytes, piece: &KeyRange) -> Result<(), AllocError> {
    text.extend(piece.begin.as_slice())?;
    text.extend(b"-")?;
    text.extend(piece.end.as_slice())?;
    text.extend(b";")
}

fn shown(alloc: Global, pieces: &[KeyRange]) -> Result<Bytes, AllocError> {
    let mut text = Bytes::new(alloc);
    for piece in pieces {
        add_piece(&mut text, piece)?;
    }
    Ok(text)
}

// The pieces of a range as text, and whether it is told to hide a key.
fn pieces_of(
    alloc: Global,
    edits: &WriteMap,
    range: &KeyRange,
) -> Result<(Bytes, bool), AllocError> {
    let mut pieces = Vec::new(alloc);
    let is_hidden = hides(edits, range);
    if add_undecided(edits, range, &mut pieces)? {
        Ok((shown(alloc, pieces.as_slice())?, is_hidden))
    } else {
        Ok((Bytes::from_slice(alloc, b"hidden")?, is_hidden))
    }
}

fn is_row(alloc: Global, row: Row) -> Result<bool, AllocError> {
    let (edits, begin, end, wanted) = row;
    let range = range_of(alloc, begin, end)?;
    let edits = edits_of(alloc, edits)?;
    let (text, is_hidden) = pieces_of(alloc, &edits, &range)?;
    Ok(text.as_slice() == wanted && is_hidden == (wanted == b"hidden".as_slice()))
}

// The first row with other pieces.
fn first_other_row(alloc: Global) -> Result<Option<usize>, AllocError> {
    for (place, row) in ROWS.iter().enumerate() {
        if !is_row(alloc, *row)? {
            return Ok(Some(place));
        }
    }
    Ok(None)
}

// Whether there is a boundary above the begin of a range that lies below its end, where `b` is set.
fn has_boundary_below(alloc: Global, begin: &[u8], end: &[u8]) -> Result<bool, AllocError> {
    let range = range_of(alloc, begin, end)?;
    let edits = edits_of(alloc, &[Edit::Set(b"b", b"1")])?;
    let (_, boundary) = around_below(&edits, &range.begin, &range.end);
    Ok(boundary.is_some())
}

// What the operations of a state make of a value.
fn value_in(
    alloc: Global,
    state: KeyState<'_>,
    old: Option<&[u8]>,
) -> Result<Option<Bytes>, AllocError> {
    match state {
        KeyState::Depends(edits) => applied(alloc, edits.as_slice(), old),
        _ => Ok(None),
    }
}

// What is made of 255 where one of two bytes is added.
fn added(alloc: Global) -> Result<Option<Bytes>, AllocError> {
    let key = Bytes::from_slice(alloc, b"f")?;
    let mut edits = WriteMap::new(alloc);
    edits.atomic(AtomicOp::Add, b"f", b"\x01\x00")?;
    value_in(alloc, edits.at(&key), Some(b"\xFF"))
}

#[test]
fn finds_the_undecided_keys(rt: HostRuntime) -> Result<(), Fail> {
    assert_eq!(rt; first_other_row(rt.alloc())?, None);
    assert!(rt; has_boundary_below(rt.alloc(), b"a", b"c")?);
    assert!(rt; !has_boundary_below(rt.alloc(), b"a", b"b")?);
    let value = added(rt.alloc())?;
    assert!(rt; value.is_some_and(|value| value.as_slice() == b"\x00\x01".as_slice()));
    Ok(())
}
