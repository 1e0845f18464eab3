//! What a transaction sees of the store under its mutations.

use super::{key_of, push_pair, range_of};
use atomic_ops::{StampForm, has_room};
use key_bytes::{Bytes, Key, KeyRange, Pair, Pairs};
use model_database::{AtomicOp, Mode, RangeOptions};
use range_read::{OrderedView, all};
use ryw_view::{NearView, View, ViewFault};
use std::alloc::{AllocError, Global};
use std::test::Fail;
use version_store::Store;
use write_map::WriteMap;

// A mutation, as a test writes it.
#[derive(Clone, Copy)]
pub enum Edit {
    Set(&'static [u8], &'static [u8]),
    Clear(&'static [u8]),
    ClearRange(&'static [u8], &'static [u8]),
    Add(&'static [u8], &'static [u8]),
    Compare(&'static [u8], &'static [u8]),
    // A value with a versionstamp.
    StampValue(&'static [u8]),
    // A key with a versionstamp behind `b`.
    StampKey,
}

// The stamped key: `b`, room for the stamp, and its place as 4 bytes.
const STAMPED_KEY: &[u8] = b"b0123456789\x01\0\0\0";

const STAMPED_VALUE: &[u8] = b"0123456789\0\0\0\0";

fn stamp_key(edits: &mut WriteMap, key: &[u8]) -> Result<(), AllocError> {
    if has_room(StampForm::Last4, key) {
        edits.stamp(AtomicOp::SetVersionstampedKey, key, b"")?;
    }
    Ok(())
}

fn stamp_value(edits: &mut WriteMap, key: &[u8], value: &[u8]) -> Result<(), AllocError> {
    if has_room(StampForm::Last4, value) {
        edits.stamp(AtomicOp::SetVersionstampedValue, key, value)?;
    }
    Ok(())
}

// What takes mutations. What goes over them knows no more of it, so that its proof sees nothing of what it holds.
trait Edited {
    fn take_edit(&mut self, alloc: Global, edit: Edit) -> Result<(), AllocError>;
}

impl Edited for WriteMap {
    fn take_edit(&mut self, alloc: Global, edit: Edit) -> Result<(), AllocError> {
        match edit {
            Edit::Set(key, value) => self.set(key, value),
            Edit::Clear(key) => self.clear(key),
            Edit::ClearRange(begin, end) => self.clear_range(&range_of(alloc, begin, end)?),
            Edit::Add(key, operand) => self.atomic(AtomicOp::Add, key, operand),
            Edit::Compare(key, operand) => self.atomic(AtomicOp::CompareAndClear, key, operand),
            Edit::StampValue(key) => stamp_value(self, key, STAMPED_VALUE),
            Edit::StampKey => stamp_key(self, STAMPED_KEY),
        }
    }
}

fn take_edits<E: Edited>(alloc: Global, edits: &mut E, all: &[Edit]) -> Result<(), AllocError> {
    for edit in all {
        edits.take_edit(alloc, *edit)?;
    }
    Ok(())
}

pub fn edits_of(alloc: Global, all: &[Edit]) -> Result<WriteMap, AllocError> {
    let mut edits = WriteMap::new(alloc);
    take_edits(alloc, &mut edits, all)?;
    Ok(edits)
}

// ---- the keys that are stored, and what is asked

const STORED: &[(&[u8], &[u8])] = &[
    (b"a", b"\x31"),
    (b"c", b"3"),
    (b"f", b"\xFF"),
    (b"g", b"\xFF\xFF\x07"),
];

fn stored_pairs(alloc: Global) -> Result<Pairs, AllocError> {
    let mut pairs = Pairs::new(alloc);
    for (key, value) in STORED {
        push_pair(alloc, &mut pairs, key, value)?;
    }
    Ok(pairs)
}

// The view of these mutations at version 1, or at the nearest one that can be read.
fn view_of<'a>(edits: &'a WriteMap, store: &'a Store) -> View<'a> {
    let version = store.last().min(1).max(store.oldest());
    View {
        edits,
        store,
        version,
    }
}

// What is asked of a view: a value, the pair from a key on, the one below it, and the slice from a key on up to one pair; of a
// view for a walk the same but for values.
#[derive(Clone, Copy)]
enum Ask {
    Get,
    Next,
    Prev,
    Slice,
    NearNext,
    NearPrev,
    NearSlice,
}

fn value_text(found: Result<Option<Bytes>, ViewFault>, alloc: Global) -> Result<Bytes, AllocError> {
    match found {
        Ok(Some(value)) => Ok(value),
        Ok(None) => Bytes::from_slice(alloc, b"none"),
        Err(ViewFault::Unreadable) => Bytes::from_slice(alloc, b"unreadable"),
        Err(ViewFault::NoMemory) => Err(AllocError),
    }
}

// The key and the value of a pair.
fn pair_text(found: Result<Option<Pair>, AllocError>, alloc: Global) -> Result<Bytes, AllocError> {
    match found? {
        Some(pair) => {
            let mut text = pair.key;
            text.extend(pair.value.as_slice())?;
            Ok(text)
        }
        None => Bytes::from_slice(alloc, b"none"),
    }
}

// The one pair of the slice from a key on.
fn slice_text<V: OrderedView>(alloc: Global, view: &V, key: &Key) -> Result<Bytes, AllocError> {
    let range = range_of(alloc, key.as_slice(), b"\xFF")?;
    let options = RangeOptions {
        limit: 1,
        reverse: false,
        mode: Mode::WantAll,
    };
    match all(view, &range, options) {
        Ok(pairs) => pair_text(Ok(pairs.into_vec().pop()), alloc),
        Err(_) => Err(AllocError),
    }
}

fn near_slice(alloc: Global, view: View<'_>, key: &Key) -> Result<Bytes, AllocError> {
    let near = NearView::new(view, key, false)?;
    slice_text(alloc, &near, key)
}

fn near_text(alloc: Global, view: View<'_>, key: &Key, reverse: bool) -> Result<Bytes, AllocError> {
    let near = NearView::new(view, key, reverse)?;
    let found = if reverse {
        near.prev(key)
    } else {
        near.next(key)
    };
    pair_text(found, alloc)
}

// What a view answers, as text.
fn answer(alloc: Global, view: View<'_>, ask: Ask, key: &Key) -> Result<Bytes, AllocError> {
    match ask {
        Ask::Get => value_text(view.get(key), alloc),
        Ask::Next => pair_text(view.next(key), alloc),
        Ask::Prev => pair_text(view.prev(key), alloc),
        Ask::Slice => slice_text(alloc, &view, key),
        Ask::NearNext => near_text(alloc, view, key, false),
        Ask::NearPrev => near_text(alloc, view, key, true),
        Ask::NearSlice => near_slice(alloc, view, key),
    }
}

// ---- rows

// Mutations over the stored keys, and what is then answered.
type Row = (&'static [Edit], Ask, &'static [u8], &'static [u8]);

// One is added to `a`, and `b` to `d` is cleared.
const ADDED: &[Edit] = &[Edit::Add(b"a", b"\x01"), Edit::ClearRange(b"b", b"d")];

// A value and keys are stamped, and then set and cleared.
pub const HIDDEN: &[Edit] = &[
    Edit::StampValue(b"c"),
    Edit::Set(b"c", b"9"),
    Edit::StampKey,
    Edit::ClearRange(b"b", b"c"),
    Edit::Set(b"d", b"4"),
];

// Two bytes are added to no value, to one byte, to three, and after a clear.
const ADDS: &[Edit] = &[
    Edit::Add(b"z", b"\x01\x00"),
    Edit::Add(b"f", b"\x01\x00"),
    Edit::Add(b"g", b"\x01\x00"),
    Edit::Clear(b"a"),
    Edit::Add(b"a", b"\x01\x00"),
];

// An atomic operation that leaves no value.
const COMPARED: &[Edit] = &[Edit::Compare(b"c", b"3")];

const ROWS: &[Row] = &[
    (ADDED, Ask::Next, b"", b"a\x32"),
    (ADDED, Ask::Next, b"b", b"f\xFF"),
    (ADDED, Ask::Prev, b"d", b"a\x32"),
    (ADDED, Ask::Get, b"c", b"none"),
    (ADDED, Ask::Slice, b"b", b"f\xFF"),
    (ADDED, Ask::NearSlice, b"b", b"f\xFF"),
    (ADDED, Ask::NearNext, b"d", b"f\xFF"),
    (ADDED, Ask::NearPrev, b"d", b"a\x32"),
    (ADDS, Ask::Get, b"z", b"\x01\x00"),
    (ADDS, Ask::Get, b"f", b"\x00\x01"),
    (ADDS, Ask::Get, b"g", b"\x00\x00"),
    (ADDS, Ask::Get, b"a", b"\x01\x00"),
    (ADDS, Ask::Next, b"h", b"z\x01\x00"),
    (HIDDEN, Ask::Get, b"c", b"unreadable"),
    (HIDDEN, Ask::Get, b"b0123456789", b"unreadable"),
    (HIDDEN, Ask::Get, b"b", b"none"),
    (HIDDEN, Ask::Next, b"b", b"d4"),
    (HIDDEN, Ask::Prev, b"d", b"a\x31"),
    (COMPARED, Ask::Next, b"b", b"f\xFF"),
    (&[], Ask::Next, b"h", b"none"),
    (&[], Ask::Prev, b"a", b"none"),
];

fn answered(alloc: Global, edits: &[Edit], ask: Ask, key: &[u8]) -> Result<Bytes, AllocError> {
    let key = key_of(alloc, key)?;
    let edits = edits_of(alloc, edits)?;
    let store = Store::load(alloc, stored_pairs(alloc)?)?;
    answer(alloc, view_of(&edits, &store), ask, &key)
}

// The first row that is answered otherwise.
fn first_other_row(alloc: Global) -> Result<Option<usize>, AllocError> {
    for (place, (edits, ask, key, text)) in ROWS.iter().enumerate() {
        if answered(alloc, edits, *ask, key)?.as_slice() != *text {
            return Ok(Some(place));
        }
    }
    Ok(None)
}

// Whether a range's end is the first stored key from its begin on, and has this value.
fn is_first(view: View<'_>, range: &KeyRange, value: &[u8]) -> bool {
    let is_first = match view.stored_from(&range.begin, None).next() {
        Some((found, _)) => *found == range.end,
        None => false,
    };
    is_first && view.stored(&range.end) == Some(value)
}

// Whether `c` is stored with its value under a clear of it, and is the first stored key from `b` on.
fn is_stored(alloc: Global) -> Result<bool, AllocError> {
    let range = range_of(alloc, b"b", b"c")?;
    let edits = edits_of(alloc, ADDED)?;
    let store = Store::load(alloc, stored_pairs(alloc)?)?;
    Ok(is_first(view_of(&edits, &store), &range, b"3"))
}

#[test]
fn answers_the_rows(rt: HostRuntime) -> Result<(), Fail> {
    assert_eq!(rt; first_other_row(rt.alloc())?, None);
    assert!(rt; is_stored(rt.alloc())?);
    Ok(())
}
