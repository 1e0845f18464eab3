//! What a transaction changes, and its write conflict ranges. Cases have what it reads of its writes.

use super::*;
use version_store::{Change, Changes};

// The writes of a layer, over any transaction: the clear of the range adds no write conflict range.
fn write_layer<T: Tr>(tr: &mut T, range: &KeyRange) -> Result<(), TrFault> {
    tr.set(b"k", b"\x01\0")?;
    tr.atomic(AtomicOp::Add, b"k", b"\xff\0")?;
    tr.clear(b"l")?;
    tr.no_write_conflict()?;
    tr.clear_range(range)?;
    tr.write_conflict_key(b"w")
}

const STORED: &[Entry] = &[(b"l", b"1")];

// Whether a transaction with the writes of a layer has these write conflict ranges.
fn adds_conflict(on: &TxnOn<'_>, spans: &[Span]) -> Result<bool, AllocError> {
    Ok(are_spans(&on.write_ranges(STAMP)?, spans))
}

// The key and the value of each change; a removed key has no value.
type Told = (&'static [u8], Option<&'static [u8]>);

fn is_change(change: &Change, told: &Told) -> bool {
    change.key.as_slice() == told.0 && is_value(&change.value, told.1)
}

// Whether two changes are these.
fn are_two(changes: &Changes, told: &[Told; 2]) -> bool {
    changes.len() == 2 && is_change(changes.get(0), &told[0]) && is_change(changes.get(1), &told[1])
}

// Whether a commit changes these keys.
fn changes(on: &TxnOn<'_>, told: &[Told; 2]) -> Result<bool, AllocError> {
    let changes = on.changes(STAMP)?;
    let are_two = are_two(&changes, told);
    drop(changes);
    Ok(are_two)
}

const CHANGED: [Told; 2] = [(b"k", Some(b"\0\x01")), (b"l", None)];

const DECLARED: &[Span] = &[(b"k", b"k\0"), (b"l", b"l\0"), (b"w", b"w\0"), (b"x", b"z")];

fn commits_in(world: &mut World) -> Result<(bool, bool), TrFault> {
    let cleared = range_of(world.alloc, (b"m", b"n"))?;
    let told = range_of(world.alloc, (b"x", b"z"))?;
    write_layer(&mut world.first(), &cleared)?;
    world.first().write_conflict(&told)?;
    let changes = changes(&world.first(), &CHANGED)?;
    Ok((changes, adds_conflict(&world.first(), DECLARED)?))
}

fn commits(alloc: Global) -> Result<(bool, bool), TrFault> {
    let mut world = world_over(alloc, STORED)?;
    let told = commits_in(&mut world);
    drop(world);
    told
}

#[test]
fn a_transaction_tells_what_it_changes_and_adds_conflict(rt: HostRuntime) {
    assert_eq!(rt; commits(rt.alloc()), Ok((true, true)));
}
