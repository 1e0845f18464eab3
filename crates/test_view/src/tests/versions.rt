//! What a store answers at each version.

use super::{key_of, push_pair};
use key_bytes::{Bytes, Key, Pairs};
use std::alloc::{AllocError, Global};
use std::test::Fail;
use version_store::{Change, Changes, PairsLeft, Store, VersionFault};

// A key with its value from then on, or with none where it is removed.
type Given = (&'static [u8], Option<&'static [u8]>);

fn change_of(alloc: Global, key: &[u8], value: Option<&[u8]>) -> Result<Change, AllocError> {
    let key = key_of(alloc, key)?;
    match value {
        Some(value) => Ok(Change {
            key,
            value: Some(key_of(alloc, value)?),
        }),
        None => Ok(Change { key, value: None }),
    }
}

// Adds a change of a key that stands above the others; of any other key it adds none.
pub fn add_change(
    alloc: Global,
    changes: &mut Changes,
    key: &[u8],
    value: Option<&[u8]>,
) -> Result<(), AllocError> {
    let change = change_of(alloc, key, value)?;
    if changes.is_below(&change.key) {
        changes.push(change)?;
    }
    Ok(())
}

fn changes_of(alloc: Global, given: &[Given]) -> Result<Changes, AllocError> {
    let mut changes = Changes::new(alloc);
    for (key, value) in given {
        add_change(alloc, &mut changes, key, *value)?;
    }
    Ok(changes)
}

// Commits changes where there is a version left.
pub fn commit(store: &mut Store, changes: Changes) -> Result<(), AllocError> {
    store.reserve(&changes)?;
    if store.last() < i64::MAX as u64 {
        store.install(changes);
    }
    Ok(())
}

const LOADED: &[(&[u8], &[u8])] = &[(b"c", b"0"), (b"a", b"1"), (b"b", b"2"), (b"c", b"3")];

fn loaded_pairs(alloc: Global) -> Result<Pairs, AllocError> {
    let mut pairs = Pairs::new(alloc);
    for (key, value) in LOADED {
        push_pair(alloc, &mut pairs, key, value)?;
    }
    Ok(pairs)
}

// Three keys, of which the second is removed at the second version. Of the two values of `c` the later stays.
fn committed(alloc: Global) -> Result<Store, AllocError> {
    let changes = changes_of(alloc, &[(b"b", None)])?;
    let mut store = Store::load(alloc, loaded_pairs(alloc)?)?;
    commit(&mut store, changes)?;
    Ok(store)
}

// ---- reads at a version

// A key and a version, the value of the key then, and the keys that stand beside it: the first from it on, and the last
// below it, both empty where there is none.
type Read = (
    &'static [u8],
    u64,
    Option<&'static [u8]>,
    &'static [u8],
    &'static [u8],
);

const READS: &[Read] = &[
    (b"a", 0, None, b"", b""),
    (b"b", 1, Some(b"2"), b"b", b"a"),
    (b"b", 2, None, b"c", b"a"),
    (b"c", 1, Some(b"3"), b"c", b"b"),
    (b"c", 2, Some(b"3"), b"c", b"a"),
    (b"d", 2, None, b"", b"c"),
];

fn is_value(found: Result<Option<&[u8]>, VersionFault>, value: Option<&[u8]>) -> bool {
    match found {
        Ok(found) => found == value,
        Err(_) => false,
    }
}

fn is_key(pair: Option<(&Key, &Bytes)>, key: &[u8]) -> bool {
    match pair {
        Some((found, _value)) => found.as_slice() == key,
        None => key.is_empty(),
    }
}

fn is_pair(found: Result<Option<(&Key, &Bytes)>, VersionFault>, key: &[u8]) -> bool {
    match found {
        Ok(pair) => is_key(pair, key),
        Err(_) => false,
    }
}

fn is_first(left: Result<PairsLeft<'_>, VersionFault>, key: &[u8]) -> bool {
    match left {
        Ok(mut left) => is_key(left.next(), key),
        Err(_) => false,
    }
}

fn is_read(store: &Store, key: &Key, read: Read) -> bool {
    let (_, version, value, next, prev) = read;
    is_value(store.get_at(key, version), value)
        && is_pair(store.next_at(key, version), next)
        && is_first(store.pairs_from(key, version), next)
        && is_pair(store.prev_at(key, version), prev)
}

fn is_row(alloc: Global, read: Read) -> Result<bool, AllocError> {
    let key = key_of(alloc, read.0)?;
    let store = committed(alloc)?;
    Ok(is_read(&store, &key, read))
}

// The first of the reads that is answered otherwise.
fn first_other_read(alloc: Global) -> Result<Option<usize>, AllocError> {
    for (place, read) in READS.iter().enumerate() {
        if !is_row(alloc, *read)? {
            return Ok(Some(place));
        }
    }
    Ok(None)
}

// The last version and the oldest, and why version 3 is not read.
fn versions_of(alloc: Global) -> Result<(u64, u64, Option<VersionFault>), AllocError> {
    let key = key_of(alloc, b"a")?;
    let store = committed(alloc)?;
    Ok((store.last(), store.oldest(), store.get_at(&key, 3).err()))
}

// The oldest version once all before the last one are pruned, why version 1 is not read then, and whether the last one is.
fn pruned_to_the_last(alloc: Global) -> Result<(u64, Option<VersionFault>, bool), AllocError> {
    let key = key_of(alloc, b"a")?;
    let mut store = committed(alloc)?;
    let last = store.last();
    store.prune(last);
    let is_read = store.get_at(&key, last).is_ok();
    Ok((store.oldest(), store.get_at(&key, 1).err(), is_read))
}

#[test]
fn answers_at_each_version(rt: HostRuntime) -> Result<(), Fail> {
    assert_eq!(rt; first_other_read(rt.alloc())?, None);
    let future = VersionFault::Future { last: 2 };
    assert_eq!(rt; versions_of(rt.alloc())?, (2, 0, Some(future)));
    let past = VersionFault::TooOld { oldest: 2 };
    assert_eq!(rt; pruned_to_the_last(rt.alloc())?, (2, Some(past), true));
    Ok(())
}

// ---- a store that is pruned

// One key, which has each of the versions 1 to 100 as its value, in a store that notes changes for a prune or doesn't.
fn set_hundred_times(alloc: Global, prunes: bool) -> Result<Store, AllocError> {
    let mut pairs = Pairs::new(alloc);
    push_pair(alloc, &mut pairs, b"k", &[1])?;
    let mut store = Store::load_with_pruning(alloc, pairs, prunes)?;
    for version in 2..=100u8 {
        let mut changes = Changes::new(alloc);
        add_change(alloc, &mut changes, b"k", Some(&[version]))?;
        commit(&mut store, changes)?;
    }
    Ok(store)
}

// How many values a store holds before it is pruned at a version and after, and its oldest version then.
fn pruned(store: &mut Store, oldest: u64) -> (usize, usize, u64) {
    let before = store.nodes();
    if oldest <= store.last() {
        store.prune(oldest);
    }
    (before, store.nodes(), store.oldest())
}

fn is_pruned(alloc: Global, prunes: bool) -> Result<bool, AllocError> {
    let key = key_of(alloc, b"k")?;
    let mut store = set_hundred_times(alloc, prunes)?;
    let is_few = pruned(&mut store, 99) == (100, 2, 99);
    let too_old = store.get_at(&key, 98).err() == Some(VersionFault::TooOld { oldest: 99 });
    Ok(
        is_few
            && too_old
            && is_value(store.get_at(&key, 99), Some(&[99]))
            && is_value(store.get_at(&key, 100), Some(&[100])),
    )
}

#[test]
fn keeps_what_can_be_read(rt: HostRuntime) -> Result<(), Fail> {
    assert!(rt; is_pruned(rt.alloc(), true)?);
    assert!(rt; is_pruned(rt.alloc(), false)?);
    Ok(())
}

// ---- pairs in order

// Each pair as `key=value;`.
fn shown(alloc: Global, pairs: &Pairs) -> Result<Bytes, AllocError> {
    let mut text = Bytes::new(alloc);
    for pair in pairs.as_slice() {
        add_pair(&mut text, &pair.key, &pair.value)?;
    }
    Ok(text)
}

fn add_pair(text: &mut Bytes, key: &Key, value: &Bytes) -> Result<(), AllocError> {
    text.extend(key.as_slice())?;
    text.extend(b"=")?;
    text.extend(value.as_slice())?;
    text.extend(b";")
}

// The same of those that a loop goes over.
fn walked(alloc: Global, left: PairsLeft<'_>) -> Result<Bytes, AllocError> {
    let mut text = Bytes::new(alloc);
    for (key, value) in left {
        add_pair(&mut text, key, value)?;
    }
    Ok(text)
}

// The pairs at the last version, listed and walked over.
fn all_pairs(alloc: Global) -> Result<(Bytes, Bytes), AllocError> {
    let store = committed(alloc)?;
    let walked = walked(alloc, store.pairs_left())?;
    Ok((shown(alloc, &store.pairs()?)?, walked))
}

// Whether the pairs from a key up to another at the last version, listed and walked over, are these.
fn are_between(alloc: Global, begin: &[u8], end: &[u8], text: &[u8]) -> Result<bool, Fail> {
    let (begin, end) = (key_of(alloc, begin)?, key_of(alloc, end)?);
    let store = committed(alloc)?;
    let listed = shown(alloc, &store.pairs_between(&begin, &end)?)?;
    let walked = walked(alloc, store.pairs_in(&begin, &end, 2)?)?;
    Ok(listed.as_slice() == text && walked.as_slice() == text)
}

#[test]
fn gives_pairs_in_order(rt: HostRuntime) -> Result<(), Fail> {
    let (listed, walked) = all_pairs(rt.alloc())?;
    assert!(rt; listed == walked);
    assert_eq!(rt; listed.as_slice(), b"a=1;c=3;".as_slice());
    assert!(rt; are_between(rt.alloc(), b"a\0", b"c\0", b"c=3;")?);
    assert!(rt; are_between(rt.alloc(), b"c", b"a", b"")?);
    Ok(())
}

// How many changes are reserved on an empty store, the key of the first, the last version then, and whether a key is seen.
fn reserved(alloc: Global) -> Result<(usize, bool, u64, bool), AllocError> {
    let changes = changes_of(alloc, &[(b"a", Some(b"1")), (b"b", None)])?;
    let mut store = Store::new(alloc);
    store.reserve(&changes)?;
    let is_first = changes.len() == 2 && changes.get(0).key.as_slice() == b"a".as_slice();
    let is_seen = store.pairs_left().next().is_some();
    Ok((changes.len(), is_first, store.last(), is_seen))
}

fn fault_text(alloc: Global, fault: VersionFault) -> Result<String, Fail> {
    Ok(format!(in alloc; "{fault}")?)
}

#[test]
fn shows_no_reserved_key(rt: HostRuntime) -> Result<(), Fail> {
    assert_eq!(rt; reserved(rt.alloc())?, (2, true, 0, false));
    let past = fault_text(rt.alloc(), VersionFault::TooOld { oldest: 7 })?;
    assert_eq!(rt; past.as_str(), "the oldest version is 7");
    let future = fault_text(rt.alloc(), VersionFault::Future { last: 9 })?;
    assert_eq!(rt; future.as_str(), "the last version is 9");
    Ok(())
}
