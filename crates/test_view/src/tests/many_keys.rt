//! Many keys, and many versions of one key. Keys are numbers as 8 bytes, the highest first.

use super::versions::{add_change, commit};
use super::{key_of, push_pair};
use key_bytes::{Key, Pairs};
use std::alloc::{AllocError, Global};
use std::test::Fail;
use version_store::{Changes, Store};

// What is done to a store, and asked of it. What goes over many keys knows no more of a store, so that its proof sees nothing of
// what a store holds.
trait Versioned {
    fn take(&mut self, changes: Changes) -> Result<(), AllocError>;

    // Whether a key has this value at a version.
    fn has(&self, key: &Key, version: u64, value: &[u8]) -> bool;
}

impl Versioned for Store {
    fn take(&mut self, changes: Changes) -> Result<(), AllocError> {
        commit(self, changes)
    }

    fn has(&self, key: &Key, version: u64, value: &[u8]) -> bool {
        match self.get_at(key, version) {
            Ok(Some(found)) => found == value,
            _ => false,
        }
    }
}

// Commits one key with a value.
fn commit_one<V: Versioned>(
    alloc: Global,
    store: &mut V,
    key: &[u8],
    value: &[u8],
) -> Result<(), AllocError> {
    let mut changes = Changes::new(alloc);
    add_change(alloc, &mut changes, key, Some(value))?;
    store.take(changes)
}

// ---- a version for each of many keys

const LARGE: u64 = 200_000;

// Each key with the empty value.
fn empty_values(alloc: Global) -> Result<Changes, AllocError> {
    let mut changes = Changes::new(alloc);
    for number in 0..LARGE {
        add_change(alloc, &mut changes, &number.to_be_bytes(), Some(b""))?;
    }
    Ok(changes)
}

// Commits all keys at once, and then each by itself, with its version as its value.
fn commit_large<V: Versioned>(alloc: Global, store: &mut V) -> Result<(), AllocError> {
    store.take(empty_values(alloc)?)?;
    for number in 0..LARGE {
        let version = number.wrapping_add(2);
        commit_one(alloc, store, &number.to_be_bytes(), &version.to_be_bytes())?;
    }
    Ok(())
}

// Whether a key has at version 100,001 the version of its own commit, or the empty value where that came later.
fn is_as_committed<V: Versioned>(
    alloc: Global,
    store: &V,
    number: u64,
) -> Result<bool, AllocError> {
    let key = key_of(alloc, &number.to_be_bytes())?;
    let version = number.wrapping_add(2).to_be_bytes();
    let value: &[u8] = if number <= 99_999 { &version } else { b"" };
    Ok(store.has(&key, 100_001, value))
}

// The first key that has another value.
fn first_other_in<V: Versioned>(alloc: Global, store: &V) -> Result<Option<u64>, AllocError> {
    for number in 0..LARGE {
        if !is_as_committed(alloc, store, number)? {
            return Ok(Some(number));
        }
    }
    Ok(None)
}

fn first_other_value(alloc: Global) -> Result<Option<u64>, AllocError> {
    let mut store = Store::new(alloc);
    commit_large(alloc, &mut store)?;
    first_other_in(alloc, &store)
}

#[test]
fn large_store(rt: HostRuntime) -> Result<(), Fail> {
    assert_eq!(rt; first_other_value(rt.alloc())?, None);
    Ok(())
}

// ---- many versions of one key

// 100,000 keys as they are loaded.
fn loaded_keys(alloc: Global) -> Result<Pairs, AllocError> {
    let mut pairs = Pairs::new(alloc);
    for number in 0..100_000u64 {
        push_pair(alloc, &mut pairs, &number.to_be_bytes(), b"loaded")?;
    }
    Ok(pairs)
}

// Sets the key `k` to its version by each of 2,000 commits.
fn commit_versions<V: Versioned>(alloc: Global, store: &mut V) -> Result<(), AllocError> {
    for version in 2..2_002u64 {
        commit_one(alloc, store, b"k", &version.to_be_bytes())?;
    }
    Ok(())
}

// Whether the key has its version as its value at versions 2, 1,000 and 2,001, over the loaded keys.
fn has_versions(alloc: Global) -> Result<[bool; 3], AllocError> {
    let key = key_of(alloc, b"k")?;
    let mut store = Store::load(alloc, loaded_keys(alloc)?)?;
    commit_versions(alloc, &mut store)?;
    Ok([
        store.has(&key, 2, &2u64.to_be_bytes()),
        store.has(&key, 1_000, &1_000u64.to_be_bytes()),
        store.has(&key, 2_001, &2_001u64.to_be_bytes()),
    ])
}

#[test]
fn keeps_each_version_of_a_key(rt: HostRuntime) -> Result<(), Fail> {
    assert_eq!(rt; has_versions(rt.alloc())?, [true, true, true]);
    Ok(())
}
