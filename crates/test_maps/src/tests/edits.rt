//! The boundary above a key. Cases of reads over pending writes have what mutations make of each key.

use super::{key_of, range_of};
use key_bytes::Key;
use std::alloc::{AllocError, Global};
use std::test::Fail;
use write_map::WriteMap;

// The next boundary above `b` once the keys from `a` up to `d` are cleared.
fn next_edge(alloc: Global) -> Result<Option<Key>, AllocError> {
    let range = range_of(alloc, b"a", b"d")?;
    let key = key_of(alloc, b"b")?;
    let mut map = WriteMap::new(alloc);
    map.clear_range(&range)?;
    match map.next_edge(&key) {
        Some(edge) => Ok(Some(edge.copy()?)),
        None => Ok(None),
    }
}

#[test]
fn finds_the_next_edge(rt: HostRuntime) -> Result<(), Fail> {
    let edge = next_edge(rt.alloc())?;
    assert!(rt; edge.is_some_and(|edge| edge.as_slice() == b"d".as_slice()));
    Ok(())
}
