//! A boundary that is made alone. Cases of pending writes and of conflicts have what lies between boundaries.

use super::key_of;
use range_map::RangeMap;
use std::alloc::{AllocError, Global};
use std::test::Fail;

// Whether a key was no boundary before it is made one, whether it was none before it is made one again, and what it has once the
// map is cleared.
fn split_twice(alloc: Global) -> Result<(bool, bool, u64), AllocError> {
    let key = key_of(alloc, b"bb")?;
    let mut map: RangeMap<u64> = RangeMap::new(alloc, 3);
    let first = map.split(&key)?;
    let second = map.split(&key)?;
    map.clear();
    Ok((first, second, *map.at(&key)))
}

#[test]
fn a_boundary_is_made_once(rt: HostRuntime) -> Result<(), Fail> {
    assert_eq!(rt; split_twice(rt.alloc())?, (true, false, 3));
    Ok(())
}
