//! An ordered map of keys, made of pairs. What else it does is done in each case.

use key_bytes::{Bytes, Pair, Pairs};
use key_map::KeyMap;
use std::alloc::{AllocError, Global};
use std::test::Fail;

fn pair_of(alloc: Global, key: &[u8], value: &[u8]) -> Result<Pair, AllocError> {
    Ok(Pair {
        key: Bytes::from_slice(alloc, key)?,
        value: Bytes::from_slice(alloc, value)?,
    })
}

// Of the two values of `b` the later stays.
const GIVEN: &[(&[u8], &[u8])] = &[(b"b", b"1"), (b"", b"2"), (b"b", b"3"), (b"a", b"4")];

fn given_pairs(alloc: Global) -> Result<Pairs, AllocError> {
    let mut pairs = Pairs::new(alloc);
    for (key, value) in GIVEN {
        pairs.push(pair_of(alloc, key, value)?)?;
    }
    Ok(pairs)
}

// Each pair as `key=value;`.
fn shown(alloc: Global, pairs: &Pairs) -> Result<Bytes, AllocError> {
    let mut text = Bytes::new(alloc);
    for pair in pairs.as_slice() {
        text.extend(pair.key.as_slice())?;
        text.extend(b"=")?;
        text.extend(pair.value.as_slice())?;
        text.extend(b";")?;
    }
    Ok(text)
}

fn loaded(alloc: Global) -> Result<KeyMap<Bytes>, AllocError> {
    KeyMap::from_pairs(alloc, given_pairs(alloc)?)
}

// The pairs of a map that was made of those, and the first value that it gives up.
fn loaded_pairs(alloc: Global) -> Result<(Bytes, Option<Bytes>), AllocError> {
    let map = loaded(alloc)?;
    let text = shown(alloc, &map.pairs()?)?;
    Ok((text, map.into_entries().next().map(|(_key, value)| value)))
}

#[test]
fn loads_pairs(rt: HostRuntime) -> Result<(), Fail> {
    let (text, first) = loaded_pairs(rt.alloc())?;
    assert_eq!(rt; text.as_slice(), b"=2;a=4;b=3;".as_slice());
    assert!(rt; first.is_some_and(|first| first.as_slice() == b"2".as_slice()));
    Ok(())
}
