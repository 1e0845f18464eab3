use key_bytes::{Bytes, Key, KeyRange, Pair, Pairs};
use std::alloc::{AllocError, Global};

mod many_keys;
mod many_mutations;
mod undecided;
mod versions;
mod views;
mod watches;

fn key_of(alloc: Global, text: &[u8]) -> Result<Key, AllocError> {
    Bytes::from_slice(alloc, text)
}

fn range_of(alloc: Global, begin: &[u8], end: &[u8]) -> Result<KeyRange, AllocError> {
    let begin = key_of(alloc, begin)?;
    let end = key_of(alloc, end)?;
    Ok(KeyRange { begin, end })
}

fn pair_of(alloc: Global, key: &[u8], value: &[u8]) -> Result<Pair, AllocError> {
    let key = key_of(alloc, key)?;
    let value = key_of(alloc, value)?;
    Ok(Pair { key, value })
}

fn push_pair(alloc: Global, pairs: &mut Pairs, key: &[u8], value: &[u8]) -> Result<(), AllocError> {
    pairs.push(pair_of(alloc, key, value)?)
}
