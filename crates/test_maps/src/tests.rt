use key_bytes::{Bytes, Key, KeyRange};
use std::alloc::{AllocError, Global};

mod boundaries;
mod edits;
mod index;
mod ordered;
mod sets;
mod slices;

fn key_of(alloc: Global, text: &[u8]) -> Result<Key, AllocError> {
    Bytes::from_slice(alloc, text)
}

fn range_of(alloc: Global, begin: &[u8], end: &[u8]) -> Result<KeyRange, AllocError> {
    let begin = key_of(alloc, begin)?;
    let end = key_of(alloc, end)?;
    Ok(KeyRange { begin, end })
}
