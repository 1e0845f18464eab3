//! A range of keys.

ghost use Rattle.std.specs.Prelude.{◌≡◌, ◌↔◌, ℕ, List, not, IfOk, IsTrue};

use crate::bytes::{Bytes, Key, is_below};
use std::alloc::{AllocError, Global};

/// The keys that are at least `begin` and less than `end`.
#[derive(Debug, Drop)]
pub struct KeyRange {
    pub begin: Key,
    pub end: Key,
}

impl KeyRange {
    ghost use Rattle.key_bytes.specs.Keys.{after, key_lt};
    ghost use Rattle.key_bytes.specs.Ranges.{has, meets, IsInBoth};

    /// Makes the range of the one key `key`: from it to the key after it.
    pub fn single(alloc: Global, key: &Key) -> Result<KeyRange, AllocError>
        ensures { IfOk result (λ range. (range.begin ≡ key.now) × (range.end ≡ after key.now)) }
    {
        Ok(KeyRange {
            begin: Bytes::from_slice(alloc, key.as_slice())?,
            end: key.after()?,
        })
    }

    /// Tells whether no key is in the range: `begin` isn't less than `end`.
    pub fn is_empty(&self) -> bool
        ensures { result ≡ not (key_lt self.now.begin self.now.end) }
    {
        !self.begin.cmp(&self.end).is_lt()
    }

    /// Tells whether `key` is in the range.
    pub fn has(&self, key: &[u8]) -> bool
        ensures { result ≡ has self.now key.now }
    {
        !is_below(key, self.begin.as_slice()) && is_below(key, self.end.as_slice())
    }

    /// Tells whether some key is in both ranges: the greater begin is less than the lesser end.
    pub fn meets(&self, other: &KeyRange) -> bool
        ensures value { result ≡ meets self.now other.now }
        ensures common { IsTrue result ↔ ((key : List ℕ) × IsInBoth self.now other.now key) }
    {
        self.begin.shows_bytes();
        other.begin.shows_bytes();
        greater_of(&self.begin, &other.begin)
            .cmp(lesser_of(&self.end, &other.end))
            .is_lt()
    }
}

ghost use Rattle.key_bytes.specs.Keys.{lesser, greater};

fn lesser_of<'a>(a: &'a Key, b: &'a Key) -> &'a Key
    ensures { result.now ≡ lesser a.now b.now }
{
    if b.cmp(a).is_lt() { b } else { a }
}

fn greater_of<'a>(a: &'a Key, b: &'a Key) -> &'a Key
    ensures { result.now ≡ greater a.now b.now }
{
    if a.cmp(b).is_lt() { b } else { a }
}
