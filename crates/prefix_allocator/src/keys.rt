//! The keys of an allocator.

ghost use Rattle.std.specs.Prelude.{◌≡◌, ◌+◌, [], ◌∷◌, ◌++◌, length, drop, IfOk};
ghost use Rattle.fdb_tuple.specs.Spelling.{least_bytes};
ghost use Rattle.model_allocator.specs.Counters.{packed, counters_prefix, recent_prefix, counter_key, recent_key};
ghost use Rattle.model_allocator.specs.Counters.{counters_begin, counters_end};

use fdb_subspace::{Subspace, range_behind};
use key_bytes::{Bytes, Key, KeyRange};
use std::alloc::{AllocError, Global};

// The packed tuple of 0, behind which the counters stand, and that of 1, behind which the numbers stand that were tried.
const COUNTERS: [u8; 1] = [0x14];

const RECENTS: [u8; 2] = [0x15, 0x01];

// The code of an integer above 0 is this and how many bytes it has; 0 has none.
const CODE_OF_ZERO: u8 = 0x14;

/// The keys of the allocator in a subspace.
#[derive(Drop)]
pub(crate) struct AllocatorKeys {
    // The prefix of the subspace.
    space: Key,
    // The prefix of the keys of counters, and that of the keys of numbers that were tried.
    counters: Key,
    recents: Key,
    ghost counters_is: { counters ≡ counters_prefix space },
    ghost recents_is: { recents ≡ recent_prefix space },
}

impl AllocatorKeys {
    pub(crate) fn new(alloc: Global, space: &Subspace) -> Result<AllocatorKeys, AllocError>
        ensures { IfOk result (λ keys. keys.space ≡ space.now.prefix) }
    {
        let space = Bytes::from_slice(alloc, space.prefix.as_slice())?;
        let counters = joined(&space, &COUNTERS)?;
        let recents = joined(&space, &RECENTS)?;
        Ok(AllocatorKeys {
            space,
            counters,
            recents,
        })
    }

    /// The key of the counter of the window that begins at a number.
    pub(crate) fn counter(&self, start: u64) -> Result<Key, AllocError>
        ensures { IfOk result (λ key. key ≡ counter_key self.now.space start) }
    {
        key_behind(&self.counters, start)
    }

    /// The key of a number that was tried.
    pub(crate) fn recent(&self, number: u64) -> Result<Key, AllocError>
        ensures { IfOk result (λ key. key ≡ recent_key self.now.space number) }
    {
        key_behind(&self.recents, number)
    }

    /// The bytes of a key behind the code of the number, where it is a counter's.
    pub(crate) fn digits_in<'a>(&self, key: &'a Key) -> &'a [u8]
        ensures { result.now ≡ drop (length (counters_prefix self.now.space) + 1) key.now }
    {
        let place = self.counters.as_slice().len() + 1;
        key.as_slice().get(place..).unwrap_or(&[])
    }

    /// The range that has the keys of all counters.
    pub(crate) fn all_counters(&self) -> Result<KeyRange, AllocError>
        ensures begin { IfOk result (λ range. range.begin ≡ counters_begin self.now.space) }
        ensures end { IfOk result (λ range. range.end ≡ counters_end self.now.space) }
    {
        range_behind(&self.counters)
    }

    /// The range from the prefix of counters to the counter of the window that begins at a number.
    pub(crate) fn counters_below(&self, start: u64) -> Result<KeyRange, AllocError>
        ensures begin { IfOk result (λ range. range.begin ≡ counters_prefix self.now.space) }
        ensures end { IfOk result (λ range. range.end ≡ counter_key self.now.space start) }
    {
        Ok(KeyRange {
            begin: self.counters.copy()?,
            end: self.counter(start)?,
        })
    }

    /// The range from the prefix of numbers that were tried to one of them.
    pub(crate) fn recents_below(&self, start: u64) -> Result<KeyRange, AllocError>
        ensures begin { IfOk result (λ range. range.begin ≡ recent_prefix self.now.space) }
        ensures end { IfOk result (λ range. range.end ≡ recent_key self.now.space start) }
    {
        Ok(KeyRange {
            begin: self.recents.copy()?,
            end: self.recent(start)?,
        })
    }
}

// A prefix, and bytes behind it.
fn joined(prefix: &Key, bytes: &[u8]) -> Result<Key, AllocError>
    ensures { IfOk result (λ key. key ≡ prefix.now ++ bytes.now) }
{
    let mut key = prefix.copy()?;
    key.extend(bytes)?;
    Ok(key)
}

// How many of the 16 bytes of a number are zeros in front of its least bytes.
fn zero_bytes(number: u128) -> usize
    ensures { result + length (least_bytes number) ≡ 16 }
{
    (number.leading_zeros() / 8) as usize
}

// A prefix, and the packed tuple of one number behind it.
fn key_behind(prefix: &Key, number: u64) -> Result<Key, AllocError>
    ensures { IfOk result (λ key. key ≡ prefix.now ++ packed number) }
{
    let number = u128::from(number);
    let zeros = zero_bytes(number);
    let mut key = joined(prefix, &[CODE_OF_ZERO + (16 - zeros) as u8])?;
    key.extend(&number.to_be_bytes()[zeros..])?;
    Ok(key)
}
