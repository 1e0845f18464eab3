//! The keys of a subspace.

ghost use Rattle.std.specs.Prelude.{◌≡◌, ◌≤◌, ◌<◌, ◌+◌, [], ◌∷◌, ◌++◌, length, drop, reverse, IfOk, MatchOption};
ghost use Rattle.key_bytes.specs.Numbers.{number_low};
ghost use Rattle.fdb_tuple.specs.Tuples.{Empty};
ghost use Rattle.fdb_tuple.specs.Listed.{before};
ghost use Rattle.fdb_tuple.specs.Spelling.{spelling};
ghost use Rattle.model_recipes.specs.Turns.{space_begin, space_end};
ghost use Rattle.model_recipes.specs.Queues.{index_key, index_in};

use fdb_subspace::Subspace;
use fdb_tuple::{Elem, pack_element_into};
use key_bytes::{Bytes, Key, KeyRange};
use model_recipes::GREATEST_INDEX;
use std::alloc::AllocError;

/// The range of the packed tuples behind a key.
pub(crate) fn range_behind(key: &Key) -> Result<KeyRange, AllocError>
    ensures begin { IfOk result (λ range. range.begin ≡ space_begin key.now) }
    ensures end { IfOk result (λ range. range.end ≡ space_end key.now) }
{
    let begin = key.after()?;
    let mut end = key.copy()?;
    end.extend(&[0xFF])?;
    Ok(KeyRange { begin, end })
}

/// A key, and the packed tuple of one element behind it.
pub(crate) fn packed_behind(key: &Key, element: &Elem) -> Result<Key, AllocError>
    ensures { IfOk result (λ packed. packed ≡ key.now ++ spelling (before element.now Empty)) }
{
    let mut packed = Vec::from_slice(key.allocator(), key.as_slice())?;
    pack_element_into(&mut packed, element)?;
    Bytes::from_vec(packed)
}

/// The key of an index.
pub(crate) fn index_key(s: &Subspace, index: u64) -> Result<Key, AllocError>
    ensures { IfOk result (λ key. key ≡ index_key s.now.prefix index) }
{
    packed_behind(&s.prefix, &Elem::Int(i128::from(index)))
}

/// The index whose key this is, up to the greatest.
pub(crate) fn index_in(s: &Subspace, key: &Key) -> Result<Option<u64>, AllocError>
    ensures { IfOk result (λ index. index ≡ index_in s.now.prefix key.now) }
{
    let Some(index) = number_of(digits_behind(s, key)) else {
        return Ok(None);
    };
    if index > GREATEST_INDEX || *key != index_key(s, index)? {
        return Ok(None);
    }
    Ok(Some(index))
}

// The bytes of a key behind the prefix and the code of an integer.
fn digits_behind<'a>(s: &Subspace, key: &'a Key) -> &'a [u8]
    ensures { result.now ≡ drop (length s.now.prefix + 1) key.now }
{
    let bytes = key.as_slice();
    let place = s.prefix.as_slice().len() + 1;
    if bytes.len() < place {
        return &[];
    }
    &bytes[place..]
}

// The number of these bytes, the highest first, where they are at most eight.
fn number_of(digits: &[u8]) -> Option<u64>
    ensures { MatchOption result (8 < length digits.now) (λ number. number ≡ number_low (reverse digits.now)) }
{
    if digits.len() > 8 {
        return None;
    }
    Some(few_digits(digits))
}

fn few_digits(digits: &[u8]) -> u64
    requires { length digits.now ≤ 8 }
    ensures { result ≡ number_low (reverse digits.now) }
{
    let mut number = 0;
    for digit in digits {
        number = 256 * number + u64::from(*digit);
    }
    number
}
