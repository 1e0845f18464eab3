//! Keys behind a prefix that is lent: what a subspace makes, with no subspace of its own.

ghost use Rattle.std.specs.Prelude.{◌≡◌, [], ◌∷◌, ◌++◌, IfOk};
ghost use Rattle.fdb_tuple.specs.Tuples.{Empty};
ghost use Rattle.fdb_tuple.specs.Listed.{before};
ghost use Rattle.fdb_tuple.specs.Spelling.{spelling};

use fdb_tuple::{Elem, pack_element_into};
use key_bytes::{Bytes, Key, KeyRange};
use std::alloc::AllocError;

/// Packs a tuple of one element as a key: the prefix, and the spelling of the tuple behind it.
pub fn packed_behind(prefix: &Key, element: &Elem) -> Result<Key, AllocError>
    ensures { IfOk result (λ key. key ≡ prefix.now ++ spelling (before element.now Empty)) }
{
    let mut key = Vec::from_slice(prefix.allocator(), prefix.as_slice())?;
    pack_element_into(&mut key, element)?;
    Bytes::from_vec(key)
}

/// Returns the range of the keys that have a tuple behind the prefix, the empty one not counted.
pub fn range_behind(prefix: &Key) -> Result<KeyRange, AllocError>
    ensures begin { IfOk result (λ range. range.begin ≡ prefix.now ++ 0 ∷ []) }
    ensures end { IfOk result (λ range. range.end ≡ prefix.now ++ 255 ∷ []) }
{
    let begin = prefix.after()?;
    let mut end = prefix.copy()?;
    end.extend(&[0xFF])?;
    Ok(KeyRange { begin, end })
}
