//! The single steps: a read, a write, and a call of the allocator.

ghost use Rattle.model_database.specs.Databases.{Set, Clear, ClearRange};
ghost use Rattle.model_directory.specs.Courses.{Gives, Allocates, value_of, pairs_of, does};
ghost use Rattle.directory_nodes.specs.Runs.{Draws, Follows};

use crate::fault::{from_allocator, from_tr};
use directory_types::DirFault;
use fdb_calls::Tr;
use fdb_subspace::Subspace;
use key_bytes::{Bytes, Key, KeyRange, Pairs};
use outside::Words;
use prefix_allocator::allocate;
use std::alloc::Global;

/// Returns the value of a key.
pub(crate) fn value_of<T: Tr>(
    tr: &mut T,
    key: &Key,
    snapshot: bool,
) -> Result<Option<Bytes>, DirFault>
    ensures follows { Follows result (T.Tr.stands tr.old) (T.Tr.stands tr.new) (value_of snapshot key.now) }
    ensures same { T.Tr.same tr.old tr.new }
{
    from_tr(tr.get(key.as_slice(), snapshot))
}

/// Returns the pairs of a range, up to a limit, or all where it is 0.
pub fn pairs_of<T: Tr>(
    tr: &mut T,
    range: &KeyRange,
    limit: u32,
    backward: bool,
    snapshot: bool,
) -> Result<Pairs, DirFault>
    ensures follows { Follows result (T.Tr.stands tr.old) (T.Tr.stands tr.new)
        (pairs_of snapshot range.now.begin range.now.end limit backward) }
    ensures same { T.Tr.same tr.old tr.new }
{
    from_tr(tr.range(range, limit, backward, snapshot))
}

/// Writes a value under a key.
pub fn set<T: Tr>(tr: &mut T, key: &Key, value: &[u8]) -> Result<(), DirFault>
    ensures follows { Follows result (T.Tr.stands tr.old) (T.Tr.stands tr.new) (does (Set key.now value.now)) }
    ensures same { T.Tr.same tr.old tr.new }
{
    from_tr(tr.set(key.as_slice(), value))
}

/// Clears a key.
pub fn clear<T: Tr>(tr: &mut T, key: &Key) -> Result<(), DirFault>
    ensures follows { Follows result (T.Tr.stands tr.old) (T.Tr.stands tr.new) (does (Clear key.now)) }
    ensures same { T.Tr.same tr.old tr.new }
{
    from_tr(tr.clear(key.as_slice()))
}

/// Clears the keys of a range.
pub fn clear_range<T: Tr>(tr: &mut T, range: &KeyRange) -> Result<(), DirFault>
    ensures follows { Follows result (T.Tr.stands tr.old) (T.Tr.stands tr.new) (does (ClearRange range.now.begin range.now.end)) }
    ensures same { T.Tr.same tr.old tr.new }
{
    from_tr(tr.clear_range(range))
}

/// Returns the number that the allocator grants on a subspace.
pub(crate) fn grant<T: Tr, W: Words>(
    alloc: Global,
    tr: &mut T,
    words: &mut W,
    space: &Subspace,
) -> Result<u64, DirFault>
    ensures draws { Draws result (T.Tr.stands tr.old) (T.Tr.stands tr.new) (W.Words.words words.old) (W.Words.words words.new)
        (Allocates space.now.prefix (λ number. Gives number)) }
    ensures same { T.Tr.same tr.old tr.new }
{
    from_allocator(allocate(alloc, tr, space, words))
}
