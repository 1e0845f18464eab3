//! The prefix of a directory that is to be created.

ghost use Rattle.std.specs.Prelude.{◌≡◌, []};
ghost use Rattle.model_directory.specs.Calls.{has_keys, free_prefix, new_prefix, given_prefix, prefix_for, takes_prefix};
ghost use Rattle.directory_nodes.specs.Runs.{Draws, Follows};

use crate::calls::{grant, pairs_of};
use crate::checking::check;
use crate::in_use::is_in_use;
use crate::nodes::{allocator_of, numbered_behind};
use directory_types::{DirFault, Layer};
use fdb_calls::Tr;
use key_bytes::{Bytes, KeyRange};
use outside::Words;
use std::alloc::Global;

/// Takes the prefix of a directory that is to be created: that which is given, or else a new one.
pub fn take_prefix<T: Tr, W: Words>(
    alloc: Global,
    layer: &Layer,
    tr: &mut T,
    words: &mut W,
    prefix: &Option<Bytes>,
) -> Result<Bytes, DirFault>
    ensures draws { Draws result (T.Tr.stands tr.old) (T.Tr.stands tr.new) (W.Words.words words.old) (W.Words.words words.new)
        (takes_prefix layer.now prefix.now) }
    ensures same { T.Tr.same tr.old tr.new }
{
    check(layer, tr, true, false)?;
    match prefix {
        Some(prefix) => given_prefix(layer, tr, prefix),
        None => new_prefix(alloc, layer, tr, words),
    }
}

// A prefix that is given, where it isn't in use.
fn given_prefix<T: Tr>(layer: &Layer, tr: &mut T, prefix: &Bytes) -> Result<Bytes, DirFault>
    ensures follows { Follows result (T.Tr.stands tr.old) (T.Tr.stands tr.new) (given_prefix layer.now prefix.now) }
    ensures same { T.Tr.same tr.old tr.new }
{
    if is_in_use(layer, tr, prefix, false)? {
        return Err(DirFault::PrefixInUse);
    }
    Ok(prefix.copy()?)
}

// The content's prefix and a number that the allocator grants, where nothing stands there.
fn new_prefix<T: Tr, W: Words>(
    alloc: Global,
    layer: &Layer,
    tr: &mut T,
    words: &mut W,
) -> Result<Bytes, DirFault>
    ensures draws { Draws result (T.Tr.stands tr.old) (T.Tr.stands tr.new) (W.Words.words words.old) (W.Words.words words.new)
        (new_prefix layer.now) }
    ensures same { T.Tr.same tr.old tr.new }
{
    let number = grant(alloc, tr, words, &allocator_of(layer)?)?;
    let prefix = numbered_behind(&layer.content, number)?;
    free_prefix(layer, tr, prefix)
}

// A prefix where no key and no directory stands.
fn free_prefix<T: Tr>(layer: &Layer, tr: &mut T, prefix: Bytes) -> Result<Bytes, DirFault>
    ensures follows { Follows result (T.Tr.stands tr.old) (T.Tr.stands tr.new) (free_prefix layer.now prefix) }
    ensures same { T.Tr.same tr.old tr.new }
{
    if has_keys(tr, &prefix)? {
        return Err(DirFault::KeysAtPrefix);
    }
    if is_in_use(layer, tr, &prefix, true)? {
        return Err(DirFault::PrefixInUse);
    }
    Ok(prefix)
}

// Whether there are keys that begin with a prefix.
fn has_keys<T: Tr>(tr: &mut T, prefix: &Bytes) -> Result<bool, DirFault>
    ensures follows { Follows result (T.Tr.stands tr.old) (T.Tr.stands tr.new) (has_keys prefix.now) }
    ensures same { T.Tr.same tr.old tr.new }
{
    let Some(end) = prefix.strinc()? else {
        return Err(DirFault::NoSuccessor);
    };
    let range = KeyRange {
        begin: prefix.copy()?,
        end,
    };
    let pairs = pairs_of(tr, &range, 1, false, false)?;
    Ok(!pairs.is_empty())
}
