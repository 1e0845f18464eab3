//! Whether a prefix is in use.

ghost use Rattle.model_directory.specs.Steps.{is_inside, has_inside, is_node_inside, is_in_use};
ghost use Rattle.directory_nodes.specs.Runs.{Follows, Tells};

use crate::calls::pairs_of;
use crate::nodes::{nodes_between, nodes_up_to, prefix_in};
use directory_types::{DirFault, Layer};
use fdb_calls::Tr;
use key_bytes::{Bytes, Pairs};

/// Tells whether the contents of a directory begin with a prefix, or it with theirs.
pub(crate) fn is_in_use<T: Tr>(
    layer: &Layer,
    tr: &mut T,
    prefix: &Bytes,
    snapshot: bool,
) -> Result<bool, DirFault>
    ensures follows { Follows result (T.Tr.stands tr.old) (T.Tr.stands tr.new) (is_in_use snapshot layer.now prefix.now) }
    ensures same { T.Tr.same tr.old tr.new }
{
    if prefix.is_empty() || prefix.starts_with(layer.node.as_slice()) {
        return Ok(true);
    }
    is_node_inside(layer, tr, prefix, snapshot)
}

// Whether there is a node of a prefix that begins with this one, or that this one begins with.
fn is_node_inside<T: Tr>(
    layer: &Layer,
    tr: &mut T,
    prefix: &Bytes,
    snapshot: bool,
) -> Result<bool, DirFault>
    ensures follows { Follows result (T.Tr.stands tr.old) (T.Tr.stands tr.new) (is_node_inside snapshot layer.now prefix.now) }
    ensures same { T.Tr.same tr.old tr.new }
{
    let pairs = pairs_of(tr, &nodes_up_to(layer, prefix)?, 1, true, snapshot)?;
    if is_inside(layer, prefix, &pairs)? {
        return Ok(true);
    }
    has_inside(layer, tr, prefix, snapshot)
}

// Whether the first of these keys is of a node whose prefix this one begins with.
fn is_inside(layer: &Layer, prefix: &Bytes, pairs: &Pairs) -> Result<bool, DirFault>
    ensures { Tells result (is_inside layer.now prefix.now pairs.now) }
{
    let Some(pair) = pairs.as_slice().first() else {
        return Ok(false);
    };
    match prefix_in(layer, &pair.key)? {
        Some(other) => Ok(prefix.starts_with(other.as_slice())),
        None => Err(DirFault::BadNode {
            key: pair.key.copy()?,
        }),
    }
}

// Whether there is a node of a prefix that begins with this one.
fn has_inside<T: Tr>(
    layer: &Layer,
    tr: &mut T,
    prefix: &Bytes,
    snapshot: bool,
) -> Result<bool, DirFault>
    ensures follows { Follows result (T.Tr.stands tr.old) (T.Tr.stands tr.new) (has_inside snapshot layer.now prefix.now) }
    ensures same { T.Tr.same tr.old tr.new }
{
    let Some(next) = prefix.strinc()? else {
        return Err(DirFault::NoSuccessor);
    };
    let pairs = pairs_of(
        tr,
        &nodes_between(layer, prefix, &next)?,
        1,
        false,
        snapshot,
    )?;
    Ok(!pairs.is_empty())
}
