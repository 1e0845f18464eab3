//! Finding a directory by its path.

ghost use Rattle.std.specs.Prelude.{◌≡◌, IfOk, unwrap_or, []};
ghost use Rattle.model_directory.specs.Steps.{root, directory_at, child_of, find};
ghost use Rattle.directory_nodes.specs.Runs.{Follows};
ghost use Rattle.directory_nodes.specs.Places.{found_so, IsLess};

use crate::calls::value_of;
use crate::nodes::Node;
use directory_types::{DirFault, Layer};
use fdb_calls::Tr;
use fdb_tuple::Text;
use key_bytes::Bytes;
use model_directory::{Directory, is_partition};
use std::alloc::AllocError;

/// What a path leads to: a directory, and the names that remain, where that is a partition.
#[derive(Debug, Drop)]
pub struct Found<'a> {
    pub directory: Directory,
    pub rest: &'a [Text],
}

/// Returns the root of a layer.
pub fn root(layer: &Layer) -> Result<Directory, AllocError>
    ensures { IfOk result (λ found. found ≡ root layer.now) }
{
    Ok(Directory {
        prefix: layer.node.copy()?,
        layer: Bytes::new(layer.node.allocator()),
    })
}

/// Returns what a path leads to, where there is something: the names of the path are followed one by one, as far as a partition.
pub fn find<'a, T: Tr>(
    layer: &Layer,
    tr: &mut T,
    path: &'a [Text],
    snapshot: bool,
) -> Result<Option<Found<'a>>, DirFault>
    ensures follows { Follows (found_so result) (T.Tr.stands tr.old) (T.Tr.stands tr.new) (find snapshot layer.now path.now) }
    ensures less { IsLess result path.now }
    ensures same { T.Tr.same tr.old tr.new }
{
    let mut found = root(layer)?;
    let mut rest = path;
    while let Some((name, others)) = rest.split_first() {
        if is_partition(&found.layer) {
            return Ok(Some(Found {
                directory: found,
                rest,
            }));
        }
        let Some(child) = child_of(layer, tr, &found, name, snapshot)? else {
            return Ok(None);
        };
        found = child;
        rest = others;
    }
    Ok(Some(Found {
        directory: found,
        rest,
    }))
}

// The directory that an entry of another one names.
fn child_of<T: Tr>(
    layer: &Layer,
    tr: &mut T,
    parent: &Directory,
    name: &Text,
    snapshot: bool,
) -> Result<Option<Directory>, DirFault>
    ensures follows { Follows result (T.Tr.stands tr.old) (T.Tr.stands tr.new) (child_of snapshot layer.now parent.now name.now) }
    ensures same { T.Tr.same tr.old tr.new }
{
    let key = Node::of(layer, &parent.prefix)?.entry(name)?;
    match value_of(tr, &key, snapshot)? {
        Some(prefix) => directory_at(layer, tr, prefix, snapshot),
        None => Ok(None),
    }
}

// The directory of a prefix.
fn directory_at<T: Tr>(
    layer: &Layer,
    tr: &mut T,
    prefix: Bytes,
    snapshot: bool,
) -> Result<Option<Directory>, DirFault>
    ensures follows { Follows result (T.Tr.stands tr.old) (T.Tr.stands tr.new) (directory_at snapshot layer.now prefix) }
    ensures same { T.Tr.same tr.old tr.new }
{
    let key = Node::of(layer, &prefix)?.layer_key()?;
    let name = value_of(tr, &key, snapshot)?.unwrap_or(Bytes::new(layer.node.allocator()));
    Ok(Some(Directory {
        prefix,
        layer: name,
    }))
}
