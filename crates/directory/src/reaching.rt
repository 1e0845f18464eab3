//! Where a path ends: the first steps of a call, up to what the path leads to, begun again in each partition on the way.

ghost use Rattle.std.specs.Prelude.{◌≡◌, ◌+◌, ◌<◌, ◌==◌, ◌&&◌, not, false, IfOk, OnOk, length};
ghost use Rattle.model_directory.specs.Steps.{admits, arrives, inside};
ghost use Rattle.directory_nodes.specs.Runs.{Follows};
ghost use Rattle.directory.specs.Places.{place_so, IsWithin};

use directory_nodes::{check, find};
use directory_types::{DirFault, Layer};
use fdb_calls::Tr;
use fdb_tuple::Text;
use key_bytes::Bytes;
use model_directory::{Directory, Lookup};
use std::alloc::AllocError;

/// Where a path ends: a layer, the path in it, and the directory of that path, where there is one.
#[derive(Debug, Drop)]
pub(crate) struct Place<'a> {
    pub layer: Layer,
    pub path: &'a [Text],
    pub found: Option<Directory>,
}

/// Where a path ends.
pub(crate) fn reach<'a, T: Tr>(
    layer: &Layer,
    tr: &mut T,
    path: &'a [Text],
    lookup: Lookup,
) -> Result<Place<'a>, DirFault>
    ensures follows { Follows (place_so result) (T.Tr.stands tr.old) (T.Tr.stands tr.new)
        (arrives (length path.now + 1) lookup layer.now path.now) }
    ensures within { IsWithin result path.now lookup.may_be_root }
    ensures same { T.Tr.same tr.old tr.new }
{
    let mut inner = copy_of(layer)?;
    let mut rest = path;
    loop {
        admit(&inner, tr, rest, lookup)?;
        let Some(found) = find(&inner, tr, rest, lookup.snapshot)? else {
            return Ok(Place {
                layer: inner,
                path: rest,
                found: None,
            });
        };
        if found.rest.is_empty() {
            return Ok(Place {
                layer: inner,
                path: rest,
                found: Some(found.directory),
            });
        }
        inner = inside(&found.directory.prefix)?;
        rest = found.rest;
    }
}

// Whether a prefix is given, and the layer takes none that is given.
fn is_barred(layer: &Layer, lookup: Lookup) -> bool
    ensures { result ≡ (lookup.has_prefix && not layer.now.manual) }
{
    lookup.has_prefix && !layer.manual
}

// Whether the path is that of the root, which may not be meant.
fn is_root(path: &[Text], lookup: Lookup) -> bool
    ensures { result ≡ (not lookup.may_be_root && length path.now == 0) }
{
    !lookup.may_be_root && path.is_empty()
}

// What a call asks of a layer before it looks for a path there.
fn admit<T: Tr>(layer: &Layer, tr: &mut T, path: &[Text], lookup: Lookup) -> Result<(), DirFault>
    ensures follows { Follows result (T.Tr.stands tr.old) (T.Tr.stands tr.new) (admits lookup layer.now path.now) }
    ensures some { OnOk result (lookup.may_be_root ≡ false → 0 < length path.now) }
    ensures same { T.Tr.same tr.old tr.new }
{
    check(layer, tr, lookup.writes, lookup.snapshot)?;
    if is_barred(layer, lookup) {
        return Err(DirFault::ManualNotAllowed);
    }
    if is_root(path, lookup) {
        return Err(DirFault::EmptyPath);
    }
    Ok(())
}

/// A copy of a layer.
pub(crate) fn copy_of(layer: &Layer) -> Result<Layer, AllocError>
    ensures { IfOk result (λ copy. copy ≡ layer.now) }
{
    Ok(Layer {
        node: layer.node.copy()?,
        content: layer.content.copy()?,
        manual: layer.manual,
    })
}

/// The layer of what lies in the partition with a prefix.
pub(crate) fn inside(prefix: &Bytes) -> Result<Layer, AllocError>
    ensures { IfOk result (λ layer. layer ≡ inside prefix.now) }
{
    let mut node = prefix.copy()?;
    node.extend(&[0xFE])?;
    Ok(Layer {
        node,
        content: prefix.copy()?,
        manual: false,
    })
}
