//! Entries of directories in the nodes of their parents, and paths.

ghost use Rattle.std.specs.Prelude.{◌≡◌, IfOk, unwrap_or, [], Some};
ghost use Rattle.std.specs.Prelude.{bytes_eq};
ghost use Rattle.std.specs.List.{starts_with};
ghost use Rattle.model_directory.specs.Steps.{sets_entry, clears_entry, found_at};
ghost use Rattle.model_directory.specs.Calls.{enters, opened};
ghost use Rattle.directory_nodes.specs.Runs.{Follows};

use crate::calls::{clear, set};
use crate::nodes::Node;
use directory_types::{DirFault, DirReply, Layer, Path};
use fdb_calls::Tr;
use fdb_tuple::Text;
use key_bytes::Bytes;
use lists::List;
use model_directory::Directory;
use std::alloc::{AllocError, Global};

/// Enters a directory in its parent's node, and its layer name in its own.
pub fn enter<T: Tr>(
    layer: &Layer,
    tr: &mut T,
    parent: &Directory,
    name: &Text,
    found: Directory,
) -> Result<Directory, DirFault>
    ensures follows { Follows result (T.Tr.stands tr.old) (T.Tr.stands tr.new)
        (enters layer.now parent.now name.now found.prefix found.layer) }
    ensures same { T.Tr.same tr.old tr.new }
{
    set_entry(layer, tr, parent, name, &found.prefix)?;
    let key = Node::of(layer, &found.prefix)?.layer_key()?;
    set(tr, &key, found.layer.as_slice())?;
    Ok(found)
}

/// Sets the entry of a name in a directory's node.
pub fn set_entry<T: Tr>(
    layer: &Layer,
    tr: &mut T,
    parent: &Directory,
    name: &Text,
    prefix: &Bytes,
) -> Result<(), DirFault>
    ensures follows { Follows result (T.Tr.stands tr.old) (T.Tr.stands tr.new)
        (sets_entry layer.now parent.now.prefix name.now prefix.now) }
    ensures same { T.Tr.same tr.old tr.new }
{
    let key = Node::of(layer, &parent.prefix)?.entry(name)?;
    set(tr, &key, prefix.as_slice())
}

/// Clears the entry of a name in the node of a directory that is still there.
pub fn clear_entry<T: Tr>(
    layer: &Layer,
    tr: &mut T,
    parent: &Directory,
    name: &Text,
) -> Result<(), DirFault>
    ensures follows { Follows result (T.Tr.stands tr.old) (T.Tr.stands tr.new)
        (clears_entry layer.now (Some (found_at parent.now [])) name.now) }
    ensures same { T.Tr.same tr.old tr.new }
{
    let key = Node::of(layer, &parent.prefix)?.entry(name)?;
    clear(tr, &key)
}

/// Tells whether a path is another one, or begins with it.
pub fn is_within(path: &[Text], front: &[Text]) -> bool
    ensures { result ≡ starts_with bytes_eq path.now front.now }
{
    if path.len() < front.len() {
        return false;
    }
    for (name, other) in front.iter().zip(path) {
        if name.as_bytes() != other.as_bytes() {
            return false;
        }
    }
    true
}

/// Makes the answer that a directory was opened.
pub fn opened(alloc: Global, path: &[Text], found: Directory) -> Result<DirReply, AllocError>
    ensures { IfOk result (λ reply. reply ≡ opened path.now found) }
{
    Ok(DirReply::Opened {
        prefix: found.prefix,
        path: copy_of(alloc, path)?,
        layer: found.layer,
    })
}

// A copy of a path.
fn copy_of(alloc: Global, path: &[Text]) -> Result<Path, AllocError>
    ensures { IfOk result (λ copy. copy ≡ path.now) }
{
    let mut copy = List::new(alloc);
    for name in path {
        copy.push(name.copy()?)?;
    }
    Ok(copy)
}

/// Returns a copy of the layer name that is asked for, or the empty one.
pub fn asked_or_empty(alloc: Global, layer_name: &Option<Bytes>) -> Result<Bytes, AllocError>
    ensures { IfOk result (λ name. name ≡ unwrap_or layer_name.now []) }
{
    match layer_name {
        Some(name) => name.copy(),
        None => Ok(Bytes::new(alloc)),
    }
}
