//! What can be asked of an object of the list, and copies of what it holds.

ghost use Rattle.std.specs.Prelude.{◌≡◌, ◌++◌, IfOk, OnOk, option_map};
ghost use Rattle.model_machine.specs.Directories.{layer_of, prefix_of, path_of, layer_name_of, is_null, below};

use directory_types::{Layer, Path};
use fdb_tuple::Text;
use key_bytes::Bytes;
use model_directory::is_partition;
use model_machine::Object;
use std::alloc::{AllocError, Global};

// The layer that an object asks for directories, where it can.
pub(crate) fn layer_of(object: &Object) -> Option<&Layer>
    ensures { option_map (λ layer. layer.now) result ≡ layer_of object.now }
{
    match object {
        Object::Layer(layer) => Some(layer),
        Object::Directory { layer, .. } => Some(layer),
        Object::Subspace { .. } | Object::Null => None,
    }
}

// What the keys of an object begin with that is a subspace; a partition is none.
pub(crate) fn prefix_of(object: &Object) -> Option<&Bytes>
    ensures { option_map (λ prefix. prefix.now) result ≡ prefix_of object.now }
{
    match object {
        Object::Directory {
            prefix,
            layer_name,
            ..
        } => {
            if is_partition(layer_name) {
                None
            } else {
                Some(prefix)
            }
        }
        Object::Subspace { prefix } => Some(prefix),
        Object::Layer(_) | Object::Null => None,
    }
}

// The path of an object that can be asked: that of a layer is empty.
pub(crate) fn path_of(object: &Object) -> &[Text]
    ensures { result.now ≡ path_of object.now }
{
    match object {
        Object::Directory { path, .. } => path.as_slice(),
        Object::Layer(_) | Object::Subspace { .. } | Object::Null => &[],
    }
}

// The layer name of an object that can be asked: that of a layer is empty.
pub(crate) fn layer_name_of(object: &Object) -> &[u8]
    ensures { result.now ≡ layer_name_of object.now }
{
    match object {
        Object::Directory { layer_name, .. } => layer_name.as_slice(),
        Object::Layer(_) | Object::Subspace { .. } | Object::Null => &[],
    }
}

pub(crate) fn is_null(object: &Object) -> bool
    ensures { result ≡ is_null object.now }
{
    matches!(object, Object::Null)
}

// The path below an object.
pub(crate) fn below(alloc: Global, object: &Object, path: &Path) -> Result<Path, AllocError>
    ensures { IfOk result (λ whole. whole ≡ below object.now path.now) }
{
    let mut whole = Path::new(alloc);
    add_names(&mut whole, path_of(object))?;
    add_names(&mut whole, path.as_slice())?;
    Ok(whole)
}

// A copy of the path of an object.
pub(crate) fn copied_path(alloc: Global, object: &Object) -> Result<Path, AllocError>
    ensures { IfOk result (λ path. path ≡ path_of object.now) }
{
    let mut path = Path::new(alloc);
    add_names(&mut path, path_of(object))?;
    Ok(path)
}

// Adds copies of these names at the end.
fn add_names(path: &mut Path, names: &[Text]) -> Result<(), AllocError>
    ensures { OnOk result (path.new ≡ path.old ++ names.now) }
{
    for name in names {
        path.push(name.copy()?)?;
    }
    Ok(())
}

/// Makes the directory of a layer as it was opened, with copies of these. It is refused for want of memory
/// alone.
pub fn directory_of(
    alloc: Global,
    layer: &Layer,
    path: &Path,
    prefix: &Bytes,
    layer_name: &Bytes,
) -> Result<Object, AllocError>
    ensures { IfOk result (λ object. object ≡ Object.Directory layer.now path.now prefix.now layer_name.now) }
{
    let mut names = Path::new(alloc);
    add_names(&mut names, path.as_slice())?;
    Ok(Object::Directory {
        layer: copy_of(layer)?,
        path: names,
        prefix: prefix.copy()?,
        layer_name: layer_name.copy()?,
    })
}

// A copy of a layer.
pub(crate) fn copy_of(layer: &Layer) -> Result<Layer, AllocError>
    ensures { IfOk result (λ copy. copy ≡ layer.now) }
{
    Ok(Layer {
        node: layer.node.copy()?,
        content: layer.content.copy()?,
        manual: layer.manual,
    })
}
