//! The directories right below one.

ghost use Rattle.std.specs.Prelude.{◌≡◌, map, IfOk};
ghost use Rattle.key_bytes.specs.Entries.{entry_of};
ghost use Rattle.model_directory.specs.Steps.{child_in, children_in, children};
ghost use Rattle.model_directory.specs.Calls.{to_see, lists, names_below, is_there};
ghost use Rattle.directory_nodes.specs.Runs.{Follows, Tells};

use crate::reaching::{Place, inside, reach};
use directory_nodes::{Node, check, pairs_of};
use directory_types::{DirFault, Layer, Path};
use fdb_calls::Tr;
use fdb_tuple::Text;
use key_bytes::{Bytes, Pair, Pairs};
use lists::List;
use model_directory::{Child, Directory, Lookup, is_partition};
use std::alloc::{AllocError, Global};

/// The directories right below the one of a prefix, in the order of their keys.
pub(crate) fn children<T: Tr>(
    layer: &Layer,
    tr: &mut T,
    prefix: &Bytes,
    snapshot: bool,
) -> Result<List<Child>, DirFault>
    ensures follows { Follows result (T.Tr.stands tr.old) (T.Tr.stands tr.new) (children snapshot layer.now prefix.now) }
    ensures same { T.Tr.same tr.old tr.new }
{
    let node = Node::of(layer, prefix)?;
    let pairs = pairs_of(tr, &node.entries()?, 0, false, snapshot)?;
    children_in(layer.node.allocator(), &node, &pairs)
}

// The name and the prefix of each entry.
fn children_in(alloc: Global, node: &Node, pairs: &Pairs) -> Result<List<Child>, DirFault>
    ensures { Tells result (children_in node.now.key pairs.now) }
{
    let mut found = List::new(alloc);
    for pair in pairs.as_slice() {
        found.push(child_in(node, pair)?)?;
    }
    Ok(found)
}

// The directory of an entry, whose key must be that of a name.
fn child_in(node: &Node, pair: &Pair) -> Result<Child, DirFault>
    ensures { Tells result (child_in node.now.key (entry_of pair.now)) }
{
    match node.name_in(&pair.key)? {
        Some(name) => Ok(Child {
            name,
            prefix: pair.value.copy()?,
        }),
        None => Err(DirFault::BadNode {
            key: pair.key.copy()?,
        }),
    }
}

/// The names of the directories right below the one of a path.
pub(crate) fn names_below<T: Tr>(
    alloc: Global,
    layer: &Layer,
    tr: &mut T,
    path: &[Text],
    snapshot: bool,
) -> Result<Path, DirFault>
    ensures follows { Follows result (T.Tr.stands tr.old) (T.Tr.stands tr.new) (names_below snapshot layer.now path.now) }
    ensures same { T.Tr.same tr.old tr.new }
{
    let Place {
        layer: inner,
        path: _,
        found,
    } = reach(layer, tr, path, to_see(snapshot))?;
    let Some(found) = found else {
        return Err(DirFault::Missing);
    };
    let below = list_found(&inner, tr, &found, snapshot)?;
    Ok(names_of(alloc, &below)?)
}

// The directories right below one; below a partition, those of the root of its own layer.
fn list_found<T: Tr>(
    layer: &Layer,
    tr: &mut T,
    found: &Directory,
    snapshot: bool,
) -> Result<List<Child>, DirFault>
    ensures follows { Follows result (T.Tr.stands tr.old) (T.Tr.stands tr.new) (lists snapshot layer.now found.now) }
    ensures same { T.Tr.same tr.old tr.new }
{
    if !is_partition(&found.layer) {
        return children(layer, tr, &found.prefix, snapshot);
    }
    let inner = inside(&found.prefix)?;
    check(&inner, tr, false, snapshot)?;
    children(&inner, tr, &inner.node, snapshot)
}

// How a directory is looked for that is listed, or only looked for: the root may be meant.
fn to_see(snapshot: bool) -> Lookup
    ensures { result ≡ to_see snapshot }
{
    Lookup {
        writes: false,
        snapshot,
        has_prefix: false,
        may_be_root: true,
    }
}

fn names_of(alloc: Global, children: &List<Child>) -> Result<Path, AllocError>
    ensures { IfOk result (λ names. names ≡ map (λ child. child.name) children.now) }
{
    let mut names = List::new(alloc);
    for child in children.as_slice() {
        names.push(child.name.copy()?)?;
    }
    Ok(names)
}

/// Whether there is a directory of this path.
pub(crate) fn is_there<T: Tr>(
    layer: &Layer,
    tr: &mut T,
    path: &[Text],
    snapshot: bool,
) -> Result<bool, DirFault>
    ensures follows { Follows result (T.Tr.stands tr.old) (T.Tr.stands tr.new) (is_there snapshot layer.now path.now) }
    ensures same { T.Tr.same tr.old tr.new }
{
    let at = reach(layer, tr, path, to_see(snapshot))?;
    Ok(at.found.is_some())
}
