//! Removing a directory and all below it.

ghost use Rattle.std.specs.Prelude.{◌≡◌, ◌+◌, length, [], ◌∷◌, ◌++◌, map, OnOk};
ghost use Rattle.model_directory.specs.Calls.{clears_one, clears_all, removes_one, removing};
ghost use Rattle.directory_nodes.specs.Runs.{Follows, FollowsBelow};

use crate::listing::children;
use crate::moving::leave;
use crate::reaching::{Place, reach};
use directory_nodes::{Node, clear_range};
use directory_types::{DirFault, DirReply, Layer};
use fdb_calls::Tr;
use fdb_tuple::Text;
use key_bytes::{Bytes, KeyRange};
use lists::List;
use model_directory::{Child, Directory, Lookup};
use std::alloc::{AllocError, Global};

/// Removes the directory of a path and all below it. Where there is none, that is a fault, or nothing is done.
pub(crate) fn remove_directory<T: Tr>(
    alloc: Global,
    layer: &Layer,
    tr: &mut T,
    path: &[Text],
    must_exist: bool,
) -> Result<DirReply, DirFault>
    ensures follows { FollowsBelow result (T.Tr.stands tr.old) (T.Tr.stands tr.new) (length path.now + 2)
        (λ bound. removing bound must_exist layer.now path.now) }
    ensures same { T.Tr.same tr.old tr.new }
{
    let lookup = Lookup {
        writes: true,
        snapshot: false,
        has_prefix: false,
        may_be_root: false,
    };
    let Place {
        layer: inner,
        path: names,
        found,
    } = reach(layer, tr, path, lookup)?;
    // The root was refused.
    let Some((name, above)) = names.split_last() else {
        return Err(DirFault::EmptyPath);
    };
    match found {
        Some(found) => remove_found(alloc, &inner, tr, above, name, found),
        None if must_exist => Err(DirFault::Missing),
        None => Ok(DirReply::Done),
    }
}

// Removes a directory that has this name in the directory of a path.
fn remove_found<T: Tr>(
    alloc: Global,
    layer: &Layer,
    tr: &mut T,
    above: &[Text],
    name: &Text,
    found: Directory,
) -> Result<DirReply, DirFault>
    ensures follows { FollowsBelow result (T.Tr.stands tr.old) (T.Tr.stands tr.new) 1
        (λ bound. removes_one bound layer.now above.now name.now found) }
    ensures same { T.Tr.same tr.old tr.new }
{
    clear_all(alloc, layer, tr, found.prefix)?;
    leave(layer, tr, above, name)?;
    Ok(DirReply::Done)
}

// Clears the directory of a prefix and all below it, the nearest first.
fn clear_all<T: Tr>(alloc: Global, layer: &Layer, tr: &mut T, prefix: Bytes) -> Result<(), DirFault>
    ensures follows { FollowsBelow result (T.Tr.stands tr.old) (T.Tr.stands tr.new) 1
        (λ bound. clears_all bound layer.now (prefix ∷ [])) }
    ensures same { T.Tr.same tr.old tr.new }
{
    let mut met = Vec::new(alloc);
    met.push(prefix)?;
    // A list has fewer places than there are numbers, so its end comes first.
    for place in 0..usize::MAX {
        let Some(prefix) = met.get(place) else {
            return Ok(());
        };
        let found = clear_one(layer, tr, prefix)?;
        add_prefixes(&mut met, &found)?;
    }
    Ok(())
}

// Adds the prefixes of directories to those that were met.
fn add_prefixes(met: &mut Vec<Bytes>, found: &List<Child>) -> Result<(), AllocError>
    ensures { OnOk result (met.new.items ≡ met.old.items ++ map (λ child. child.prefix) found.now) }
{
    for child in found.as_slice() {
        met.push(child.prefix.copy()?)?;
    }
    Ok(())
}

// Clears the contents and the node of the directory of a prefix: the directories that it had right below it.
fn clear_one<T: Tr>(layer: &Layer, tr: &mut T, prefix: &Bytes) -> Result<List<Child>, DirFault>
    ensures follows { Follows result (T.Tr.stands tr.old) (T.Tr.stands tr.new) (clears_one layer.now prefix.now) }
    ensures same { T.Tr.same tr.old tr.new }
{
    let found = children(layer, tr, prefix, false)?;
    let Some(end) = prefix.strinc()? else {
        return Err(DirFault::NoSuccessor);
    };
    let contents = KeyRange {
        begin: prefix.copy()?,
        end,
    };
    clear_range(tr, &contents)?;
    clear_range(tr, &Node::of(layer, prefix)?.into_range()?)?;
    Ok(found)
}
