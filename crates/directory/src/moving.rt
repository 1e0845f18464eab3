//! Moving a directory.

ghost use Rattle.std.specs.Prelude.{◌+◌, length, Some, option_map};
ghost use Rattle.model_directory.specs.Calls.{moves_on, finds_moved, enters_moved, leaves, moving};
ghost use Rattle.directory_nodes.specs.Runs.{Follows, Tells};
ghost use Rattle.directory_nodes.specs.Places.{found_as};
ghost use Rattle.directory.specs.Places.{names_so, move_so, HasNames};

use crate::reaching::{copy_of, inside};
use directory_nodes::{Found, check, clear_entry, find, is_within, opened, set_entry};
use directory_types::{DirFault, DirReply, Layer};
use fdb_calls::Tr;
use fdb_tuple::Text;
use model_directory::Directory;
use std::alloc::Global;

/// What is moved, and where: a layer, and both paths in it.
#[derive(Debug, Drop)]
pub(crate) struct Move<'a> {
    pub layer: Layer,
    pub path: &'a [Text],
    pub new_path: &'a [Text],
    pub moved: Directory,
}

/// Moves the directory of a path to another path.
pub(crate) fn move_directory<T: Tr>(
    alloc: Global,
    layer: &Layer,
    tr: &mut T,
    path: &[Text],
    new_path: &[Text],
) -> Result<DirReply, DirFault>
    ensures follows { Follows result (T.Tr.stands tr.old) (T.Tr.stands tr.new) (moving layer.now path.now new_path.now) }
    ensures same { T.Tr.same tr.old tr.new }
{
    let Move {
        layer: inner,
        path: names,
        new_path: new_names,
        moved,
    } = find_moved(layer, tr, path, new_path)?;
    // Neither is the root.
    let Some((name, above)) = names.split_last() else {
        return Err(DirFault::IntoItself);
    };
    let Some((new_name, new_above)) = new_names.split_last() else {
        return Err(DirFault::Exists);
    };
    enter_moved(&inner, tr, new_above, new_name, &moved)?;
    leave(&inner, tr, above, name)?;
    Ok(opened(alloc, new_path, moved)?)
}

// What is moved. Both paths are looked for before either is judged, and again in each partition that both lead into.
fn find_moved<'a, T: Tr>(
    layer: &Layer,
    tr: &mut T,
    path: &'a [Text],
    new_path: &'a [Text],
) -> Result<Move<'a>, DirFault>
    ensures follows { Follows (move_so result) (T.Tr.stands tr.old) (T.Tr.stands tr.new)
        (finds_moved (length path.now + 1) layer.now path.now new_path.now) }
    ensures some { HasNames result }
    ensures same { T.Tr.same tr.old tr.new }
{
    let mut inner = copy_of(layer)?;
    let mut rest = path;
    let mut new_rest = new_path;
    loop {
        check(&inner, tr, true, false)?;
        if is_within(new_rest, rest) {
            return Err(DirFault::IntoItself);
        }
        let old = find(&inner, tr, rest, false)?;
        let new = find(&inner, tr, new_rest, false)?;
        let Some(old) = old else {
            return Err(DirFault::Missing);
        };
        let Some(names) = move_on(&old, new)? else {
            return Ok(Move {
                layer: inner,
                path: rest,
                new_path: new_rest,
                moved: old.directory,
            });
        };
        inner = inside(&old.directory.prefix)?;
        rest = old.rest;
        new_rest = names;
    }
}

// Where a move goes on, by what both paths lead to: in this layer, or in one partition, with the names that remain of the new path.
fn move_on<'a>(old: &Found, new: Option<Found<'a>>) -> Result<Option<&'a [Text]>, DirFault>
    ensures { Tells (names_so result) (moves_on (found_as old.now) (option_map found_as new.entry)) }
{
    match new {
        Some(new) => move_inside(old, new),
        None if old.rest.is_empty() => Ok(None),
        None => Err(DirFault::AcrossPartitions),
    }
}

// The names that remain of the new path, where both paths lead into one partition.
fn move_inside<'a>(old: &Found, new: Found<'a>) -> Result<Option<&'a [Text]>, DirFault>
    ensures { Tells (names_so result) (moves_on (found_as old.now) (Some (found_as new.entry))) }
{
    if old.rest.is_empty() {
        if new.rest.is_empty() {
            return Err(DirFault::Exists);
        }
        return Err(DirFault::AcrossPartitions);
    }
    if new.rest.is_empty() {
        return Err(DirFault::AcrossPartitions);
    }
    if old.directory.prefix.as_slice() != new.directory.prefix.as_slice() {
        return Err(DirFault::AcrossPartitions);
    }
    Ok(Some(new.rest))
}

// Enters a directory in the node of the directory of a path.
fn enter_moved<T: Tr>(
    layer: &Layer,
    tr: &mut T,
    above: &[Text],
    name: &Text,
    moved: &Directory,
) -> Result<(), DirFault>
    ensures follows { Follows result (T.Tr.stands tr.old) (T.Tr.stands tr.new)
        (enters_moved layer.now above.now name.now moved.now) }
    ensures same { T.Tr.same tr.old tr.new }
{
    let Some(parent) = find(layer, tr, above, false)? else {
        return Err(DirFault::ParentMissing);
    };
    set_entry(layer, tr, &parent.directory, name, &moved.prefix)
}

/// Clears the entry of a name in the node of the directory of a path, where that is still there.
pub(crate) fn leave<T: Tr>(
    layer: &Layer,
    tr: &mut T,
    above: &[Text],
    name: &Text,
) -> Result<(), DirFault>
    ensures follows { Follows result (T.Tr.stands tr.old) (T.Tr.stands tr.new) (leaves layer.now above.now name.now) }
    ensures same { T.Tr.same tr.old tr.new }
{
    match find(layer, tr, above, false)? {
        Some(parent) => clear_entry(layer, tr, &parent.directory, name),
        None => Ok(()),
    }
}
