//! Making and opening a directory.
//!
//! The directories above one that is made are made too, where they are missing. That is done in two loops and not by a function
//! that calls itself, since a path may have any number of names: down from the whole path to the nearest directory that is there,
//! with a prefix for each one that isn't, and then up again, where each is entered in the one above it.

ghost use Rattle.std.specs.Prelude.{◌≡◌, ℕ, ◌+◌, ◌≤◌, false, [], ◌∷◌, ◌++◌, length, reverse, OnOk};
ghost use Rattle.model_directory.specs.Calls.{judged, found_opened, looks, makes, opening};
ghost use Rattle.directory_nodes.specs.Runs.{Draws, Follows, Tells, beside};
ghost use Rattle.directory.specs.Places.{place_so, IsWithin};
ghost use Rattle.directory.specs.Descents.{missing_at, descends, ascends, makes_parent};

use crate::reaching::{Place, copy_of, reach};
use directory_nodes::{asked_or_empty, enter, opened, root, take_prefix};
use directory_types::{DirArgs, DirFault, DirReply, Layer};
use fdb_calls::Tr;
use fdb_tuple::Text;
use key_bytes::Bytes;
use model_directory::{Directory, Lookup, OpenOptions};
use outside::Words;
use std::alloc::{AllocError, Global};

/// Makes a directory, or opens one.
pub(crate) const CREATE_OR_OPEN: OpenOptions = OpenOptions {
    may_create: true,
    may_open: true,
    snapshot: false,
};

/// A directory that is missing: the layer where it is to be entered, its name, and the prefix of its contents.
#[derive(Debug, Drop)]
pub(crate) struct Missing {
    pub layer: Layer,
    pub name: Text,
    pub prefix: Bytes,
}

/// Makes or opens the directory of a path, as the call may.
pub(crate) fn make_or_open<T: Tr, W: Words>(
    alloc: Global,
    layer: &Layer,
    tr: &mut T,
    words: &mut W,
    options: OpenOptions,
    a: &DirArgs,
) -> Result<DirReply, DirFault>
    ensures draws { Draws result (T.Tr.stands tr.old) (T.Tr.stands tr.new) (W.Words.words words.old) (W.Words.words words.new)
        (opening options layer.now a.now) }
    ensures same { T.Tr.same tr.old tr.new }
{
    let found = make(alloc, layer, tr, words, options, a)?;
    Ok(opened(alloc, a.path.as_slice(), found)?)
}

fn make<T: Tr, W: Words>(
    alloc: Global,
    layer: &Layer,
    tr: &mut T,
    words: &mut W,
    options: OpenOptions,
    a: &DirArgs,
) -> Result<Directory, DirFault>
    ensures draws { Draws result (T.Tr.stands tr.old) (T.Tr.stands tr.new) (W.Words.words words.old) (W.Words.words words.new)
        (makes (length a.now.path + 1) options layer.now a.now.path a.now.layer a.now.prefix) }
    ensures same { T.Tr.same tr.old tr.new }
{
    let Place {
        layer: inner,
        path,
        found,
    } = look(layer, tr, options, a.path.as_slice(), &a.layer, &a.prefix)?;
    if let Some(found) = found {
        return Ok(found);
    }
    // The root was refused.
    let Some((name, front)) = path.split_last() else {
        return Err(DirFault::EmptyPath);
    };
    let prefix = take_prefix(alloc, &inner, tr, words, &a.prefix)?;
    let parent = make_parent(alloc, &inner, tr, words, front)?;
    let child = Directory {
        prefix,
        layer: asked_or_empty(alloc, &a.layer)?,
    };
    enter(&inner, tr, &parent, name, child)
}

// Where the path ends: the directory that is there, or none where it is to be created.
fn look<'a, T: Tr>(
    layer: &Layer,
    tr: &mut T,
    options: OpenOptions,
    path: &'a [Text],
    layer_name: &Option<Bytes>,
    prefix: &Option<Bytes>,
) -> Result<Place<'a>, DirFault>
    ensures follows { Follows (place_so result) (T.Tr.stands tr.old) (T.Tr.stands tr.new)
        (looks options layer.now path.now layer_name.now prefix.now) }
    ensures within { IsWithin result path.now false }
    ensures same { T.Tr.same tr.old tr.new }
{
    let lookup = Lookup {
        writes: false,
        snapshot: options.snapshot,
        has_prefix: prefix.is_some(),
        may_be_root: false,
    };
    let Place {
        layer: inner,
        path: names,
        found,
    } = reach(layer, tr, path, lookup)?;
    Ok(Place {
        layer: inner,
        path: names,
        found: judge(options, layer_name, found)?,
    })
}

// A directory that is there is opened; one that isn't may have to be created.
fn judge(
    options: OpenOptions,
    layer_name: &Option<Bytes>,
    found: Option<Directory>,
) -> Result<Option<Directory>, DirFault>
    ensures { Tells result (judged options layer_name.now found) }
{
    match found {
        Some(found) => open_found(options, layer_name, found),
        None if options.may_create => Ok(None),
        None => Err(DirFault::Missing),
    }
}

// A directory that is there is opened, where that may be and where its layer name is the one that is asked for, if one is.
fn open_found(
    options: OpenOptions,
    layer_name: &Option<Bytes>,
    found: Directory,
) -> Result<Option<Directory>, DirFault>
    ensures { Tells result (found_opened options layer_name.now found) }
{
    if !options.may_open {
        return Err(DirFault::Exists);
    }
    match layer_name {
        Some(name) if !name.is_empty() && name.as_slice() != found.layer.as_slice() => {
            Err(DirFault::LayerDiffers)
        }
        _ => Ok(Some(found)),
    }
}

// The directory of a path, which is made where it is missing.
fn make_parent<T: Tr, W: Words>(
    alloc: Global,
    layer: &Layer,
    tr: &mut T,
    words: &mut W,
    path: &[Text],
) -> Result<Directory, DirFault>
    ensures draws { (bound : ℕ) → length path.now ≤ bound → Draws result (T.Tr.stands tr.old) (T.Tr.stands tr.new)
        (W.Words.words words.old) (W.Words.words words.new) (makes_parent bound layer.now path.now) }
    ensures same { T.Tr.same tr.old tr.new }
{
    let mut missing = Vec::new(alloc);
    let found = descend(alloc, layer, tr, words, path, &mut missing)?;
    ascend(tr, found, missing)
}

// The nearest directory on a path that is there. Those below it are missing: each gets a prefix, the lowest first.
fn descend<T: Tr, W: Words>(
    alloc: Global,
    layer: &Layer,
    tr: &mut T,
    words: &mut W,
    path: &[Text],
    missing: &mut Vec<Missing>,
) -> Result<Directory, DirFault>
    ensures draws { (bound : ℕ) → length path.now ≤ bound → Draws (beside result missing.new.items) (T.Tr.stands tr.old) (T.Tr.stands tr.new)
        (W.Words.words words.old) (W.Words.words words.new) (descends bound layer.now path.now missing.old.items) }
    ensures same { T.Tr.same tr.old tr.new }
{
    let mut inner = copy_of(layer)?;
    let mut rest = path;
    while !rest.is_empty() {
        let Place {
            layer: further,
            path: names,
            found,
        } = look(&inner, tr, CREATE_OR_OPEN, rest, &None, &None)?;
        if let Some(found) = found {
            return Ok(found);
        }
        // The root was refused.
        let Some((name, front)) = names.split_last() else {
            return Err(DirFault::EmptyPath);
        };
        let prefix = take_prefix(alloc, &further, tr, words, &None)?;
        note_missing(missing, &further, name, prefix)?;
        inner = further;
        rest = front;
    }
    Ok(root(&inner)?)
}

// Notes that a directory is missing, behind those that were noted before.
fn note_missing(
    missing: &mut Vec<Missing>,
    layer: &Layer,
    name: &Text,
    prefix: Bytes,
) -> Result<(), AllocError>
    ensures { OnOk result (missing.new.items ≡ missing.old.items ++ missing_at layer.now name.now prefix ∷ []) }
{
    missing.push(Missing {
        layer: copy_of(layer)?,
        name: name.copy()?,
        prefix,
    })?;
    Ok(())
}

// Enters each of the missing directories in the one above it, the uppermost first, which is the last one.
fn ascend<T: Tr>(
    tr: &mut T,
    found: Directory,
    mut missing: Vec<Missing>,
) -> Result<Directory, DirFault>
    ensures follows { Follows result (T.Tr.stands tr.old) (T.Tr.stands tr.new) (ascends found (reverse missing.items)) }
    ensures same { T.Tr.same tr.old tr.new }
{
    let mut parent = found;
    while let Some(child) = missing.pop() {
        let below = Directory {
            prefix: child.prefix,
            layer: Bytes::new(child.layer.node.allocator()),
        };
        parent = enter(&child.layer, tr, &parent, &child.name, below)?;
    }
    Ok(parent)
}
