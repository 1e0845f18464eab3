//! The operations on objects and indices (directoryLayerTester.md).

ghost use Rattle.std.specs.Prelude.{◌≡◌, ◌<◌, Some, length, IfOk, option_copied, slice_get};
ghost use Rattle.model_machine.specs.Directories.{create_subspace, create_layer, layered, layer_over, change, change_to, set_error_index, fall_to, index_in};
ghost use Rattle.stack_items.specs.Looks.{LooksUnlessFull};
ghost use Rattle.stack_directories.specs.Directing.{said, GivesElements};

use crate::directories::Directories;
use crate::objects::{is_null, prefix_of};
use crate::operands::packed_operand;
use crate::outcomes::{Directed, ListFault};
use directory_types::Layer;
use model_machine::Object;
use stack_items::{Operands, StackFault};
use std::alloc::{AllocError, Global};

pub(crate) fn create_subspace(
    operands: &mut Operands<'_>,
    alloc: Global,
) -> Result<Directed, StackFault>
    ensures said { LooksUnlessFull said result create_subspace operands.old operands.new }
    ensures elements { IfOk result GivesElements }
{
    let tuple = packed_operand(operands, alloc)?;
    let mut prefix = operands.copied_bytes()?;
    prefix.extend(tuple.as_slice())?;
    Ok(Directed::Appends(Object::Subspace { prefix }))
}

pub(crate) fn create_layer(
    operands: &mut Operands<'_>,
    directories: &Directories,
) -> Result<Directed, StackFault>
    ensures said { LooksUnlessFull said result (create_layer directories.now) operands.old operands.new }
    ensures elements { IfOk result GivesElements }
{
    let node = operands.int()?;
    let content = operands.int()?;
    let manual = operands.flag()?;
    Ok(layered(
        directories.object_at(node),
        directories.object_at(content),
        manual,
    )?)
}

fn layered(
    node: Option<&Object>,
    content: Option<&Object>,
    manual: bool,
) -> Result<Directed, AllocError>
    ensures said { IfOk result (λ directed. said directed
        ≡ layered (option_copied node.entry) (option_copied content.entry) manual) }
    ensures elements { IfOk result GivesElements }
{
    match (node, content) {
        (Some(node), Some(content)) => layer_over(node, content, manual),
        _ => Ok(Directed::Faults(ListFault::NoSuchIndex)),
    }
}

fn layer_over(node: &Object, content: &Object, manual: bool) -> Result<Directed, AllocError>
    ensures said { IfOk result (λ directed. said directed ≡ layered (Some node.now) (Some content.now) manual) }
    ensures elements { IfOk result GivesElements }
{
    if is_null(node) || is_null(content) {
        return Ok(Directed::Appends(Object::Null));
    }
    match (prefix_of(node), prefix_of(content)) {
        (Some(node), Some(content)) => Ok(Directed::Appends(Object::Layer(Layer {
            node: node.copy()?,
            content: content.copy()?,
            manual,
        }))),
        _ => Ok(Directed::Faults(ListFault::NotASubspace)),
    }
}

pub(crate) fn change(
    operands: &mut Operands<'_>,
    directories: &Directories,
) -> Result<Directed, StackFault>
    ensures said { LooksUnlessFull said result (change directories.now) operands.old operands.new }
    ensures elements { IfOk result GivesElements }
{
    let number = operands.int()?;
    if number.is_negative() {
        return Ok(Directed::Faults(ListFault::NoSuchIndex));
    }
    Ok(change_to(directories, number.unsigned_abs()))
}

// The object of this index becomes the current one; in place of null the one of the index for that.
fn change_to(directories: &Directories, number: u128) -> Directed
    ensures said { said result ≡ change_to directories.now number (slice_get directories.now.objects number) }
    ensures elements { GivesElements result }
{
    match directories.index_in(number) {
        Some(index) if is_null(directories.at(index)) => {
            Directed::Chooses(directories.error_index())
        }
        Some(index) => Directed::Chooses(index),
        None => Directed::Faults(ListFault::NoSuchIndex),
    }
}

pub(crate) fn set_error_index(
    operands: &mut Operands<'_>,
    directories: &Directories,
) -> Result<Directed, StackFault>
    ensures said { LooksUnlessFull said result (set_error_index directories.now) operands.old operands.new }
    ensures elements { IfOk result GivesElements }
{
    let number = operands.int()?;
    if number.is_negative() {
        return Ok(Directed::Faults(ListFault::NoSuchIndex));
    }
    Ok(fall_to(directories, number.unsigned_abs()))
}

// This index is taken in place of that of null.
fn fall_to(directories: &Directories, number: u128) -> Directed
    ensures said { said result ≡ fall_to number (slice_get directories.now.objects number) }
    ensures elements { GivesElements result }
{
    match directories.index_in(number) {
        Some(index) => {
            let _object = directories.at(index);
            Directed::FallsTo(index)
        }
        None => Directed::Faults(ListFault::NoSuchIndex),
    }
}
