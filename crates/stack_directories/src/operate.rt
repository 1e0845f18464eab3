//! Each operation on the directories by its name.

ghost use Rattle.std.specs.Prelude.{IfOk};
ghost use Rattle.model_machine.specs.Directories.{directed};
ghost use Rattle.stack_items.specs.Looks.{LooksUnlessFull};
ghost use Rattle.stack_directories.specs.Directing.{said, GivesElements};

use crate::calls::{
    create, create_or_open, exists, list, log_directory, move_directory, move_to, open, remove,
    remove_if_exists,
};
use crate::directories::Directories;
use crate::indices::{change, create_layer, create_subspace, set_error_index};
use crate::outcomes::Directed;
use crate::subspaces::{
    contains, log_subspace, open_subspace, pack_key, range, strip_prefix, unpack_key,
};
use key_bytes::Bytes;
use model_machine::{DirectoryOperation, Object, Scope};
use stack_items::{Operands, StackFault};
use std::alloc::Global;

/// Returns what an operation in its scope comes to, where this is the current name, by its operands. Where
/// there is no item it answers Underflow; where an operand is of another kind it answers Operand, and the look
/// came past it; where an item waits that is to be popped it answers Waits; where memory runs out it answers
/// NoMemory. The directories stay as they are.
#[tactic(auto, unfolding(model_machine::specs::Directories::directed))]
pub fn directed(
    operands: &mut Operands<'_>,
    alloc: Global,
    operation: DirectoryOperation,
    scope: Scope,
    name: &Bytes,
    directories: &Directories,
) -> Result<Directed, StackFault>
    ensures said { LooksUnlessFull said result (directed operation scope name.now directories.now) operands.old operands.new }
    // Elements that are given are those of a tuple.
    ensures elements { IfOk result GivesElements }
{
    let null = Object::Null;
    let object = directories.current_or(&null);
    match operation {
        DirectoryOperation::CreateSubspace => create_subspace(operands, alloc),
        DirectoryOperation::CreateLayer => create_layer(operands, directories),
        DirectoryOperation::CreateOrOpen => create_or_open(operands, alloc, scope, name, object),
        DirectoryOperation::Create => create(operands, alloc, scope, name, object),
        DirectoryOperation::Open => open(operands, alloc, scope, name, object),
        DirectoryOperation::Change => change(operands, directories),
        DirectoryOperation::SetErrorIndex => set_error_index(operands, directories),
        DirectoryOperation::Move => move_directory(operands, alloc, scope, name, object),
        DirectoryOperation::MoveTo => move_to(operands, alloc, scope, name, object),
        DirectoryOperation::Remove => remove(operands, alloc, scope, name, object),
        DirectoryOperation::RemoveIfExists => {
            remove_if_exists(operands, alloc, scope, name, object)
        }
        DirectoryOperation::List => list(operands, alloc, scope, name, object),
        DirectoryOperation::Exists => exists(operands, alloc, scope, name, object),
        DirectoryOperation::PackKey => pack_key(operands, alloc, object),
        DirectoryOperation::UnpackKey => unpack_key(operands, alloc, object),
        DirectoryOperation::Range => range(operands, alloc, object),
        DirectoryOperation::Contains => contains(operands, alloc, object),
        DirectoryOperation::OpenSubspace => open_subspace(operands, alloc, object),
        DirectoryOperation::LogSubspace => log_subspace(operands, alloc, name, directories),
        DirectoryOperation::LogDirectory => log_directory(operands, alloc, name, directories),
        DirectoryOperation::StripPrefix => strip_prefix(operands, alloc, object),
    }
}
