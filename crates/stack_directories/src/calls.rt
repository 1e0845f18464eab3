//! The operations that call a directory layer (directoryLayerTester.md).

ghost use Rattle.std.specs.Prelude.{◌≡◌, Some, IfOk};
ghost use Rattle.model_machine.specs.declared.Awaits.TheVariants.{Opened};
ghost use Rattle.model_machine.specs.Calls.{is_snapshot};
ghost use Rattle.model_machine.specs.Directories.{name_in, args_on, layer_called, create_or_open, create_directory, open_directory, move_directory, moved_to, move_to, on_path, path_of, layer_name_of, log_directory};
ghost use Rattle.stack_items.specs.Looks.{LooksUnlessFull};
ghost use Rattle.stack_directories.specs.Directing.{said, GivesElements};

use crate::directories::Directories;
use crate::objects::{below, copied_path, copy_of, layer_name_of, layer_of};
use crate::operands::{name_operand, path_if_given, path_operand};
use crate::outcomes::{Directed, ListFault};
use directory_types::{Boxed, DirArgs, DirKind, Layer, Path};
use fdb_calls::Request;
use key_bytes::Bytes;
use model_machine::{Awaits, Object, Scope};
use stack_items::{Operands, StackFault};
use std::alloc::{AllocError, Global};

pub(crate) fn create_or_open(
    operands: &mut Operands<'_>,
    alloc: Global,
    scope: Scope,
    name: &Bytes,
    object: &Object,
) -> Result<Directed, StackFault>
    ensures said { LooksUnlessFull said result (create_or_open scope name.now object.now) operands.old operands.new }
    ensures elements { IfOk result GivesElements }
{
    let path = path_operand(operands, alloc)?;
    let layer = name_operand(operands)?;
    let mut args = args_on(alloc, below(alloc, object, &path)?);
    args.layer = layer;
    Ok(opened_call(name_in(scope, name)?, DirKind::CreateOrOpen, object, args)?)
}

pub(crate) fn create(
    operands: &mut Operands<'_>,
    alloc: Global,
    scope: Scope,
    name: &Bytes,
    object: &Object,
) -> Result<Directed, StackFault>
    ensures said { LooksUnlessFull said result (create_directory scope name.now object.now) operands.old operands.new }
    ensures elements { IfOk result GivesElements }
{
    let path = path_operand(operands, alloc)?;
    let layer = name_operand(operands)?;
    let prefix = name_operand(operands)?;
    let mut args = args_on(alloc, below(alloc, object, &path)?);
    args.layer = layer;
    args.prefix = prefix;
    Ok(opened_call(name_in(scope, name)?, DirKind::Create, object, args)?)
}

pub(crate) fn open(
    operands: &mut Operands<'_>,
    alloc: Global,
    scope: Scope,
    name: &Bytes,
    object: &Object,
) -> Result<Directed, StackFault>
    ensures said { LooksUnlessFull said result (open_directory scope name.now object.now) operands.old operands.new }
    ensures elements { IfOk result GivesElements }
{
    let path = path_operand(operands, alloc)?;
    let layer = name_operand(operands)?;
    let mut args = args_on(alloc, below(alloc, object, &path)?);
    args.layer = layer;
    args.snapshot = is_snapshot(scope);
    Ok(opened_call(name_in(scope, name)?, DirKind::Open, object, args)?)
}

pub(crate) fn move_directory(
    operands: &mut Operands<'_>,
    alloc: Global,
    scope: Scope,
    name: &Bytes,
    object: &Object,
) -> Result<Directed, StackFault>
    ensures said { LooksUnlessFull said result (move_directory scope name.now object.now) operands.old operands.new }
    ensures elements { IfOk result GivesElements }
{
    let path = path_operand(operands, alloc)?;
    let new_path = path_operand(operands, alloc)?;
    let mut args = args_on(alloc, below(alloc, object, &path)?);
    args.new_path = below(alloc, object, &new_path)?;
    Ok(opened_call(name_in(scope, name)?, DirKind::MoveTo, object, args)?)
}

pub(crate) fn move_to(
    operands: &mut Operands<'_>,
    alloc: Global,
    scope: Scope,
    name: &Bytes,
    object: &Object,
) -> Result<Directed, StackFault>
    ensures said { LooksUnlessFull said result (move_to scope name.now object.now) operands.old operands.new }
    ensures elements { IfOk result GivesElements }
{
    let path = path_operand(operands, alloc)?;
    Ok(moved_to(alloc, scope, name, object, path)?)
}

// A directory, which must be one and no layer, is moved to a path from the root on.
fn moved_to(
    alloc: Global,
    scope: Scope,
    name: &Bytes,
    object: &Object,
    path: Path,
) -> Result<Directed, AllocError>
    ensures said { IfOk result (λ directed. said directed ≡ moved_to scope name.now object.now path) }
    ensures elements { IfOk result GivesElements }
{
    if let Object::Layer(_) = object {
        return Ok(Directed::Faults(ListFault::RootCannotMove));
    }
    let mut args = args_on(alloc, copied_path(alloc, object)?);
    args.new_path = path;
    opened_call(name_in(scope, name)?, DirKind::MoveTo, object, args)
}

pub(crate) fn remove(
    operands: &mut Operands<'_>,
    alloc: Global,
    scope: Scope,
    name: &Bytes,
    object: &Object,
) -> Result<Directed, StackFault>
    ensures said { LooksUnlessFull said result (on_path scope name.now DirKind.Remove Awaits.DirectoryDone object.now) operands.old operands.new }
    ensures elements { IfOk result GivesElements }
{
    on_path(
        operands,
        alloc,
        scope,
        name,
        DirKind::Remove,
        Awaits::DirectoryDone,
        object,
    )
}

pub(crate) fn remove_if_exists(
    operands: &mut Operands<'_>,
    alloc: Global,
    scope: Scope,
    name: &Bytes,
    object: &Object,
) -> Result<Directed, StackFault>
    ensures said { LooksUnlessFull said result (on_path scope name.now DirKind.RemoveIfExists Awaits.DirectoryDone object.now) operands.old operands.new }
    ensures elements { IfOk result GivesElements }
{
    on_path(
        operands,
        alloc,
        scope,
        name,
        DirKind::RemoveIfExists,
        Awaits::DirectoryDone,
        object,
    )
}

pub(crate) fn list(
    operands: &mut Operands<'_>,
    alloc: Global,
    scope: Scope,
    name: &Bytes,
    object: &Object,
) -> Result<Directed, StackFault>
    ensures said { LooksUnlessFull said result (on_path scope name.now DirKind.List Awaits.Names object.now) operands.old operands.new }
    ensures elements { IfOk result GivesElements }
{
    on_path(
        operands,
        alloc,
        scope,
        name,
        DirKind::List,
        Awaits::Names,
        object,
    )
}

pub(crate) fn exists(
    operands: &mut Operands<'_>,
    alloc: Global,
    scope: Scope,
    name: &Bytes,
    object: &Object,
) -> Result<Directed, StackFault>
    ensures said { LooksUnlessFull said result (on_path scope name.now DirKind.Exists Awaits.Existence object.now) operands.old operands.new }
    ensures elements { IfOk result GivesElements }
{
    on_path(
        operands,
        alloc,
        scope,
        name,
        DirKind::Exists,
        Awaits::Existence,
        object,
    )
}

// A call on the current object, or on the path below it that is given, whose reply is used so.
fn on_path(
    operands: &mut Operands<'_>,
    alloc: Global,
    scope: Scope,
    name: &Bytes,
    kind: DirKind,
    awaits: Awaits,
    object: &Object,
) -> Result<Directed, StackFault>
    ensures said { LooksUnlessFull said result (on_path scope name.now kind awaits object.now) operands.old operands.new }
    ensures elements { IfOk result GivesElements }
{
    let path = path_if_given(operands, alloc)?;
    let mut args = args_on(alloc, below(alloc, object, &path)?);
    args.snapshot = is_snapshot(scope);
    Ok(layer_call(name_in(scope, name)?, kind, awaits, object, args)?)
}

pub(crate) fn log_directory(
    operands: &mut Operands<'_>,
    alloc: Global,
    name: &Bytes,
    directories: &Directories,
) -> Result<Directed, StackFault>
    ensures said { LooksUnlessFull said result (log_directory name.now directories.now) operands.old operands.new }
    ensures elements { IfOk result GivesElements }
{
    let raw = operands.copied_bytes()?;
    let null = Object::Null;
    let object = directories.current_or(&null);
    Ok(log_call(alloc, name, object, raw, directories.index() as u64)?)
}

// A call that notes the directory of an object behind these bytes, with its index.
fn log_call(
    alloc: Global,
    name: &Bytes,
    object: &Object,
    raw: Bytes,
    index: u64,
) -> Result<Directed, AllocError>
    ensures said { IfOk result (λ directed. said directed ≡ layer_called (Some name.now) DirKind.Log (λ layer. Awaits.DirectoryDone) object.now
        (record (args_on (path_of object.now)) { layer = Some (layer_name_of object.now); raw = raw; index = index })) }
    ensures elements { IfOk result GivesElements }
{
    let args = logging_args(alloc, object, raw, index)?;
    let name = Some(name.copy()?);
    layer_call(name, DirKind::Log, Awaits::DirectoryDone, object, args)
}

// What a call is about that notes the directory of an object behind these bytes, with its index.
fn logging_args(
    alloc: Global,
    object: &Object,
    raw: Bytes,
    index: u64,
) -> Result<DirArgs, AllocError>
    ensures { IfOk result (λ args. args
        ≡ record (args_on (path_of object.now)) { layer = Some (layer_name_of object.now); raw = raw; index = index }) }
{
    Ok(DirArgs {
        path: copied_path(alloc, object)?,
        new_path: Path::new(alloc),
        layer: Some(Bytes::from_slice(alloc, layer_name_of(object))?),
        prefix: None,
        snapshot: false,
        raw,
        index,
    })
}

// Whether open, list and exists read by snapshot.
fn is_snapshot(scope: Scope) -> bool
    ensures { result ≡ is_snapshot scope }
{
    matches!(scope, Scope::Snapshot)
}

// The name under which a call is made in this scope, where this is the current one.
fn name_in(scope: Scope, name: &Bytes) -> Result<Option<Bytes>, AllocError>
    ensures { IfOk result (λ within. within ≡ name_in scope name.now) }
{
    match scope {
        Scope::Transaction | Scope::Snapshot => Ok(Some(name.copy()?)),
        Scope::Database => Ok(None),
    }
}

// What a call on this path is about.
fn args_on(alloc: Global, path: Path) -> DirArgs
    ensures { result ≡ args_on path }
{
    DirArgs {
        path,
        new_path: Path::new(alloc),
        layer: None,
        prefix: None,
        snapshot: false,
        raw: Bytes::new(alloc),
        index: 0,
    }
}

// A call of the layer of an object that opens a directory.
fn opened_call(
    name: Option<Bytes>,
    kind: DirKind,
    object: &Object,
    args: DirArgs,
) -> Result<Directed, AllocError>
    ensures said { IfOk result (λ directed. said directed ≡ layer_called name kind Opened object.now args) }
    ensures elements { IfOk result GivesElements }
{
    let Some(layer) = layer_of(object) else {
        return Ok(Directed::Faults(ListFault::NotADirectory));
    };
    let awaits = Awaits::Opened {
        layer: boxed_copy(layer)?,
    };
    let request = request_of(layer, name, kind, args)?;
    Ok(Directed::Asks(request, awaits))
}

// A call of the layer of an object, whose reply is used so.
fn layer_call(
    name: Option<Bytes>,
    kind: DirKind,
    awaits: Awaits,
    object: &Object,
    args: DirArgs,
) -> Result<Directed, AllocError>
    ensures said { IfOk result (λ directed. said directed ≡ layer_called name kind (λ layer. awaits) object.now args) }
    ensures elements { IfOk result GivesElements }
{
    let Some(layer) = layer_of(object) else {
        return Ok(Directed::Faults(ListFault::NotADirectory));
    };
    let request = request_of(layer, name, kind, args)?;
    Ok(Directed::Asks(request, awaits))
}

// The request that makes a call of a layer.
fn request_of(
    layer: &Layer,
    name: Option<Bytes>,
    kind: DirKind,
    args: DirArgs,
) -> Result<Request, AllocError>
    ensures { IfOk result (λ request. request ≡ Request.Directory name layer.now kind args) }
{
    let args = Boxed::new(layer.node.allocator(), args)?;
    Ok(Request::Directory {
        name,
        layer: boxed_copy(layer)?,
        kind,
        args,
    })
}

// A copy of a layer in a block of its own.
fn boxed_copy(layer: &Layer) -> Result<Boxed<Layer>, AllocError>
    ensures { IfOk result (λ copy. copy ≡ layer.now) }
{
    Boxed::new(layer.node.allocator(), copy_of(layer)?)
}
