//! The operations on subspaces (directoryLayerTester.md).

ghost use Rattle.std.specs.Prelude.{◌≡◌, ◌∷◌, [], ◌++◌, pos, IfOk};
ghost use Rattle.key_bytes.specs.Keys.{begins_with};
ghost use Rattle.fdb_tuple.specs.Tuples.{Single, Int, Empty};
ghost use Rattle.fdb_tuple.specs.Listed.{IsElement};
ghost use Rattle.fdb_tuple.specs.Spelling.{spelling};
ghost use Rattle.fdb_tuple.specs.Reading.{read_tuple};
ghost use Rattle.model_machine.specs.Directories.{pack_key, range, open_subspace, unpack_key, strip_prefix, contains, log_subspace, inside, unpacked, behind, one_or_zero, Gives};
ghost use Rattle.stack_items.specs.Looks.{LooksUnlessFull};
ghost use Rattle.stack_directories.specs.Directing.{said, GivesElements};

use crate::directories::Directories;
use crate::objects::prefix_of;
use crate::operands::packed_operand;
use crate::outcomes::{Directed, ListFault};
use fdb_calls::{Request, TxnCall};
use fdb_tuple::{Elem, UnpackFault, pack_element_into, unpack};
use key_bytes::{Bytes, Key};
use model_machine::{Awaits, Object};
use stack_items::{Operands, StackFault};
use std::alloc::{AllocError, Global};

pub(crate) fn pack_key(
    operands: &mut Operands<'_>,
    alloc: Global,
    object: &Object,
) -> Result<Directed, StackFault>
    ensures said { LooksUnlessFull said result (pack_key object.now) operands.old operands.new }
    ensures elements { IfOk result GivesElements }
{
    let tuple = packed_operand(operands, alloc)?;
    match prefix_of(object) {
        Some(prefix) => Ok(gives(alloc, Elem::Bytes(joined(prefix, tuple.as_slice())?))?),
        None => Ok(Directed::Faults(ListFault::NotASubspace)),
    }
}

pub(crate) fn range(
    operands: &mut Operands<'_>,
    alloc: Global,
    object: &Object,
) -> Result<Directed, StackFault>
    ensures said { LooksUnlessFull said result (range object.now) operands.old operands.new }
    ensures elements { IfOk result GivesElements }
{
    let tuple = packed_operand(operands, alloc)?;
    match prefix_of(object) {
        Some(prefix) => Ok(ends_of(alloc, joined(prefix, tuple.as_slice())?)?),
        None => Ok(Directed::Faults(ListFault::NotASubspace)),
    }
}

// The two ends of the range of the keys behind this one.
fn ends_of(alloc: Global, key: Key) -> Result<Directed, AllocError>
    ensures said { IfOk result (λ directed. said directed
        ≡ Gives (Elem.Bytes (key ++ 0 ∷ []) ∷ Elem.Bytes (key ++ 255 ∷ []) ∷ [])) }
    ensures elements { IfOk result GivesElements }
{
    let mut begin = key.copy()?;
    let mut end = key;
    begin.extend(&[0x00])?;
    end.extend(&[0xFF])?;
    let mut elements = Vec::new(alloc);
    elements.push(Elem::Bytes(begin))?;
    elements.push(Elem::Bytes(end))?;
    Ok(Directed::Gives(elements))
}

pub(crate) fn open_subspace(
    operands: &mut Operands<'_>,
    alloc: Global,
    object: &Object,
) -> Result<Directed, StackFault>
    ensures said { LooksUnlessFull said result (open_subspace object.now) operands.old operands.new }
    ensures elements { IfOk result GivesElements }
{
    let tuple = packed_operand(operands, alloc)?;
    match prefix_of(object) {
        Some(prefix) => {
            let prefix = joined(prefix, tuple.as_slice())?;
            Ok(Directed::Appends(Object::Subspace { prefix }))
        }
        None => Ok(Directed::Faults(ListFault::NotASubspace)),
    }
}

pub(crate) fn unpack_key(
    operands: &mut Operands<'_>,
    alloc: Global,
    object: &Object,
) -> Result<Directed, StackFault>
    ensures said { LooksUnlessFull said result (unpack_key object.now) operands.old operands.new }
    ensures elements { IfOk result GivesElements }
{
    let key = operands.bytes()?;
    match prefix_of(object) {
        Some(prefix) => Ok(unpacked_inside(alloc, prefix, key)?),
        None => Ok(Directed::Faults(ListFault::NotASubspace)),
    }
}

// The elements of the tuple behind a prefix.
fn unpacked_inside(alloc: Global, prefix: &Bytes, key: &[u8]) -> Result<Directed, AllocError>
    ensures said { IfOk result (λ directed. said directed
        ≡ inside (begins_with key.now prefix.now) (unpacked (read_tuple (behind prefix.now key.now)))) }
    ensures elements { IfOk result GivesElements }
{
    if !key.starts_with(prefix.as_slice()) {
        return Ok(Directed::Faults(ListFault::NotInside));
    }
    unpacked(alloc, &key[prefix.len()..])
}

// The elements of the tuple that these bytes pack.
fn unpacked(alloc: Global, bytes: &[u8]) -> Result<Directed, AllocError>
    ensures said { IfOk result (λ directed. said directed ≡ unpacked (read_tuple bytes.now)) }
    ensures elements { IfOk result GivesElements }
{
    match unpack(alloc, bytes) {
        Ok(tuple) => Ok(Directed::Gives(tuple.into_vec())),
        Err(UnpackFault::NoMemory) => Err(AllocError),
        Err(_) => Ok(Directed::Faults(ListFault::BadTuple)),
    }
}

pub(crate) fn strip_prefix(
    operands: &mut Operands<'_>,
    alloc: Global,
    object: &Object,
) -> Result<Directed, StackFault>
    ensures said { LooksUnlessFull said result (strip_prefix object.now) operands.old operands.new }
    ensures elements { IfOk result GivesElements }
{
    let key = operands.bytes()?;
    match prefix_of(object) {
        Some(prefix) => Ok(stripped(alloc, prefix, key)?),
        None => Ok(Directed::Faults(ListFault::NotASubspace)),
    }
}

// The bytes behind a prefix.
fn stripped(alloc: Global, prefix: &Bytes, key: &[u8]) -> Result<Directed, AllocError>
    ensures said { IfOk result (λ directed. said directed
        ≡ inside (begins_with key.now prefix.now) (Gives (Elem.Bytes (behind prefix.now key.now) ∷ []))) }
    ensures elements { IfOk result GivesElements }
{
    if !key.starts_with(prefix.as_slice()) {
        return Ok(Directed::Faults(ListFault::NotInside));
    }
    let rest = Bytes::from_slice(alloc, &key[prefix.len()..])?;
    gives(alloc, Elem::Bytes(rest))
}

pub(crate) fn contains(
    operands: &mut Operands<'_>,
    alloc: Global,
    object: &Object,
) -> Result<Directed, StackFault>
    ensures said { LooksUnlessFull said result (contains object.now) operands.old operands.new }
    ensures elements { IfOk result GivesElements }
{
    let key = operands.bytes()?;
    match prefix_of(object) {
        Some(prefix) => {
            let is_inside = key.starts_with(prefix.as_slice());
            Ok(gives(alloc, Elem::Int(i128::from(is_inside)))?)
        }
        None => Ok(Directed::Faults(ListFault::NotASubspace)),
    }
}

pub(crate) fn log_subspace(
    operands: &mut Operands<'_>,
    alloc: Global,
    name: &Bytes,
    directories: &Directories,
) -> Result<Directed, StackFault>
    ensures said { LooksUnlessFull said result (log_subspace name.now directories.now) operands.old operands.new }
    ensures elements { IfOk result GivesElements }
{
    let key = operands.bytes()?;
    let null = Object::Null;
    match prefix_of(directories.current_or(&null)) {
        Some(prefix) => {
            let call = TxnCall::Set {
                key: numbered(alloc, key, directories.index())?,
                value: prefix.copy()?,
            };
            let request = Request::On {
                name: name.copy()?,
                call,
            };
            Ok(Directed::Asks(request, Awaits::SubspaceLogged))
        }
        None => Ok(Directed::Faults(ListFault::NotASubspace)),
    }
}

// A key behind these bytes: a packed number.
fn numbered(alloc: Global, front: &[u8], number: usize) -> Result<Key, AllocError>
    ensures { IfOk result (λ key. key ≡ front.now ++ spelling (Single (Int (pos number)) Empty)) }
{
    let mut key = Vec::from_slice(alloc, front)?;
    pack_element_into(&mut key, &Elem::Int(number as i128))?;
    Bytes::from_vec(key)
}

// Bytes behind a prefix.
fn joined(prefix: &Bytes, behind: &[u8]) -> Result<Bytes, AllocError>
    ensures { IfOk result (λ whole. whole ≡ prefix.now ++ behind.now) }
{
    let mut whole = prefix.copy()?;
    whole.extend(behind)?;
    Ok(whole)
}

// One element is pushed.
fn gives(alloc: Global, element: Elem) -> Result<Directed, AllocError>
    requires { IsElement element }
    ensures said { IfOk result (λ directed. said directed ≡ Gives (element ∷ [])) }
    ensures elements { IfOk result GivesElements }
{
    let mut elements = Vec::new(alloc);
    elements.push(element)?;
    Ok(Directed::Gives(elements))
}
