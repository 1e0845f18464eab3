//! The operands of the operations on directories.

ghost use Rattle.std.specs.Prelude.{◌≡◌};
ghost use Rattle.model_machine.specs.Operands.{operand_by, operands_by, tuple_operand};
ghost use Rattle.model_machine.specs.Directories.{text_of, path_operand, name_operand, given_in, given_of, path_where, path_if_given};
ghost use Rattle.stack_items.specs.Looks.{Looks, LooksUnlessFull};
ghost use Rattle.stack_directories.specs.Directing.{LooksPacked, counted_tuple};

use directory_types::Path;
use fdb_tuple::{Elem, Text, pack_element_into};
use key_bytes::Bytes;
use stack_items::{Operands, StackFault};
use std::alloc::Global;

// A Unicode string.
fn text<'a>(operands: &mut Operands<'a>) -> Result<&'a Text, StackFault>
    ensures { Looks (λ text. text.now) result (λ stack. operand_by text_of stack) operands.old operands.new }
{
    match operands.element()? {
        Elem::Text(text) => Ok(text),
        _ => Err(StackFault::Operand),
    }
}

// A path: a count, and then so many Unicode strings.
pub(crate) fn path_operand(operands: &mut Operands<'_>, alloc: Global) -> Result<Path, StackFault>
    ensures { LooksUnlessFull (λ path. path) result path_operand operands.old operands.new }
{
    let count = operands.count()?;
    names(operands, alloc, count)
}

// So many Unicode strings, as the names of a path.
fn names(operands: &mut Operands<'_>, alloc: Global, count: u128) -> Result<Path, StackFault>
    ensures { LooksUnlessFull (λ path. path) result (operands_by (λ stack. operand_by text_of stack) count) operands.old operands.new }
{
    let mut path = Path::new(alloc);
    for _seen in 0..count {
        let name = text(operands)?;
        path.push(name.copy()?)?;
    }
    Ok(path)
}

// A byte string, or null.
pub(crate) fn name_operand(operands: &mut Operands<'_>) -> Result<Option<Bytes>, StackFault>
    ensures { LooksUnlessFull (λ name. name) result name_operand operands.old operands.new }
{
    match operands.element()? {
        Elem::Null => Ok(None),
        Elem::Bytes(bytes) => Ok(Some(bytes.copy()?)),
        Elem::Text(text) => Ok(Some(text.copy()?.into_bytes())),
        _ => Err(StackFault::Operand),
    }
}

// A path where 1 stands before it, and else the empty one.
pub(crate) fn path_if_given(operands: &mut Operands<'_>, alloc: Global) -> Result<Path, StackFault>
    ensures { LooksUnlessFull (λ path. path) result path_if_given operands.old operands.new }
{
    let given = given(operands)?;
    path_where(operands, alloc, given)
}

fn path_where(operands: &mut Operands<'_>, alloc: Global, given: bool) -> Result<Path, StackFault>
    ensures { LooksUnlessFull (λ path. path) result (path_where given) operands.old operands.new }
{
    if given {
        path_operand(operands, alloc)
    } else {
        Ok(Path::new(alloc))
    }
}

// 1 or 0: whether a path stands behind it.
fn given(operands: &mut Operands<'_>) -> Result<bool, StackFault>
    ensures { Looks (λ given. given) result (λ stack. operand_by given_of stack) operands.old operands.new }
{
    given_of(operands.element()?).ok_or(StackFault::Operand)
}

fn given_of(element: &Elem) -> Option<bool>
    ensures { result ≡ given_of element.now }
{
    match element {
        Elem::Int(number) => given_in(*number),
        _ => None,
    }
}

fn given_in(number: i128) -> Option<bool>
    ensures { result ≡ given_in number }
{
    match (number.is_negative(), number.unsigned_abs()) {
        (false, 0) => Some(false),
        (false, 1) => Some(true),
        _ => None,
    }
}

// A tuple, by its packed bytes.
pub(crate) fn packed_operand(
    operands: &mut Operands<'_>,
    alloc: Global,
) -> Result<Bytes, StackFault>
    ensures { LooksPacked result tuple_operand operands.old operands.new }
{
    let count = operands.count()?;
    packed_elements(operands, alloc, count)
}

// So many elements, by their packed bytes.
fn packed_elements(
    operands: &mut Operands<'_>,
    alloc: Global,
    count: u128,
) -> Result<Bytes, StackFault>
    ensures { LooksPacked result (counted_tuple count) operands.old operands.new }
{
    let mut packed = Vec::new(alloc);
    for _seen in 0..count {
        pack_element_into(&mut packed, operands.element()?)?;
    }
    Ok(Bytes::from_vec(packed)?)
}
