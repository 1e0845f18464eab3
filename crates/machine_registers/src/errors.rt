//! The errors that a machine notes.

ghost use Rattle.std.specs.Prelude.{◌≡◌, ◌∷◌, [], ◌++◌, codes, IfOk, OnOk};
ghost use Rattle.fdb_tuple.specs.Tuples.{Empty, Single};
ghost use Rattle.fdb_tuple.specs.Tuples as scalar;
ghost use Rattle.fdb_tuple.specs.Listed.{elements_of};
ghost use Rattle.model_machine.specs.Machines.{error_item};

use fdb_tuple::{Elem, PushFault, Tuple, pack};
use key_bytes::Bytes;
use lists::List;
use model_machine::ErrorNote;
use stack_directories::digits_of;
use std::alloc::{AllocError, Global};

/// The errors that a machine noted, in the order in which they arose.
pub type Errors = List<ErrorNote>;

/// Makes the item that tells of a code.
pub fn error_item(alloc: Global, code: u16) -> Result<Elem, AllocError>
    ensures { IfOk result (λ item. item ≡ error_item code) }
{
    let tuple = error_tuple(alloc, digits_of(alloc, code)?)?;
    Ok(Elem::Bytes(pack(alloc, &tuple)?))
}

fn error_tuple(alloc: Global, digits: Bytes) -> Result<Tuple, AllocError>
    ensures { IfOk result (λ tuple. tuple ≡ Single (scalar.Bytes (codes "ERROR")) (Single (scalar.Bytes digits) Empty)) }
{
    let mut tuple = Tuple::new(alloc);
    add(&mut tuple, Bytes::from_slice(alloc, b"ERROR")?)?;
    add(&mut tuple, digits)?;
    Ok(tuple)
}

fn add(tuple: &mut Tuple, bytes: Bytes) -> Result<(), AllocError>
    ensures { OnOk result (elements_of tuple.new ≡ elements_of tuple.old ++ Elem.Bytes bytes ∷ []) }
{
    match tuple.push(Elem::Bytes(bytes)) {
        Ok(()) => Ok(()),
        Err(PushFault::TooDeep | PushFault::NoMemory) => Err(AllocError),
    }
}
