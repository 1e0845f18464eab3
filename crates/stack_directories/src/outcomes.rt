//! What an operation on the directories comes to.

ghost use Rattle.std.specs.Prelude.{◌≡◌};
ghost use Rattle.stack_directories.specs.Directing.{name_of};

use fdb_calls::Request;
use fdb_tuple::Elem;
use model_machine::{Awaits, Object};

/// What an operation on the directories comes to.
#[derive(Debug, Drop)]
pub enum Directed {
    /// An object is appended to the list.
    Appends(Object),
    /// These elements are pushed, one after the other.
    Gives(Vec<Elem>),
    /// The current object is that of this index from then on.
    Chooses(usize),
    /// This index is taken in place of that of a null object from then on.
    FallsTo(usize),
    /// The operation has a fault.
    Faults(ListFault),
    /// A request is asked, whose reply is used so.
    Asks(Request, Awaits),
}

/// Why an operation on the directories comes to nothing, before any layer is asked.
#[derive(Clone, Copy, Debug, PartialEq, Eq)]
pub enum ListFault {
    /// The list has no object of the index.
    NoSuchIndex,
    /// The object is no subspace.
    NotASubspace,
    /// The object can't be asked for directories.
    NotADirectory,
    /// The key doesn't begin with the prefix of the subspace.
    NotInside,
    /// What stands behind the prefix packs no tuple.
    BadTuple,
    /// A layer itself can't be moved.
    RootCannotMove,
}

impl ListFault {
    /// Returns the name that is noted of the fault.
    pub fn name(self) -> &'static [u8]
        ensures { result.now ≡ name_of self }
    {
        match self {
            ListFault::NoSuchIndex => b"NoSuchIndex",
            ListFault::NotASubspace => b"NotASubspace",
            ListFault::NotADirectory => b"NotADirectory",
            ListFault::NotInside => b"NotInside",
            ListFault::BadTuple => b"BadTuple",
            ListFault::RootCannotMove => b"RootCannotMove",
        }
    }
}
