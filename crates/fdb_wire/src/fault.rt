//! Why bytes are no request.

ghost use Rattle.std.specs.Prelude.{◌≡◌};
ghost use Rattle.fdb_wire.specs.declared.fault.Unread.TheVariants as unread;
ghost use Rattle.fdb_wire.specs.Faults.{wire_fault};

use fdb_tuple::UnpackFault;
use std::alloc::AllocError;
use thiserror::Error;

/// Why bytes are no request of a client.
#[derive(Clone, Copy, Debug, PartialEq, Eq, Error)]
pub enum WireFault {
    /// They are no packed tuple, by this fault and its place.
    #[error("{0}")]
    NoTuple(UnpackFault),
    /// They pack a tuple that is no request: the element at this place, counted from 0, is wrong, missing or one too many.
    #[error("element {0} is none of a request")]
    NoRequest(usize),
    /// Memory ran out.
    #[error("out of memory")]
    NoMemory,
}

impl From<UnpackFault> for WireFault {
    ghost from_gives = { λ f e. e ≡ wire_fault f };

    fn from(fault: UnpackFault) -> WireFault {
        match fault {
            UnpackFault::NoMemory => WireFault::NoMemory,
            fault => WireFault::NoTuple(fault),
        }
    }
}

/// Why elements were not read.
#[derive(Clone, Copy, Debug, PartialEq, Eq)]
pub enum Unread {
    /// One is wrong, missing or too many; so many are left from its place on.
    Stray(usize),
    /// Memory ran out.
    NoMemory,
}

impl From<AllocError> for Unread {
    ghost from_gives = { λ _ e. e ≡ unread.NoMemory };

    fn from(_e: AllocError) -> Unread {
        Unread::NoMemory
    }
}
