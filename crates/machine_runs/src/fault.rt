//! Why the order of a replay can't be followed.

ghost use Rattle.std.specs.Prelude.{◌≡◌};
ghost use Rattle.machine_runs.specs.declared.fault.OrderFault.TheVariants.{NoMemory};

use std::alloc::{AllocError, AllocFailed};
use thiserror::Error;

/// Why the order of a replay can't be followed. Places of the order are counted from 1.
#[derive(Clone, Copy, Debug, PartialEq, Eq, Error)]
pub enum OrderFault {
    /// The machine that the order names at this place has no request there.
    #[error("order place {place}: machine {machine} has no request")]
    NoRequest { place: u64, machine: u16 },
    /// A machine has a request where the order ends.
    #[error("order ends early")]
    EndsEarly,
    /// Memory ran out.
    #[error("no memory")]
    NoMemory,
}

impl From<AllocError> for OrderFault {
    ghost from_gives = { λ _ e. e ≡ NoMemory };

    fn from(_e: AllocError) -> OrderFault {
        OrderFault::NoMemory
    }
}

impl<T: Drop> From<AllocFailed<T>> for OrderFault {
    ghost from_gives = { λ _ e. e ≡ NoMemory };

    fn from(_e: AllocFailed<T>) -> OrderFault {
        OrderFault::NoMemory
    }
}
