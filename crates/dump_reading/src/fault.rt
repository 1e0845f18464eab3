//! Why a printable form could not be read.

ghost use Rattle.std.specs.Prelude.{◌≡◌};
ghost use Rattle.dump_reading.specs.declared.fault.PrintableFault.TheVariants.{NoMemory};

use std::alloc::{AllocError, AllocFailed};
use thiserror::Error;

/// The first fault of a printable form. Places are counted from 0.
#[derive(Clone, Copy, Debug, PartialEq, Eq, Error)]
pub enum PrintableFault {
    /// The byte at this place fits no rule.
    #[error("the byte at {place} fits no rule")]
    Bad { place: usize },
    /// Memory ran out.
    #[error("no memory")]
    NoMemory,
}

impl From<AllocError> for PrintableFault {
    ghost from_gives = { λ _ e. e ≡ NoMemory };

    fn from(_e: AllocError) -> PrintableFault {
        PrintableFault::NoMemory
    }
}

impl<T: Drop> From<AllocFailed<T>> for PrintableFault {
    ghost from_gives = { λ _ e. e ≡ NoMemory };

    fn from(_e: AllocFailed<T>) -> PrintableFault {
        PrintableFault::NoMemory
    }
}
