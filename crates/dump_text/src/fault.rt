//! Why an input could not be read.

ghost use Rattle.std.specs.Prelude.{◌≡◌};
ghost use Rattle.dump_text.specs.declared.fault.LineFault.TheVariants.{NoMemory};

use std::alloc::{AllocError, AllocFailed};
use thiserror::Error;

/// The first fault of an input. Lines are counted from 1, and places in a line from 0.
#[derive(Clone, Copy, Debug, PartialEq, Eq, Error)]
pub enum LineFault {
    /// The byte at this place of the line fits no rule.
    #[error("line {line}: the byte at {place} fits no rule")]
    BadLine { line: u32, place: u32 },
    /// The line, its key or its value is too long.
    #[error("line {line}: too long")]
    TooLong { line: u32 },
    /// The line passes the size of an input or its number of pairs.
    #[error("line {line}: too many")]
    TooMany { line: u32 },
    /// Memory ran out.
    #[error("no memory")]
    NoMemory,
}

impl From<AllocError> for LineFault {
    ghost from_gives = { λ _ e. e ≡ NoMemory };

    fn from(_e: AllocError) -> LineFault {
        LineFault::NoMemory
    }
}

impl<T: Drop> From<AllocFailed<T>> for LineFault {
    ghost from_gives = { λ _ e. e ≡ NoMemory };

    fn from(_e: AllocFailed<T>) -> LineFault {
        LineFault::NoMemory
    }
}
