//! Why pairs could not be taken apart.

ghost use Rattle.std.specs.Prelude.{◌≡◌};
ghost use Rattle.instr_text.specs.declared.fault.DisFault.TheVariants.{NoMemory};

use std::alloc::{AllocError, AllocFailed};
use thiserror::Error;

/// The first fault of pairs that are taken apart. Pairs are counted from 1, as the lines are in which they are read.
#[derive(Clone, Copy, Debug, PartialEq, Eq, Error)]
pub enum DisFault {
    /// The pair of this line can't follow those before it in the pairs of any text.
    #[error("line {line}: not an instruction")]
    NotInstruction { line: u32 },
    /// Memory ran out.
    #[error("no memory")]
    NoMemory,
}

impl From<AllocError> for DisFault {
    ghost from_gives = { λ _ e. e ≡ NoMemory };

    fn from(_e: AllocError) -> DisFault {
        DisFault::NoMemory
    }
}

impl<T: Drop> From<AllocFailed<T>> for DisFault {
    ghost from_gives = { λ _ e. e ≡ NoMemory };

    fn from(_e: AllocFailed<T>) -> DisFault {
        DisFault::NoMemory
    }
}
