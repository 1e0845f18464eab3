//! Why words are no command.

ghost use Rattle.std.specs.Prelude.{◌≡◌};
ghost use Rattle.command_words.specs.declared.fault.ArgFault.TheVariants.{NoMemory};

use std::alloc::{AllocError, AllocFailed};
use thiserror::Error;

/// Why the words of the command line were refused.
#[derive(Clone, Copy, Debug, PartialEq, Eq, Error)]
pub enum ArgFault {
    /// The words are no command, or a value isn't in its range.
    #[error("usage")]
    Usage,
    /// Memory ran out.
    #[error("no memory")]
    NoMemory,
}

impl From<AllocError> for ArgFault {
    ghost from_gives = { λ _ e. e ≡ NoMemory };

    fn from(_e: AllocError) -> ArgFault {
        ArgFault::NoMemory
    }
}

impl<T: Drop> From<AllocFailed<T>> for ArgFault {
    ghost from_gives = { λ _ e. e ≡ NoMemory };

    fn from(_e: AllocFailed<T>) -> ArgFault {
        ArgFault::NoMemory
    }
}
