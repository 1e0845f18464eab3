//! Why a call on a transaction was refused.

ghost use Rattle.std.specs.Prelude.{◌≡◌};
ghost use Rattle.fdb_calls.specs.declared.fault.TrFault.TheVariants as fault;

use model_database::Code;
use std::alloc::{AllocError, AllocFailed};
use thiserror::Error;

/// Why a call on a transaction was refused.
#[derive(Clone, Copy, Debug, PartialEq, Eq, Error)]
pub enum TrFault {
    /// The first check that failed has this code (API reference, "Error Codes").
    #[error("a check failed with code {}", .0.0)]
    Code(Code),
    /// Memory ran out.
    #[error("out of memory")]
    NoMemory,
}

impl From<AllocError> for TrFault {
    ghost from_gives = { λ _ e. e ≡ fault.NoMemory };

    fn from(_e: AllocError) -> TrFault {
        TrFault::NoMemory
    }
}

impl<T: Drop> From<AllocFailed<T>> for TrFault {
    ghost from_gives = { λ _ e. e ≡ fault.NoMemory };

    fn from(_e: AllocFailed<T>) -> TrFault {
        TrFault::NoMemory
    }
}
