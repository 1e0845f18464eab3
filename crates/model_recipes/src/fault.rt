//! Why a call of a layer was refused.

ghost use Rattle.std.specs.Prelude.{◌≡◌};
ghost use Rattle.model_recipes.specs.declared.fault.RecipeFault.TheVariants as fault;
ghost use Rattle.model_recipes.specs.Faults.{fault_of};

use fdb_calls::TrFault;
use key_bytes::Key;
use model_database::Code;
use std::alloc::{AllocError, AllocFailed};
use thiserror::Error;

/// Why a call of a layer was refused.
#[derive(Debug, Drop, Error)]
pub enum RecipeFault {
    /// This key of the subspace, or its value, hasn't the form that the layer gives it.
    #[error("a key or its value has another form")]
    BadKey { key: Key },
    /// The queue's last index, the count or the length is the greatest.
    #[error("there is no greater index")]
    IndexEnd,
    /// The place lies behind the end of the byte string, which has so many bytes.
    #[error("the byte string ends at {size}")]
    PastEnd { size: u64 },
    /// A read or a write was refused with this code (API reference, "Error Codes").
    #[error("a check failed with code {}", .0.0)]
    Tr(Code),
    /// Memory ran out.
    #[error("out of memory")]
    NoMemory,
}

impl From<AllocError> for RecipeFault {
    ghost from_gives = { λ _ e. e ≡ fault.NoMemory };

    fn from(_e: AllocError) -> RecipeFault {
        RecipeFault::NoMemory
    }
}

impl<T: Drop> From<AllocFailed<T>> for RecipeFault {
    ghost from_gives = { λ _ e. e ≡ fault.NoMemory };

    fn from(_e: AllocFailed<T>) -> RecipeFault {
        RecipeFault::NoMemory
    }
}

impl From<TrFault> for RecipeFault {
    ghost from_gives = { λ fault result. result ≡ fault_of fault };

    fn from(fault: TrFault) -> RecipeFault {
        match fault {
            TrFault::Code(code) => RecipeFault::Tr(code),
            TrFault::NoMemory => RecipeFault::NoMemory,
        }
    }
}
