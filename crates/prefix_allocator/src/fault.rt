//! Why no number was granted.

ghost use Rattle.std.specs.Prelude.{◌≡◌};
ghost use Rattle.prefix_allocator.specs.Faults.{fault_of};
ghost use Rattle.prefix_allocator.specs.declared.fault.AllocFault.TheVariants as fault;

use fdb_calls::TrFault;
use key_bytes::Key;
use model_database::Code;
use std::alloc::{AllocError, AllocFailed};
use thiserror::Error;

/// Why no number was granted.
#[derive(Debug, Drop, Error)]
pub enum AllocFault {
    /// Every number of the window that begins here is present among the numbers that were tried.
    #[error("every number of the window that begins at {start} is taken")]
    WindowFull { start: u64 },
    /// The greatest key of the counters isn't that of one integer from 0 to 2^62.
    #[error("a key of the counters is none of a counter")]
    BadCounter { key: Key },
    /// A read or a write was refused with this code (API reference, "Error Codes").
    #[error("a check failed with code {}", .0.0)]
    Tr(Code),
    /// Memory ran out.
    #[error("out of memory")]
    NoMemory,
}

impl From<AllocError> for AllocFault {
    ghost from_gives = { λ _ e. e ≡ fault.NoMemory };

    fn from(_e: AllocError) -> AllocFault {
        AllocFault::NoMemory
    }
}

impl From<TrFault> for AllocFault {
    ghost from_gives = { λ fault result. result ≡ fault_of fault };

    fn from(fault: TrFault) -> AllocFault {
        match fault {
            TrFault::Code(code) => AllocFault::Tr(code),
            TrFault::NoMemory => AllocFault::NoMemory,
        }
    }
}
