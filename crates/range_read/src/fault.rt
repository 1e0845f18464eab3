//! Why a range was not read.

ghost use Rattle.std.specs.Prelude.{◌≡◌};
ghost use Rattle.range_read.specs.declared.fault.RangeFault.TheVariants as fault;

use std::alloc::AllocError;
use thiserror::Error;

/// Why a range was not read.
#[derive(Clone, Copy, Debug, PartialEq, Eq, Error)]
pub enum RangeFault {
    /// The mode `Exact` wants a limit, and there was none (API reference of release 6.3,
    /// "fdb_transaction_get_range").
    #[error("an exact read of a range has no limit")]
    NoLimit,
    /// Memory ran out.
    #[error("out of memory")]
    NoMemory,
}

impl From<AllocError> for RangeFault {
    ghost from_gives = { λ _ e. e ≡ fault.NoMemory };

    fn from(_e: AllocError) -> RangeFault {
        RangeFault::NoMemory
    }
}
