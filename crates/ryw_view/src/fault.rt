//! Why a key was not read.

ghost use Rattle.std.specs.Prelude.{◌≡◌};
ghost use Rattle.ryw_view.specs.declared.fault.ViewFault.TheVariants as fault;

use std::alloc::AllocError;
use thiserror::Error;

/// Why a key was not read.
#[derive(Clone, Copy, Debug, PartialEq, Eq, Error)]
pub enum ViewFault {
    /// A mutation with a versionstamp makes the key unreadable: what it has is not known until the commit (API reference
    /// of release 6.3, "fdb_transaction_atomic_op").
    #[error("the key has a versionstamp that is not known yet")]
    Unreadable,
    /// Memory ran out.
    #[error("out of memory")]
    NoMemory,
}

impl From<AllocError> for ViewFault {
    ghost from_gives = { λ _ e. e ≡ fault.NoMemory };

    fn from(_e: AllocError) -> ViewFault {
        ViewFault::NoMemory
    }
}
