//! Why bytes got no versionstamp.

ghost use Rattle.std.specs.Prelude.{◌≡◌};
ghost use Rattle.atomic_ops.specs.declared.fault.StampFault.TheVariants as fault;

use std::alloc::AllocError;
use thiserror::Error;

/// Why bytes got no versionstamp.
#[derive(Clone, Copy, Debug, PartialEq, Eq, Error)]
pub enum StampFault {
    /// The bytes have no room for a versionstamp: they have fewer bytes than the offset at their end, or ten bytes from the
    /// offset on don't lie within what stands before it (API reference of release 6.3, "fdb_transaction_atomic_op").
    #[error("the bytes have no room for a versionstamp")]
    NoRoom,
    /// Memory ran out.
    #[error("out of memory")]
    NoMemory,
}

impl From<AllocError> for StampFault {
    ghost from_gives = { λ _ e. e ≡ fault.NoMemory };

    fn from(_e: AllocError) -> StampFault {
        StampFault::NoMemory
    }
}
