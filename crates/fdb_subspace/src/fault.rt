//! Why a key was not unpacked.

use fdb_tuple::UnpackFault;
use thiserror::Error;

/// Why a key of a subspace was not unpacked.
#[derive(Clone, Copy, Debug, PartialEq, Eq, Error)]
pub enum SubFault {
    /// The key doesn't begin with the prefix.
    #[error("the key is not inside the subspace")]
    NotInside,
    /// What follows the prefix packs no tuple; places count from behind the prefix.
    #[error("behind the prefix: {0}")]
    Unpack(UnpackFault),
    /// Memory ran out.
    #[error("out of memory")]
    NoMemory,
}
