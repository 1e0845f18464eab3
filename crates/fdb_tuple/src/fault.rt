//! Why a call on tuples was refused.

ghost use Rattle.std.specs.Prelude.{◌≡◌};
ghost use Rattle.fdb_tuple.specs.declared.fault.PushFault.TheVariants as push;
ghost use Rattle.fdb_tuple.specs.declared.fault.UnpackFault.TheVariants as unpack;
ghost use Rattle.fdb_tuple.specs.declared.fault.StampPackFault.TheVariants as stamp;

use std::alloc::{AllocError, AllocFailed};
use thiserror::Error;

/// Why an element was not added to a tuple.
#[derive(Clone, Copy, Debug, PartialEq, Eq, Error)]
pub enum PushFault {
    /// The element is a nested tuple of depth 100.
    #[error("a tuple nested 101 deep")]
    TooDeep,
    /// Memory ran out.
    #[error("out of memory")]
    NoMemory,
}

/// Why `unpack` gave no tuple: the first faulty element from the left. Places count from 0; but for `Truncated` they
/// are those of the element's code.
#[derive(Clone, Copy, Debug, PartialEq, Eq, Error)]
pub enum UnpackFault {
    /// The input ends inside an element or a nested tuple; the place is its length.
    #[error("the packed tuple ends early, at byte {0}")]
    Truncated(usize),
    /// The byte at the place, where an element or the end of a nested tuple must come, is no code.
    #[error("byte {0} is no code of an element")]
    BadCode(usize),
    /// An integer has a leading zero byte of its magnitude, or the long form a length below 9.
    #[error("the integer at byte {0} is not spelled by its least bytes")]
    NotMinimal(usize),
    /// An integer in minimal form is outside 128 bits.
    #[error("the integer at byte {0} has more than 128 bits")]
    TooBig(usize),
    /// A Unicode string is not UTF-8.
    #[error("the string at byte {0} is not UTF-8")]
    BadUtf8(usize),
    /// The nested tuple that begins at the place is the 101st open one.
    #[error("the tuple at byte {0} is nested 101 deep")]
    TooDeep(usize),
    /// Memory ran out.
    #[error("out of memory")]
    NoMemory,
}

/// Why a tuple was not packed with the place of its incomplete versionstamp.
#[derive(Clone, Copy, Debug, PartialEq, Eq, Error)]
pub enum StampPackFault {
    /// The tuple holds no incomplete versionstamp, at any depth.
    #[error("no incomplete versionstamp")]
    NoStamp,
    /// The tuple holds more than one.
    #[error("more than one incomplete versionstamp")]
    ManyStamps,
    /// Memory ran out.
    #[error("out of memory")]
    NoMemory,
}

impl<T: Drop> From<AllocFailed<T>> for PushFault {
    ghost from_gives = { λ _ e. e ≡ push.NoMemory };

    fn from(_e: AllocFailed<T>) -> PushFault {
        PushFault::NoMemory
    }
}

impl From<AllocError> for UnpackFault {
    ghost from_gives = { λ _ e. e ≡ unpack.NoMemory };

    fn from(_e: AllocError) -> UnpackFault {
        UnpackFault::NoMemory
    }
}

impl From<AllocError> for StampPackFault {
    ghost from_gives = { λ _ e. e ≡ stamp.NoMemory };

    fn from(_e: AllocError) -> StampPackFault {
        StampPackFault::NoMemory
    }
}
