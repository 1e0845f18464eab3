//! Why an operation on the stack was refused.

ghost use Rattle.std.specs.Prelude.{◌≡◌};
ghost use Rattle.stack_items.specs.declared.fault.StackFault.TheVariants.{NoMemory};

use std::alloc::{AllocError, AllocFailed};
use thiserror::Error;

/// Why an operation on the stack was refused.
#[derive(Clone, Copy, Debug, PartialEq, Eq, Error)]
pub enum StackFault {
    /// The stack has no item where the operation pops, copies or swaps one.
    #[error("the stack has no item")]
    Underflow,
    /// An operand, a difference, a packed text or an unpacked text is of a kind or range that the operation doesn't take.
    #[error("an operand is of a wrong kind or range")]
    Operand,
    /// The item that is to be popped waits for the versionstamp of the commit of this life. All items of the stack stay.
    #[error("an item waits for the versionstamp of a commit")]
    Waits { life: u64 },
    /// Memory ran out.
    #[error("out of memory")]
    NoMemory,
}

impl From<AllocError> for StackFault {
    ghost from_gives = { λ _ e. e ≡ NoMemory };

    fn from(_e: AllocError) -> StackFault {
        StackFault::NoMemory
    }
}

impl<T: Drop> From<AllocFailed<T>> for StackFault {
    ghost from_gives = { λ _ e. e ≡ NoMemory };

    fn from(_e: AllocFailed<T>) -> StackFault {
        StackFault::NoMemory
    }
}
