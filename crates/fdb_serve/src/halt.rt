//! Why serving ends before its requests do.

ghost use Rattle.std.specs.Prelude.{◌≡◌};
ghost use Rattle.fdb_serve.specs.declared.halt.Halt.TheVariants as halt;

use std::alloc::{AllocError, AllocFailed};

/// What is wrong with a frame.
#[derive(Clone, Copy, Debug, PartialEq, Eq)]
pub enum Flaw {
    /// Its bytes are no request of a client.
    NoRequest,
    /// It has more bytes than a request may have.
    TooLong,
    /// The source ends within it.
    CutShort,
}

/// Why serving ends before its requests do.
#[derive(Clone, Copy, Debug, PartialEq, Eq)]
pub enum Halt {
    /// The source failed.
    Read,
    /// The sink failed.
    Write,
    /// The next frame is bad.
    Bad(Flaw),
    /// Memory ran out.
    NoMemory,
}

/// Why serving ended, and the number of the next frame, counted from 1.
#[derive(Clone, Copy, Debug)]
pub struct Stopped {
    pub halt: Halt,
    pub number: u64,
}

impl From<AllocError> for Halt {
    ghost from_gives = { λ _ e. e ≡ halt.NoMemory };

    fn from(_e: AllocError) -> Halt {
        Halt::NoMemory
    }
}

impl<T: Drop> From<AllocFailed<T>> for Halt {
    ghost from_gives = { λ _ e. e ≡ halt.NoMemory };

    fn from(_e: AllocFailed<T>) -> Halt {
        Halt::NoMemory
    }
}
