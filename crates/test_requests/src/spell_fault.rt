//! Why a line of a file of requests can't be read.

use std::alloc::{AllocError, AllocFailed};
use thiserror::Error;

/// Why a line of a file of requests can't be read.
#[derive(Debug, Drop, Error)]
pub enum SpellFault {
    #[error("a word spells no bytes")]
    Spelling,
    #[error("a word is no number that may stand there")]
    Number,
    #[error("a word is missing")]
    Missing,
    #[error("a word is unknown")]
    Unknown,
    #[error("out of memory")]
    NoMemory,
}

impl From<AllocError> for SpellFault {
    fn from(_e: AllocError) -> SpellFault {
        SpellFault::NoMemory
    }
}

impl<T: Drop> From<AllocFailed<T>> for SpellFault {
    fn from(_e: AllocFailed<T>) -> SpellFault {
        SpellFault::NoMemory
    }
}
