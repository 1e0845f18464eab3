//! Why a version can't be read.

use thiserror::Error;

/// Why a version can't be read.
#[derive(Clone, Copy, Debug, PartialEq, Eq, Error)]
pub enum VersionFault {
    /// The version is less than the oldest one.
    #[error("the oldest version is {oldest}")]
    TooOld { oldest: u64 },
    /// The version is greater than the last one.
    #[error("the last version is {last}")]
    Future { last: u64 },
}
