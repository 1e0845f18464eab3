//! What a line asks.

use crate::recipe::Recipe;
use key_bytes::{Bytes, Key, KeyRange};

/// A command of the shell.
#[derive(Debug, Drop)]
pub enum Command {
    /// Begins a transaction.
    Begin,
    /// Commits the transaction, and ends it.
    Commit,
    /// Begins the transaction anew.
    Reset,
    /// Reads the value of a key.
    Get { key: Key },
    /// Reads the pairs of a range, so many at most.
    GetRange { range: KeyRange, limit: u32 },
    /// Writes a value under a key.
    Set { key: Key, value: Bytes },
    /// Clears a key.
    Clear { key: Key },
    /// Clears the keys of a range.
    ClearRange { range: KeyRange },
    /// Makes a call of a layer.
    Recipe { recipe: Recipe },
}
