//! Options: what a database is opened with, and how a range is read.

ghost use Rattle.std.specs.Prelude.{◌≡◌, ◌≤◌};
ghost use Rattle.model_database.specs.Histories.{lowest};

use crate::Api;
use crate::mode::Mode;

/// What a database is opened with. It stays the same for all transactions.
#[derive(Clone, Copy, Debug, PartialEq, Eq)]
pub struct DatabaseOptions {
    /// The version of the API, by which names of atomic operations are read.
    pub api: Api,
    /// How many versions before the last one can still be read; `None` is all of them.
    pub window: Option<u32>,
}

impl DatabaseOptions {
    /// Returns the lowest version that can be read, where `last` is the last one.
    pub fn lowest(self, last: u64) -> u64
        ensures value { result ≡ lowest self last }
        ensures inside { result ≤ last }
    {
        match self.window {
            Some(window) => last.saturating_sub(window as u64),
            None => 0,
        }
    }
}

/// How a range is read: up to which limit, in which order, and in which streaming mode (API reference of release 6.3,
/// "fdb_transaction_get_range"). The reference lists the three as arguments of the call; here they travel as one value.
#[derive(Clone, Copy, Debug, PartialEq, Eq)]
pub struct RangeOptions {
    /// How many pairs are wanted at most; 0 is no limit.
    pub limit: u32,
    /// Whether the pairs with the greatest keys come first.
    pub reverse: bool,
    /// How many pairs are wanted at a time. `Exact` wants a limit above 0.
    pub mode: Mode,
}
