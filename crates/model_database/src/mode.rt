//! Streaming modes.

/// How many pairs a caller wants at a time (API reference of release 6.3, "fdb_transaction_get_range", streaming modes).
/// How many pairs a page of each mode has is said in `range_read`.
#[derive(Clone, Copy, Debug, PartialEq, Eq)]
pub enum Mode {
    /// Everything is wanted soon: 4,096 pairs a page.
    WantAll,
    /// Pages that grow as the caller goes on: 16 pairs in the first, twice as many in each that follows, up to 4,096.
    Iterator,
    /// Exactly the limit, in one page. There must be a limit.
    Exact,
    /// 16 pairs a page.
    Small,
    /// 128 pairs a page.
    Medium,
    /// 1,024 pairs a page.
    Large,
    /// 4,096 pairs a page.
    Serial,
}
