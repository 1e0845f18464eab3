//! Key selectors.

use key_bytes::Key;

/// A description of a key by its place among the keys: the place of `key`, moved on by `offset` keys (API reference of
/// release 6.3, "Key selectors"). Which key it means is `select` in `specs/Selecting.antt`.
#[derive(Debug, Drop)]
pub struct Selector {
    /// The key that the place is counted from.
    pub key: Key,
    /// Whether a key that equals `key` counts among those that stand before the place.
    pub or_equal: bool,
    /// How many keys to move on, back where it is negative.
    pub offset: i32,
}
