//! What the mutations make of a key.

use crate::edits::AtomicEdits;

/// What the mutations make of a key (API reference of release 6.3, "Transaction": reads see a transaction's own writes).
#[derive(Clone, Copy)]
pub enum KeyState<'a> {
    /// The key has what is stored.
    Unmodified,
    /// The key has this value, or none, whatever is stored.
    Decided(Option<&'a [u8]>),
    /// The key has what these operations make of what is stored.
    Depends(&'a AtomicEdits),
    /// What the key has isn't known until the commit.
    Unreadable,
}
