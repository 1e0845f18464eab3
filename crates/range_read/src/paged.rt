//! A page of a slice.

use key_bytes::Pairs;

/// The next pairs of a slice, and whether more follow them.
#[derive(Debug, Drop)]
pub struct Page {
    /// The pairs, in the order of the slice.
    pub pairs: Pairs,
    /// Whether the slice has pairs behind these.
    pub more: bool,
}
