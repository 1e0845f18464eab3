//! What a byte string begins with, where an element of a tuple or its end must come.

use crate::tuple::Elem;

/// What comes next.
#[derive(Debug, Drop)]
pub enum Piece {
    /// The end of the tuple: that of the input at the top, a `00` inside a nested tuple.
    Ends,
    /// A nested tuple begins.
    Opens,
    /// An element that is no tuple, or null.
    Holds(Elem),
}
