//! What comes next in a tuple.

use fdb_tuple::Elem;

/// What comes next, where an element of a tuple or its end must come.
#[derive(Drop)]
pub enum Part {
    /// The parenthesis that closes the tuple.
    Ends,
    /// A nested tuple begins.
    Opens,
    /// An element that is no tuple.
    Holds(Elem),
}
