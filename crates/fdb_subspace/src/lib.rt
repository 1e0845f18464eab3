//! Subspaces: a raw prefix before packed tuples (the tuple layer's documentation; API reference, "Subspaces").
//!
//! A key of a subspace is its prefix followed by the spelling of a tuple. `pack` makes such a key, `unpack` reads the
//! tuple behind the prefix, and refuses every other byte string by its cause. `packed_behind` and `range_behind` do it for a prefix
//! that is lent.
#![tactic(auto)]

mod behind;
mod fault;
mod subspace;

pub use behind::{packed_behind, range_behind};
pub use fault::SubFault;
pub use subspace::Subspace;
