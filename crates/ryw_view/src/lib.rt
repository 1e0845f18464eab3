//! The view of a transaction: what its reads see of a database of which nothing was copied.
//!
//! A `View` is the pending mutations of a transaction beside a store and a version. It shows the database at that
//! version after the mutations, those with a versionstamp left out, without the keys that these make unreadable (`seen`
//! of `model_database`). `get` answers the value of a key, and tells an unreadable key from one without a value. As an
//! `OrderedView` it answers the pair from a key on, or below a key, so the reads of `range_read` are read of it.
//!
//! `add_undecided` says which keys of a range are the read conflict range of a read of it: those that the mutations leave
//! undecided. It and `hides` say whether the range can be read at all.
//!
//! The database that it shows is never built. All keys between two boundaries of the mutations have one state, so a walk asks the
//! mutations once for each boundary on its way: a segment has its own value, or none, or what the store has there. A `NearView`
//! remembers the untouched keys at the near end of a walk, so that a step among them asks the store alone.
#![tactic(auto)]

mod applying;
mod fault;
mod near;
mod stored;
mod undecided;
mod view;
mod walking;

pub use applying::applied;
pub use fault::ViewFault;
pub use near::NearView;
pub use undecided::{add_undecided, around_below, hides};
pub use view::View;
