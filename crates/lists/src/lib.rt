//! A list that contracts see as a list: a vector behind a type of this project's own, for lists that keep no other
//! promise.
#![tactic(auto)]

mod list;

pub use list::List;
