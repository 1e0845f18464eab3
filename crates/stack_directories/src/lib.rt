//! A machine's list of directories, and what comes of the operations on it.
//!
//! `Directories` is the list, and `directed` says what an operation comes to, by its operands on the stack: an object that is
//! appended, elements that are pushed, an index that is set, a fault, or a request to a directory layer. What each operation
//! pops and comes to stands in `model_machine` (`specs/Directories.antt`), and each call here answers what is said there.
#![tactic(auto)]

mod calls;
mod directories;
mod fault_names;
mod indices;
mod objects;
mod operands;
mod operate;
mod outcomes;
mod subspaces;

pub use directories::Directories;
pub use fault_names::{digits_of, fault_name};
pub use objects::directory_of;
pub use operate::directed;
pub use outcomes::{Directed, ListFault};
