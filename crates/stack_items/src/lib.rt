//! The stack of a machine: its items, and the operations on them.
//!
//! Contracts see a `Stack` as the list of its items, the top first; `get` counts from the oldest. What an operand of a
//! kind is, and what each operation leaves, stands in `model_machine` (`specs/Operands.antt`,
//! `specs/StackOperations.antt`): each call here does what is said there, and says what stands after a refusal. Where an
//! operation comes to an operand that waits, all items stay, so that it can be run again once the item is known.
#![tactic(auto)]

mod fault;
mod kinds;
mod logging;
mod operands;
mod operate;
mod operations;
mod popping;
mod stack;
mod tuples;
mod waiting;

pub use fault::StackFault;
pub use kinds::bytes_of;
pub use model_machine::{Item, ItemValue, StackOperation};
pub use operands::Operands;
pub use stack::Stack;
