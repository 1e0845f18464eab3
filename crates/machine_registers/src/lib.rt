//! What the instructions of a machine work on (`Registers`), and what they come to on it (`Act`): an instruction is run as far as its
//! first request, whose operands it pops. What stands here is that of the definitions (`model_machine`, `specs/Machines.antt`).
//!
//! # Choices
//!
//! - A poll names a life alone, since what waits is always the uppermost item that waits: operands lie one below the other,
//!   and the first that waits is polled for.
//! - A request lies in a block of its own (`request_of`), since it has 112 bytes, and a dozen answers on its way would each
//!   copy it.
#![tactic(auto)]

mod act;
mod call;
mod directing;
mod directory_replies;
mod errors;
mod reads;
mod registers;
mod requests;

pub use act::{Act, ask_empty};
pub use call::prefix_end;
pub use errors::{Errors, error_item};
pub use registers::Registers;
