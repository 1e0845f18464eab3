//! The stack machine of the bindings tester: it runs its instructions, asks requests and uses their replies.
//!
//! A `Machine` is the machine of `model_machine` (`specs/Machines.antt`), kept in a struct: each `step` is one
//! step of those definitions. It runs one instruction, asks one request, uses one reply, or says how it stopped.
//!
//! # Choices
//!
//! - `step` runs one instruction and answers Again, so that its contract is one step of the definitions. Coming to rest is a
//!   fold over steps, as many as there are instructions left and one more, which always suffices.
//! - A machine that ran out of memory answers nothing else from then on; contracts see that as a flag beside it.
//! - An instruction whose operand was waited for is run again from its start, once that item is known. So a machine keeps no
//!   operands between two steps, and what an operation does is stated once, over a stack whose operands are known.
//! - Machine and stack show all items while a poll is awaited, the operands above the item too. No dump has such a moment.
//! - Machine 0 gets its instructions as values (`with_instructions`), and a machine that a request starts gets the pairs of
//!   the reply: the list of all pairs of a long script would take more memory than its instructions.
#![tactic(auto)]

mod instruction;
mod machine;
mod packed;
mod polls;
mod replies;

pub use machine::{Machine, Step};
pub use machine_registers::Errors;
pub use model_machine::{End, ErrorNote, State};
