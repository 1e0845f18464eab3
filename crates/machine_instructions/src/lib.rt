//! Instructions as values of the database (bindingApiTester.md): what a value packs is read as the instruction that it is.
//!
//! # Choices
//!
//! - Most instructions are read without a tuple (`usual_instruction`, `pushed_element`, `lone_name`): those of SET and COMMIT
//!   by one comparison, and PUSH of a byte string without a zero as it stands. Any other value is unpacked whole. What is
//!   read is the instruction of the definitions in each case; no clause says which way was taken.
#![tactic(auto)]

mod instruction;

pub use instruction::instruction_of;
