//! The lines of instruction text.
//!
//! Instruction text is what a person writes for a machine: a line `@ p` begins the section of a prefix, and each line
//! behind it is the name of an operation, with an element behind `PUSH`. `specs/Texts.antt` has the grammar, and the
//! pairs that a text stands for; `specs/Names.antt` the names; `specs/Reading.antt` and `specs/Lines.antt` say how a
//! text is read, with the place of each fault, and `specs/Taking.antt` how pairs are taken apart as text. The functions
//! here read and write a line; whole texts are the crate `instr_text`'s.
#![tactic(auto)]

mod element;
mod instruction;
mod names;
mod number;
mod part;
mod scalar;
mod string;
mod writing;

pub use dump_reading::FieldFault;
pub use instruction::{instruction_of, is_name, prefix_of};
pub use writing::{write_name, write_prefix, write_push};
