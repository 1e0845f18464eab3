//! Instruction text: a text is assembled into the pairs that a machine runs, and pairs are taken apart as text.
//!
//! The grammar, and the pairs that a text stands for, are `instr_grammar`'s (`specs/Texts.antt`).
#![tactic(auto)]

mod assembling;
mod disassembling;
mod fault;
mod line;
mod sections;
mod taking;

pub use assembling::assemble;
pub use disassembling::disassemble;
pub use dump_text::LineFault;
pub use fault::DisFault;
