//! The commands that make a text of a text: `watch`, `asm` and `disasm`.
//!
//! Each takes the bytes of its input and returns the bytes of its output, or the first fault of the input. What a command
//! makes of an input is a relation of the two (`specs/Firings.antt` for watches, `specs/Texts.antt` for instruction text), and
//! which fault comes is that of the readers: `model_events`, `instr_grammar` and `model_input`.
#![tactic(auto)]

mod fault;
mod instructions;
mod scene;
mod watching;

pub use fault::TextFault;
pub use instructions::{asm, disasm};
pub use watching::watch;
