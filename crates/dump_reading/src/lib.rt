//! Printable text and dumps are read back.
//!
//! `model_lines` says how bytes, numbers and lines are printed, and `dump_text` writes them so. What is read here is
//! exactly what is spelled: what comes out is printed as the text that came in, and each text that is the printed form
//! of bytes, or of the lines of a dump, is read as these. A fault is the first one from the left, with its place.
#![tactic(auto)]

mod dump;
mod fault;
mod field;
mod line;
mod printable;

pub use dump::{Lines, first_line, read_dump};
pub use dump_text::{EndWord, Line, LineFault};
pub use fault::PrintableFault;
pub use field::{FieldFault, behind, digits_len, number_of};
pub use line::DumpLine;
pub use printable::{Spelling, digit_of, read_printable, spelling_of};
