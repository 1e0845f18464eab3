//! Lines of text: the order and the pairs of an input are read, and the lines of a dump are written.
//!
//! `model_lines` and `model_input` say what the lines are. What is written is the one spelling of a line. What is read
//! is exactly the order and the pairs that an input spells, and a fault is the first one from the left, with its line
//! and its place. Clauses say more than that reading follows its rules: what is read is the spelling of the order and
//! the pairs that come out, and each spelling of an order and of pairs within the limits is read.
#![tactic(auto)]

mod fault;
mod input;
mod line;
mod machine;
mod pair;
mod plain;
mod printing;
mod room;
mod text;
mod writing;

pub use fault::LineFault;
pub use input::{first_line, read_lines};
pub use line::{EndWord, Line};
pub use model_input::{Form, Input, Order};
pub use pair::{InputLine, is_below_top, read_fields};
pub use printing::write_printable;
pub use text::{ReadText, Stop, read_text};
pub use writing::{
    write_error_line, write_item_line, write_line, write_machine_line, write_order_line,
    write_pair_line,
};
