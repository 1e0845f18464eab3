//! The top call: from the words and the bytes that come in to the dump that goes out.
//!
//! `tester` does all that the program does but the shell. It reads the words and the source, has machine 0 and each machine that is
//! started run over the core, in threads (`threaded_runs`) or by the order that a replay is given (`machine_runs`), and writes the dump
//! that was rendered. The commands on text, which run no machine, are those of `text_commands`. `answer` (`answering.rt`) has one arm
//! for each command. The record that `tester` promises, `IsOutcome` in `specs/Outcomes.antt`, says what each exit status means; what it
//! cites stands in `specs/Rendered.antt`, `specs/Faults.antt` and `specs/Tellings.antt`, and, for the run and its dump, in `model_machine`.
//!
//! # Choices
//!
//! - `tester` may wait, for its handle `rt`: with `run` its machines wait for replies. `replay` and `gen` use neither `rt`
//!   nor `gate`. What it asks of the handle is what starting a thread asks.
//! - Where there is no memory for the line of a fault, the status is 6 and not 2: each status but 0 and 3 has its line on
//!   `err`.
//! - What runs and renders stands in crates below, and this one stays small: its contract is proved, and each wrong body of `must-fail/`
//!   refused, in little time.
#![tactic(auto)]

mod answering;
mod clean;
mod fault;
mod telling;
mod top;

pub use clean::status_over_bytes;
pub use command_words::ArgWords;
pub use top::{Outcome, tester};
