//! The lines of an input and of a dump, in definitions.
//!
//! `specs/Printing.antt` has the printable form of bytes and each kind of line; `specs/Reading.antt` reads an input from left to
//! right, line by line, with the first fault and its place. Both are stated apart from each other: `dump_text` proves that what is
//! read is what was printed. `proofs/` has laws of lines that follow from these definitions alone.
#![tactic(auto)]
