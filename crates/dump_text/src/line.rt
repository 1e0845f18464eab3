//! The lines of a dump.

ghost use Rattle.std.specs.Prelude.{◌≡◌};
ghost use Rattle.dump_text.specs.Ends.{word_of};

use key_bytes::{Bytes, Key};

/// How a machine ended.
#[derive(Clone, Copy, Debug, PartialEq, Eq)]
pub enum EndWord {
    /// It ran all of its instructions.
    Ended,
    /// An instruction or an operand of it was none.
    BadInstruction,
    /// An operand was missing.
    Underflow,
    /// A wait took too many polls.
    WaitBound,
    /// No further machine could be started.
    MachineLimit,
}

impl EndWord {
    /// Returns the word of an end.
    pub fn word(self) -> &'static [u8]
        ensures { result.now ≡ word_of self }
    {
        match self {
            EndWord::Ended => b"ended",
            EndWord::BadInstruction => b"bad-instruction",
            EndWord::Underflow => b"underflow",
            EndWord::WaitBound => b"wait-bound",
            EndWord::MachineLimit => b"machine-limit",
        }
    }
}

/// A line of a dump.
#[derive(Debug, Drop)]
pub enum Line {
    /// How a machine ended: the number of instructions it ran, or of the one that it stopped at, and its prefix.
    M {
        machine: u16,
        end: EndWord,
        number: u64,
        prefix: Bytes,
    },
    /// An item of a machine's stack: its place, the oldest at 0, its instruction, and its packed bytes.
    S {
        machine: u16,
        place: u64,
        instruction: u64,
        bytes: Bytes,
    },
    /// An error that a machine noted: the instruction that was run, and a code's digits or a fault's name.
    E {
        machine: u16,
        instruction: u64,
        word: Bytes,
    },
    /// A place of the order: the machine whose request was taken.
    O {
        machine: u16,
    },
    /// A pair of the database.
    K {
        key: Key,
        value: Bytes,
    },
}
