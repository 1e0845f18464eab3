//! Why a command made nothing of its input.

ghost use Rattle.std.specs.Prelude.{◌≡◌};
ghost use Rattle.dump_text.specs.declared.fault.LineFault.TheVariants.{NoMemory};
ghost use Rattle.text_commands.specs.declared.fault.TextFault.TheVariants.{Line, Pair};

use dump_text::LineFault;
use instr_text::DisFault;
use std::alloc::AllocError;
use thiserror::Error;

/// The first fault of an input, or that memory ran out.
#[derive(Clone, Copy, Debug, PartialEq, Eq, Error)]
pub enum TextFault {
    /// A line fits no rule or passes a limit.
    #[error("{0}")]
    Line(LineFault),
    /// The pair of a line is no instruction there.
    #[error("{0}")]
    Pair(DisFault),
}

impl From<LineFault> for TextFault {
    ghost from_gives = { λ fault e. e ≡ Line fault };

    fn from(fault: LineFault) -> TextFault {
        TextFault::Line(fault)
    }
}

impl From<DisFault> for TextFault {
    ghost from_gives = { λ fault e. e ≡ Pair fault };

    fn from(fault: DisFault) -> TextFault {
        TextFault::Pair(fault)
    }
}

impl From<AllocError> for TextFault {
    ghost from_gives = { λ _ e. e ≡ Line NoMemory };

    fn from(_e: AllocError) -> TextFault {
        TextFault::Line(LineFault::NoMemory)
    }
}
