//! Why a command has nothing to write.

ghost use Rattle.std.specs.Prelude.{◌≡◌};
ghost use Rattle.tester_run.specs.declared.fault.Refusal.TheVariants.{Memory};
ghost use Rattle.tester_run.specs.Refusals.{line_refusal, order_refusal, text_refusal};

use dump_text::LineFault;
use instr_text::DisFault;
use machine_runs::OrderFault;
use std::alloc::AllocError;
use text_commands::TextFault;

/// Why a command has nothing to write.
#[derive(Debug, Drop)]
pub enum Refusal {
    /// The source failed.
    Source,
    /// A line of the input has this fault.
    Line(LineFault),
    /// The order of a replay can't be followed.
    Order(OrderFault),
    /// A pair can't be taken apart.
    Pair(DisFault),
    /// Memory ran out.
    Memory,
}

impl From<AllocError> for Refusal {
    ghost from_gives = { λ _ e. e ≡ Memory };

    fn from(_e: AllocError) -> Refusal {
        Refusal::Memory
    }
}

impl From<LineFault> for Refusal {
    ghost from_gives = { λ fault e. e ≡ line_refusal fault };

    fn from(fault: LineFault) -> Refusal {
        match fault {
            LineFault::NoMemory => Refusal::Memory,
            fault => Refusal::Line(fault),
        }
    }
}

impl From<OrderFault> for Refusal {
    ghost from_gives = { λ fault e. e ≡ order_refusal fault };

    fn from(fault: OrderFault) -> Refusal {
        match fault {
            OrderFault::NoMemory => Refusal::Memory,
            fault => Refusal::Order(fault),
        }
    }
}

impl From<TextFault> for Refusal {
    ghost from_gives = { λ fault e. e ≡ text_refusal fault };

    fn from(fault: TextFault) -> Refusal {
        match fault {
            TextFault::Line(fault) => Refusal::from(fault),
            TextFault::Pair(DisFault::NoMemory) => Refusal::Memory,
            TextFault::Pair(fault) => Refusal::Pair(fault),
        }
    }
}
