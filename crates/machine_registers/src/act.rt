//! What an instruction comes to.

ghost use Rattle.std.specs.Prelude.{◌≡◌, IfOk, IsErr};
ghost use Rattle.machine_registers.specs.Acts.{polls_for, refusal_of};

use fdb_calls::{Request, SharedRequest};
use key_bytes::Bytes;
use model_machine::{Awaits, End, Wait};
use stack_items::StackFault;
use std::alloc::{AllocError, Global};

/// What an instruction, or the reply that it awaited, comes to.
#[derive(Debug, Drop)]
pub enum Act {
    /// The instruction is done.
    Does,
    /// It stops the machine.
    Stops(End),
    /// It asks a request, whose reply it awaits.
    Asks(SharedRequest, Awaits),
}

/// Returns what an instruction of this number that was refused comes to: it stops the machine, or polls for the
/// item that waits. Want of memory is no act.
pub fn refused(alloc: Global, number: u64, fault: StackFault) -> Result<Act, AllocError>
    ensures refused { IfOk result (λ act. act ≡ refusal_of fault number) }
    ensures memory { fault ≡ StackFault.NoMemory → IsErr result }
{
    match fault {
        StackFault::Underflow => Ok(Act::Stops(End::Underflow(number))),
        StackFault::Operand => Ok(Act::Stops(End::BadInstruction(number))),
        StackFault::Waits { life } => poll(alloc, life),
        StackFault::NoMemory => Err(AllocError),
    }
}

/// Polls whether no key begins with a prefix, after so many polls that were answered that it isn't so yet.
pub fn ask_empty(prefix: &Bytes, polled: u32) -> Result<Act, AllocError>
    ensures { IfOk result (λ act. act ≡ Act.Asks (Request.PollEmpty prefix.now) (Awaits.Empty prefix.now polled)) }
{
    let request = Request::PollEmpty {
        prefix: prefix.copy()?,
    };
    let asked = SharedRequest::new(prefix.allocator(), request)?;
    let prefix = prefix.copy()?;
    Ok(Act::Asks(asked, Awaits::Empty { prefix, polled }))
}

// The first poll for a life.
fn poll(alloc: Global, life: u64) -> Result<Act, AllocError>
    ensures { IfOk result (λ act. act ≡ polls_for life) }
{
    let wait = Wait { life, polled: 0 };
    let asked = SharedRequest::new(alloc, Request::PollStamp { life })?;
    Ok(Act::Asks(asked, Awaits::Stamp(wait)))
}
