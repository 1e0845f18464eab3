//! Machines as they are started.

ghost use Rattle.std.specs.Prelude.{◌≡◌, ◌↔◌, ℕ, List, map, option_to_list, IfOk, IfSome, IsTrue};
ghost use Rattle.std.specs.Map.{values_of};
ghost use Rattle.fdb_calls.specs.declared.Reply.TheVariants.{NoMemory};
ghost use Rattle.model_machine.specs.Machines.{silent};
ghost use Rattle.model_machine.specs.Runs.{at_rest, start_prefix, started, started_by};
ghost use Rattle.suspended_machine.specs.SuspendedMachines.{progress_of, IsSuspended};

use crate::suspended::SuspendedMachine;
use fdb_calls::{Reply, Request};
use key_bytes::{Bytes, Pairs};
use model_machine::MachineOptions;
use stack_machine::Machine;
use std::alloc::{AllocError, Global};

/// Makes a machine as it is started: of this number, under this prefix, with these options, and
/// with the values of these pairs as its instructions. It is refused for want of memory alone.
#[tactic(auto, unfolding(model_machine::specs::Runs::started))]
pub fn start(
    alloc: Global,
    number: u16,
    prefix: Bytes,
    options: MachineOptions,
    instructions: Pairs,
) -> Result<SuspendedMachine, AllocError>
    ensures started { IfOk result (λ suspended. progress_of suspended ≡ at_rest (silent (started number prefix options instructions))) }
    ensures is_suspended { IfOk result IsSuspended }
{
    SuspendedMachine::new(Machine::new(alloc, number, prefix, instructions, options)?)
}

/// Makes a machine as `start` does, with these instructions: as whatever pairs have them for their values.
#[tactic(auto, unfolding(model_machine::specs::Runs::started))]
pub fn start_with(
    alloc: Global,
    number: u16,
    prefix: Bytes,
    options: MachineOptions,
    instructions: Vec<Bytes>,
) -> Result<SuspendedMachine, AllocError>
    ensures started { IfOk result (λ suspended. (pairs : List (List ℕ × List ℕ)) → instructions.items ≡ values_of pairs
        → progress_of suspended ≡ at_rest (silent (started number prefix options pairs))) }
    ensures is_suspended { IfOk result IsSuspended }
{
    SuspendedMachine::new(Machine::with_instructions(alloc, number, prefix, instructions, options)?)
}

/// Returns the prefix under which a request starts a machine, if it starts one.
pub fn prefix_of(request: &Request) -> Result<Option<Bytes>, AllocError>
    ensures { IfOk result (λ prefix. prefix ≡ start_prefix request.now) }
{
    match request {
        Request::Start { prefix } => Ok(Some(prefix.copy()?)),
        _ => Ok(None),
    }
}

/// Makes the machine that was started under a prefix by this reply, if one was.
pub fn suspended_started(
    alloc: Global,
    prefix: Option<Bytes>,
    options: MachineOptions,
    reply: Reply,
) -> Result<Option<SuspendedMachine>, AllocError>
    ensures started { IfOk result (λ suspended. map progress_of (option_to_list suspended) ≡ started_by prefix options reply) }
    ensures is_suspended { IfOk result (λ suspended. IfSome suspended IsSuspended) }
{
    match (prefix, reply) {
        (
            Some(prefix),
            Reply::Started {
                machine,
                instructions,
            },
        ) => Ok(Some(start(alloc, machine, prefix, options, instructions)?)),
        _ => Ok(None),
    }
}

/// Makes the machine as `suspended_started` does, where the reply is to be kept: the machine gets a copy of its
/// instructions.
pub fn suspended_started_by(
    alloc: Global,
    prefix: Option<Bytes>,
    options: MachineOptions,
    reply: &Reply,
) -> Result<Option<SuspendedMachine>, AllocError>
    ensures started { IfOk result (λ suspended. map progress_of (option_to_list suspended) ≡ started_by prefix options reply.now) }
    ensures is_suspended { IfOk result (λ suspended. IfSome suspended IsSuspended) }
{
    match (prefix, reply) {
        (
            Some(prefix),
            Reply::Started {
                machine,
                instructions,
            },
        ) => {
            let instructions = instructions.copy()?;
            Ok(Some(start(alloc, *machine, prefix, options, instructions)?))
        }
        _ => Ok(None),
    }
}

/// Tells whether a reply is that memory ran out.
pub fn is_no_memory(reply: &Reply) -> bool
    ensures { IsTrue result ↔ (reply.now ≡ NoMemory) }
{
    matches!(reply, Reply::NoMemory)
}
