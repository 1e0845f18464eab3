//! Polls for an item that waits, and whether no key begins with a prefix (bindingApiTester.md, "GET_VERSIONSTAMP" and
//! "WAIT_EMPTY").

ghost use Rattle.std.specs.Prelude.{◌≡◌, ◌<◌, ◌+◌, decimal, nat_lt, length, IfOk};
ghost use Rattle.model_machine.specs.declared.Awaits.{Awaits as AwaitsSaid};
ghost use Rattle.model_machine.specs.declared.Wait.{Wait as WaitSaid};
ghost use Rattle.model_machine.specs.Machines.{Registers as RegistersSaid, Act as ActSaid, act_of, after_poll, after_watch, watches_on, error_item, knowing, logs_on, noting};
ghost use Rattle.machine_registers.specs.Acts.{act_with};
ghost use Rattle.stack_machine.specs.Polls.{polled_act, PollsOn};
ghost use Rattle.machine_instructions.specs.Pushes.{PushesAnElement};

use fdb_calls::{Code, Reply, Request, SharedRequest};
use fdb_tuple::Elem;
use key_bytes::Bytes;
use machine_registers::{Act, Registers, ask_empty, error_item};
use model_machine::{Awaits, End, Instruction, Wait};
use stack_directories::digits_of;
use std::alloc::AllocError;

/// What the reply to a poll comes to.
#[derive(Debug, Drop)]
pub enum Polled {
    /// The item is known, and the instruction goes on.
    Known,
    /// It isn't decided yet, and is polled for again.
    NotYet(Wait),
    /// It isn't decided yet, and no further poll may be made.
    Bound,
    /// It was a reply of another kind.
    Other,
}

// Uses the reply to a poll, in the instruction of this number, where so many polls of one wait may be answered that it isn't
// decided yet.
fn use_poll(
    registers: &mut Registers,
    number: u64,
    polls: u32,
    wait: Wait,
    reply: &Reply,
) -> Result<Polled, AllocError>
    ensures { IfOk result (λ polled. (again : RegistersSaid → ActSaid) (awaiting : WaitSaid → AwaitsSaid)
        → polled_act polled number registers.new again awaiting ≡ after_poll polls number registers.old wait again awaiting reply.now) }
{
    match reply {
        Reply::Stamp(stamp) => know_stamp(registers, stamp),
        Reply::Fault(code) => know_fault(registers, number, *code),
        Reply::NotYet => Ok(poll_on(registers, polls, wait)),
        _ => Ok(Polled::Other),
    }
}

// The item that waits is the versionstamp.
fn know_stamp(registers: &mut Registers, stamp: &[u8; 10]) -> Result<Polled, AllocError>
    ensures known { IfOk result (λ polled. polled ≡ Polled.Known) }
    ensures registers { IfOk result (λ _. registers.new ≡ knowing registers.old (Elem.Bytes stamp.now)) }
{
    let stamp = Bytes::from_slice(registers.alloc(), stamp)?;
    registers.know(Elem::Bytes(stamp));
    Ok(Polled::Known)
}

// The item that waits tells of a code, which the instruction of this number notes.
fn know_fault(registers: &mut Registers, number: u64, code: Code) -> Result<Polled, AllocError>
    ensures known { IfOk result (λ polled. polled ≡ Polled.Known) }
    ensures registers { IfOk result (λ _. registers.new ≡ knowing (noting number registers.old (decimal code.0)) (error_item code.0)) }
{
    let item = error_item(registers.alloc(), code.0)?;
    let word = digits_of(registers.alloc(), code.0)?;
    registers.note(number, word)?;
    registers.know(item);
    Ok(Polled::Known)
}

// The item isn't decided yet: it is polled for again, or is dropped with all above it.
fn poll_on(registers: &mut Registers, polls: u32, wait: Wait) -> Polled
    ensures { PollsOn result (nat_lt (wait.polled + 1) polls) wait registers.old registers.new }
{
    if wait.polled < polls.saturating_sub(1) {
        let polled = wait.polled + 1;
        return Polled::NotYet(Wait { polled, ..wait });
    }
    registers.drop_waiting();
    Polled::Bound
}

/// Uses the reply to a poll of an instruction of this number, which is run again once the item is known.
pub fn resume_poll(
    registers: &mut Registers,
    number: u64,
    polls: u32,
    wait: Wait,
    instruction: Option<Instruction>,
    reply: &Reply,
) -> Result<Act, AllocError>
    requires { PushesAnElement instruction }
    ensures { IfOk result (λ act. act_with registers.new act
        ≡ after_poll polls number registers.old wait (λ left. act_of number left instruction) AwaitsSaid.Stamp reply.now) }
{
    match use_poll(registers, number, polls, wait, reply)? {
        Polled::Known => registers.run(number, instruction),
        Polled::NotYet(wait) => {
            let request = Request::PollStamp { life: wait.life };
            let asked = SharedRequest::new(registers.alloc(), request)?;
            Ok(Act::Asks(asked, Awaits::Stamp(wait)))
        }
        Polled::Bound => Ok(Act::Stops(End::WaitBound(number))),
        Polled::Other => Ok(Act::Does),
    }
}

/// Uses the reply to a poll of LOG_STACK, which goes on once the item is known.
pub fn resume_log(
    registers: &mut Registers,
    number: u64,
    polls: u32,
    prefix: &Bytes,
    wait: Wait,
    reply: &Reply,
) -> Result<Act, AllocError>
    ensures { IfOk result (λ act. act_with registers.new act
        ≡ after_poll polls number registers.old wait (λ left. logs_on left prefix.now) (AwaitsSaid.LoggedStamp prefix.now) reply.now) }
{
    match use_poll(registers, number, polls, wait, reply)? {
        Polled::Known => registers.log_on(prefix),
        Polled::NotYet(wait) => {
            let request = Request::PollStamp { life: wait.life };
            let asked = SharedRequest::new(registers.alloc(), request)?;
            let prefix = prefix.copy()?;
            Ok(Act::Asks(asked, Awaits::LoggedStamp { prefix, wait }))
        }
        Polled::Bound => Ok(Act::Stops(End::WaitBound(number))),
        Polled::Other => Ok(Act::Does),
    }
}

/// Uses the reply to a poll of WAIT_EMPTY, after so many polls that were answered that it isn't so yet.
pub fn resume_watch(
    registers: &mut Registers,
    number: u64,
    polls: u32,
    prefix: &Bytes,
    polled: u32,
    reply: &Reply,
) -> Result<Act, AllocError>
    ensures { IfOk result (λ act. act_with registers.new act ≡ after_watch polls number registers.old prefix.now polled reply.now) }
{
    match reply {
        Reply::Empty => registers.push_text(number, b"WAITED_FOR_EMPTY"),
        Reply::NotYet => watch_on(registers, number, polls, prefix, polled),
        _ => Ok(Act::Does),
    }
}

// It isn't so yet: it is polled for again, or the machine ends.
fn watch_on(
    registers: &Registers,
    number: u64,
    polls: u32,
    prefix: &Bytes,
    polled: u32,
) -> Result<Act, AllocError>
    ensures { IfOk result (λ act. act_with registers.now act
        ≡ watches_on (nat_lt (polled + 1) polls) number registers.now prefix.now (polled + 1)) }
{
    if polled < polls.saturating_sub(1) {
        return ask_empty(prefix, polled + 1);
    }
    Ok(Act::Stops(End::WaitBound(number)))
}
