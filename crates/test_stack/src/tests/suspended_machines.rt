//! A suspended machine, which starts another.

ghost use Rattle.std.specs.Prelude.{◌≢◌, IsSome, IfOk};
ghost use Rattle.fdb_calls.specs.declared.Reply.TheVariants.{NoMemory};
ghost use Rattle.suspended_machine.specs.SuspendedMachines.{Awaits, IsSuspended};

use super::*;
use fdb_calls::{Reply, Request};
use stack_machine::{End, State};
use suspended_machine::{
    SuspendedMachine, is_no_memory, prefix_of, start, start_with, suspended_started,
    suspended_started_by,
};

// Pushes the prefix `q`, and asks for a machine under it.
const STARTS: &[&[u8]] = &[b"\x02PUSH\x00\x01q\x00", b"\x02START_THREAD\x00"];

// Such a suspended machine.
fn is_suspended(alloc: Global) -> Result<SuspendedMachine, AllocError>
    ensures { IfOk result IsSuspended }
{
    let prefix = Bytes::from_slice(alloc, b"p")?;
    start(alloc, 0, prefix, options(2), pairs_of(alloc, STARTS)?)
}

// The same with copies of the values.
fn is_suspended_with(alloc: Global) -> Result<SuspendedMachine, AllocError>
    ensures { IfOk result IsSuspended }
{
    let prefix = Bytes::from_slice(alloc, b"p")?;
    start_with(alloc, 0, prefix, options(2), values_of(alloc, STARTS)?)
}

// The reply that machine 1 was started.
fn started_one(alloc: Global) -> Reply
    ensures { result ≢ NoMemory }
{
    Reply::Started {
        machine: 1,
        instructions: Pairs::new(alloc),
    }
}

// What came of a machine that was answered that machine 1 was started: whether it asks on, whether it has ended, and the number of
// the machine that is at its suspended machine then.
#[derive(Clone, Copy, Debug, PartialEq, Eq)]
struct Told {
    asks_on: bool,
    ended: bool,
    started: Option<u16>,
}

fn told_by(asks_on: bool, suspended: &SuspendedMachine, started: Option<u16>) -> Told {
    Told {
        asks_on,
        ended: matches!(suspended.machine.state(), State::Stopped(End::Ended)),
        started,
    }
}

fn number_of(suspended: Option<SuspendedMachine>) -> Option<u16> {
    let number = suspended
        .as_ref()
        .map(|suspended| suspended.machine.number());
    drop(suspended);
    number
}

// The number of the machine that this request and the reply to it start.
fn number_started(alloc: Global, request: &Request) -> Result<Option<u16>, AllocError> {
    let prefix = prefix_of(request)?;
    let started = suspended_started(alloc, prefix, options(2), started_one(alloc))?;
    Ok(number_of(started))
}

// The number of the machine that what this one asks starts.
fn number_asked(alloc: Global, suspended: &SuspendedMachine) -> Result<Option<u16>, AllocError> {
    match &suspended.asks {
        Some(asked) => number_started(alloc, asked.request()),
        None => Ok(None),
    }
}

// Gives it the reply: whether it asks on.
fn asks_on(alloc: Global, suspended: &mut SuspendedMachine) -> Result<bool, AllocError>
    requires is_suspended { IsSuspended suspended.old }
    requires asks { IsSome suspended.old.asks }
{
    let reply = started_one(alloc);
    let asks_on = suspended.use_reply(&reply);
    drop(reply);
    asks_on
}

// Answers it. None says that it asked nothing.
fn answered(alloc: Global, suspended: &mut SuspendedMachine) -> Result<Option<Told>, AllocError>
    requires { IsSuspended suspended.old }
{
    if suspended.asks.is_none() {
        return Ok(None);
    }
    let started = number_asked(alloc, suspended)?;
    let asks_on = asks_on(alloc, suspended)?;
    Ok(Some(told_by(asks_on, suspended, started)))
}

fn run(alloc: Global) -> Result<Option<Told>, AllocError> {
    let mut suspended = is_suspended(alloc)?;
    let told = answered(alloc, &mut suspended);
    drop(suspended);
    told
}

// The same as `number_started` where the reply is kept.
fn number_started_by(alloc: Global, request: &Request) -> Result<Option<u16>, AllocError> {
    let prefix = prefix_of(request)?;
    let reply = started_one(alloc);
    let started = suspended_started_by(alloc, prefix, options(2), &reply);
    drop(reply);
    Ok(number_of(started?))
}

// The number of the machine that what this one hands over starts.
fn number_handed_over(
    alloc: Global,
    suspended: &mut SuspendedMachine,
) -> Result<Option<u16>, AllocError>
    requires is_suspended { IsSuspended suspended.old }
    requires asks { IsSome suspended.old.asks }
    ensures { Awaits suspended.new.machine }
{
    let request = suspended.hand_over();
    let started = number_started_by(alloc, request.request());
    drop(request);
    started
}

// Gives it the reply to what it handed over: whether it asks on.
fn asks_on_by_hand(alloc: Global, suspended: &mut SuspendedMachine) -> Result<bool, AllocError>
    requires { Awaits suspended.old.machine }
{
    let reply = started_one(alloc);
    let asks_on = suspended.use_awaited(&reply);
    drop(reply);
    asks_on
}

// The same as `answered` where what it asks is handed over, and the reply is kept.
fn answered_by_hand(
    alloc: Global,
    suspended: &mut SuspendedMachine,
) -> Result<Option<Told>, AllocError>
    requires { IsSuspended suspended.old }
{
    if suspended.asks.is_none() {
        return Ok(None);
    }
    let started = number_handed_over(alloc, suspended)?;
    let asks_on = asks_on_by_hand(alloc, suspended)?;
    Ok(Some(told_by(asks_on, suspended, started)))
}

fn run_by_hand(alloc: Global) -> Result<Option<Told>, AllocError> {
    let mut suspended = is_suspended_with(alloc)?;
    let told = answered_by_hand(alloc, &mut suspended);
    drop(suspended);
    told
}

const STARTED_ONE: Told = Told {
    asks_on: false,
    ended: true,
    started: Some(1),
};

#[test]
fn a_machine_starts_another(rt: HostRuntime) {
    assert_eq!(rt; run(rt.alloc()), Ok(Some(STARTED_ONE)));
    assert_eq!(rt; run_by_hand(rt.alloc()), Ok(Some(STARTED_ONE)));
}

#[test]
fn replies_tell_whether_memory_ran_out(rt: HostRuntime) {
    assert!(rt; is_no_memory(&Reply::NoMemory));
    assert!(rt; !is_no_memory(&Reply::Done));
}
