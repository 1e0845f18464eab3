//! Running the machines over the core, by turns.

ghost use Rattle.std.specs.Prelude.{◌≡◌, ◌<◌, ◌+◌, ◌++◌, ◌∷◌, ◌^◌, ◌⊎◌, ◌≢◌, true, [], length, slice_get, option_and_then, None, Ok, Some, if◌then◌else◌, IfOk, IsSome, OnOk};
ghost use Rattle.fdb_calls.specs.declared.Reply.TheVariants.{NoMemory};
ghost use Rattle.model_machine.specs.Machines.{resumed};
ghost use Rattle.model_machine.specs.Runs.{at_rest};
ghost use Rattle.suspended_machine.specs.SuspendedMachines.{progress_of, IsNearer, IsSuspended};
ghost use Rattle.machine_runs.specs.Driving.{asks_at, AreSuspended, GoesOn, GoesOnByTurns, HasMoved, HasPaused, HasUsed, IsFirstAsking, IsGoing, IsNextInTurn};

use client_core::Core;
use dump_text::Order;
use fdb_calls::{Reply, Request};
use key_bytes::Bytes;
use outside::Words;
use std::alloc::{AllocError, Global};
use suspended_machine::{SuspendedMachine, is_no_memory, prefix_of, suspended_started};

/// What came of a request.
#[derive(Clone, Copy, Debug, PartialEq, Eq)]
pub enum Moved {
    /// The machine asks on within the same instruction.
    AsksOn,
    /// It has fewer instructions left.
    Finished,
    /// It started a machine.
    Started,
}

/// Until when requests were taken.
#[derive(Clone, Copy, Debug, PartialEq, Eq)]
pub enum Pause {
    /// A machine had fewer instructions left.
    Finished,
    /// A machine was started.
    Started,
    /// No machine asks.
    Ended,
}

/// Takes the requests of the machines by turns, until none asks: again and again, for each machine in the order of their
/// numbers that asks, one request of it; a machine that is started is met in the same turn. Each request is one more place
/// of the order. It is refused for want of memory alone, and nothing is said of the rest then.
pub fn drive<W: Words>(
    alloc: Global,
    core: &mut Core,
    words: &mut W,
    suspended_machines: &mut Vec<SuspendedMachine>,
    order: &mut Order,
    from: &mut usize,
) -> Result<(), AllocError>
    requires { IsGoing core.old suspended_machines.old.items order.old }
    ensures goes_on { OnOk result (GoesOnByTurns core.old (W.words words.old) suspended_machines.old.items order.old from.old
        core.new (W.words words.new) suspended_machines.new.items order.new from.new) }
    ensures going { OnOk result (IsGoing core.new suspended_machines.new.items order.new) }
    ensures ended { OnOk result (IsNextInTurn suspended_machines.new.items from.new None) }
{
    loop {
        if run_until_started(alloc, core, words, suspended_machines, order, from)? == Pause::Ended {
            return Ok(());
        }
    }
}

// Takes requests until a machine was started, or none asks.
fn run_until_started<W: Words>(
    alloc: Global,
    core: &mut Core,
    words: &mut W,
    suspended_machines: &mut Vec<SuspendedMachine>,
    order: &mut Order,
    from: &mut usize,
) -> Result<Pause, AllocError>
    requires { IsGoing core.old suspended_machines.old.items order.old }
    ensures goes_on { OnOk result (GoesOnByTurns core.old (W.words words.old) suspended_machines.old.items order.old from.old
        core.new (W.words words.new) suspended_machines.new.items order.new from.new) }
    ensures going { OnOk result (IsGoing core.new suspended_machines.new.items order.new) }
    ensures paused { IfOk result (λ pause. (pause ≡ Pause.Ended) ⊎ (length suspended_machines.old.items < length suspended_machines.new.items)) }
    ensures ended { result ≡ Ok Pause.Ended → IsNextInTurn suspended_machines.new.items from.new None }
{
    loop {
        match run_until_finished(alloc, core, words, suspended_machines, order, from)? {
            Pause::Finished => {}
            pause => return Ok(pause),
        }
    }
}

// Takes requests until a machine has fewer instructions left, or one was started, or none asks.
fn run_until_finished<W: Words>(
    alloc: Global,
    core: &mut Core,
    words: &mut W,
    suspended_machines: &mut Vec<SuspendedMachine>,
    order: &mut Order,
    from: &mut usize,
) -> Result<Pause, AllocError>
    requires { IsGoing core.old suspended_machines.old.items order.old }
    ensures goes_on { OnOk result (GoesOnByTurns core.old (W.words words.old) suspended_machines.old.items order.old from.old
        core.new (W.words words.new) suspended_machines.new.items order.new from.new) }
    ensures going { OnOk result (IsGoing core.new suspended_machines.new.items order.new) }
    ensures paused { IfOk result (λ pause. HasPaused pause suspended_machines.old.items suspended_machines.new.items) }
    ensures ended { result ≡ Ok Pause.Ended → IsNextInTurn suspended_machines.new.items from.new None }
{
    while let Some(number) = next_in_turn(suspended_machines, *from) {
        let moved = take(alloc, core, words, suspended_machines, order, number)?;
        *from = number + 1;
        match moved {
            Moved::AsksOn => {}
            Moved::Finished => return Ok(Pause::Finished),
            Moved::Started => return Ok(Pause::Started),
        }
    }
    Ok(Pause::Ended)
}

/// Has the core take the request of the machine of this number: one more place of the order. The machine uses the reply, and a
/// machine that was started is added. It is refused for want of memory alone, and nothing is said of the rest then.
pub fn take<W: Words>(
    alloc: Global,
    core: &mut Core,
    words: &mut W,
    suspended_machines: &mut Vec<SuspendedMachine>,
    order: &mut Order,
    number: usize,
) -> Result<Moved, AllocError>
    requires going { IsGoing core.old suspended_machines.old.items order.old }
    requires within { number < length suspended_machines.old.items }
    requires asks { asks_at suspended_machines.old.items number ≡ true }
    ensures goes_on { OnOk result (GoesOn core.old (W.words words.old) suspended_machines.old.items order.old
        core.new (W.words words.new) suspended_machines.new.items order.new) }
    ensures order { OnOk result (order.new ≡ order.old ++ number ∷ []) }
    ensures going { OnOk result (IsGoing core.new suspended_machines.new.items order.new) }
    ensures moved { IfOk result (λ moved. HasMoved moved suspended_machines.old.items suspended_machines.new.items) }
{
    shows_short(order);
    order.push(number as u16)?;
    let request = request_at(suspended_machines, number);
    let prefix = prefix_of(request)?;
    let reply = core.apply(number as u16, request, words);
    match prefix {
        None => use_alone(suspended_machines, number, reply),
        Some(prefix) => use_and_suspended(alloc, suspended_machines, number, prefix, reply),
    }
}

// The machine of a number uses a reply by which no machine is started. The reply ends at one place, whatever comes of it.
fn use_alone(
    suspended_machines: &mut Vec<SuspendedMachine>,
    number: usize,
    reply: Reply,
) -> Result<Moved, AllocError>
    requires within { number < length suspended_machines.old.items }
    requires is_suspended { AreSuspended suspended_machines.old.items }
    requires asks { asks_at suspended_machines.old.items number ≡ true }
    ensures { IfOk result (HasUsed None reply number suspended_machines.old.items suspended_machines.new.items) }
{
    let used = use_given(&mut suspended_machines[number], &reply);
    drop(reply);
    Ok(moved_by(used?))
}

// The machine of a number uses the reply to what it asked under a prefix, and the machine that was started is added behind the
// others, if one was. It has a call of its own, so that a request that starts no machine need not make room for a suspended
// machine.
#[inline(never)]
fn use_and_suspended(
    alloc: Global,
    suspended_machines: &mut Vec<SuspendedMachine>,
    number: usize,
    prefix: Bytes,
    reply: Reply,
) -> Result<Moved, AllocError>
    requires within { number < length suspended_machines.old.items }
    requires is_suspended { AreSuspended suspended_machines.old.items }
    requires asks { asks_at suspended_machines.old.items number ≡ true }
    ensures { IfOk result (HasUsed (Some prefix) reply number suspended_machines.old.items suspended_machines.new.items) }
{
    let options = suspended_machines[number].machine.options();
    let asks_on = use_given(&mut suspended_machines[number], &reply)?;
    match suspended_started(alloc, Some(prefix), options, reply)? {
        None => Ok(moved_by(asks_on)),
        Some(suspended) => {
            suspended_machines.push(suspended)?;
            Ok(Moved::Started)
        }
    }
}

// The machine at a suspended machine uses a reply, unless that is that memory ran out: whether it asks on within the same
// instruction.
fn use_given(suspended: &mut SuspendedMachine, reply: &Reply) -> Result<bool, AllocError>
    requires is_suspended { IsSuspended suspended.old }
    requires asks { IsSome suspended.old.asks }
    ensures memory { OnOk result (reply.now ≢ NoMemory) }
    ensures rests { OnOk result (progress_of suspended.new ≡ at_rest (resumed suspended.old.machine.machine reply.now)) }
    ensures is_suspended { OnOk result (IsSuspended suspended.new) }
    ensures nearer { IfOk result (λ asks_on. IsNearer asks_on suspended.old.machine.machine suspended.new.machine.machine) }
{
    if is_no_memory(reply) {
        return Err(AllocError);
    }
    suspended.use_reply(reply)
}

// What came of a request by which no machine was started.
fn moved_by(asks_on: bool) -> Moved
    ensures { result ≡ (if asks_on then Moved.AsksOn else Moved.Finished) }
{
    if asks_on {
        Moved::AsksOn
    } else {
        Moved::Finished
    }
}

// What the machine of a number asks.
fn request_at(suspended_machines: &[SuspendedMachine], number: usize) -> &Request
    requires within { number < length suspended_machines.now }
    requires asks { asks_at suspended_machines.now number ≡ true }
    ensures { option_and_then (λ suspended. suspended.asks) (slice_get suspended_machines.now number) ≡ Some result.now }
{
    suspended_machines[number].asks.as_ref().unwrap().request()
}

// The machine whose turn it is, where the turn looks from this number on.
fn next_in_turn(suspended_machines: &[SuspendedMachine], from: usize) -> Option<usize>
    ensures { IsNextInTurn suspended_machines.now from result }
{
    match first_asking(suspended_machines, from) {
        Some(number) => Some(number),
        None => first_asking(suspended_machines, 0),
    }
}

/// Returns the first machine, from one on, that asks.
pub fn first_asking(suspended_machines: &[SuspendedMachine], from: usize) -> Option<usize>
    ensures { IsFirstAsking suspended_machines.now from result }
{
    let mut number = from;
    while number < suspended_machines.len() {
        if suspended_machines[number].asks.is_some() {
            return Some(number);
        }
        number += 1;
    }
    None
}

/// Tells whether the machine of a number asks.
pub fn asks(suspended_machines: &[SuspendedMachine], number: usize) -> bool
    ensures { result ≡ asks_at suspended_machines.now number }
{
    match suspended_machines.get(number) {
        Some(suspended) => suspended.asks.is_some(),
        None => false,
    }
}

/// Shows to a proof that no memory holds an order of 2^62 places. It does nothing when it runs.
pub fn shows_short(order: &Order)
    ensures { length order.now < 2 ^ 62 }
{
    let _places = order.as_slice();
}
