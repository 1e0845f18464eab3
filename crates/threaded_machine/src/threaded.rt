//! A machine in its thread.

ghost use Rattle.std.specs.Prelude.{◌≡◌, ◌≤◌, ◌+◌, [], ◌∷◌, map, option_to_list, is_some, Ok, Some, None, IsSome, IfOk, IfSome, OnOk};
ghost use Rattle.fdb_calls.specs.declared.Reply.{Reply as ReplySaid};
ghost use Rattle.future_cell.specs.declared.callback.Registered.TheVariants.{No};
ghost use Rattle.future_cell.specs.Cells.{waiter_cell, shown, registration};
ghost use Rattle.request_line.specs.History.{upper_half, lower_half, AreTogether};
ghost use Rattle.request_line.specs.Line.{history, sender_line};
ghost use Rattle.network.specs.Serving.{is_started, started_by as starts_in};
ghost use Rattle.network.specs.Clients.{client_history, client_line, client_machine};
ghost use Rattle.model_machine.specs.Machines.{resumed};
ghost use Rattle.model_machine.specs.Runs.{at_rest, start_prefix, started_by};
ghost use Rattle.laws_threads.specs.Alone.{begun_as};
ghost use Rattle.suspended_machine.specs.SuspendedMachines.{progress_of, Awaits, IsSuspended};
ghost use Rattle.threaded_machine.specs.Threaded.{history_of, machine_in, replies_to, overs_of, starts_to, owed_by, owed_of, HasEnded, IsLater, IsRunning, IsStartedBy};

use crate::refusal::Refused;
use fdb_calls::Reply;
use future_cell::{Waiter, Wake};
use key_bytes::Bytes;
use network::{Client, Post};
use outside::Gate;
use request_line::Sender;
use std::alloc::{AllocError, Global};
use std::sync::Wait;
use suspended_machine::{SuspendedMachine, is_no_memory, prefix_of, suspended_started_by};

/// A machine in its thread: the suspended machine, its client, and the waiters of its requests, in the order in which it asked.
#[derive(Drop)]
pub struct ThreadedMachine {
    pub suspended: SuspendedMachine,
    pub client: Client,
    pub waiters: Vec<Waiter<Reply, Wake>>,
}

impl ThreadedMachine {
    /// Makes a machine that was started, which posts by this sender.
    pub fn new(alloc: Global, suspended: SuspendedMachine, sender: Sender<Post>) -> ThreadedMachine
        requires is_suspended { IsSuspended suspended }
        requires begun { progress_of suspended ≡ begun_as suspended.machine.machine }
        requires fresh { (history sender).posted ≡ [] }
        ensures running { IsRunning result }
        ensures suspended { result.suspended ≡ suspended }
        ensures history { history_of result ≡ history sender }
        ensures line { client_line result.client ≡ sender_line sender }
    {
        let client = Client::new(suspended.machine.number(), sender);
        ThreadedMachine::with(alloc, suspended, client)
    }

    // A machine that was started, with its client.
    fn with(alloc: Global, suspended: SuspendedMachine, client: Client) -> ThreadedMachine
        requires is_suspended { IsSuspended suspended }
        requires begun { progress_of suspended ≡ begun_as suspended.machine.machine }
        requires machine { client_machine client ≡ suspended.machine.machine.number }
        requires fresh { (client_history client).posted ≡ [] }
        ensures running { IsRunning result }
        ensures suspended { result.suspended ≡ suspended }
        ensures client { result.client ≡ client }
        ensures waiters { result.waiters.items ≡ [] }
    {
        let waiters = Vec::new(alloc);
        ThreadedMachine {
            suspended,
            client,
            waiters,
        }
    }

    /// Asks until a machine was started, which comes back at its suspended machine, or this one has stopped. A refusal names the
    /// machine that a reply said was started and that doesn't come back.
    pub fn run_until_started<R: Wait, G: Gate>(
        &mut self,
        rt: &R,
        alloc: Global,
        gate: &G,
    ) -> Result<Option<SuspendedMachine>, Refused>
        requires { IsRunning self.old }
        ensures running { OnOk result (IsRunning self.new) }
        ensures later { OnOk result (IsLater self.old self.new) }
        ensures room { OnOk result ((history_of self.new).room ≡ (history_of self.old).room) }
        ensures started { IfOk result (λ started. IfSome started (λ suspended. IsSuspended suspended
            × IsStartedBy (history_of self.new).posted (replies_to self.new) (machine_in self.new).options (progress_of suspended))) }
        ensures ended { result ≡ Ok None → self.new.suspended.asks ≡ None }
        ensures overs { overs_of self.new ≡ overs_of self.old }
        ensures owes { starts_to self.new ≡ starts_to self.old + owed_by result }
    {
        let mut polled = 0;
        for _ in rt.forever() {
            if self.suspended.asks.is_none() {
                return Ok(None);
            }
            if let Some(started) = self.ask(rt, alloc, gate, &mut polled)? {
                return Ok(Some(started));
            }
        }
        unreachable!()
    }

    // Asks what the machine asks, waits for the reply and lets the machine use it: the machine that was started by it, if one was.
    // `polled` counts the replies without a break that it isn't so yet.
    fn ask<R: Wait, G: Gate>(
        &mut self,
        rt: &R,
        alloc: Global,
        gate: &G,
        polled: &mut u32,
    ) -> Result<Option<SuspendedMachine>, Refused>
        requires running { IsRunning self.old }
        requires asks { IsSome self.old.suspended.asks }
        ensures running { OnOk result (IsRunning self.new) }
        ensures later { OnOk result (IsLater self.old self.new) }
        ensures room { OnOk result ((history_of self.new).room ≡ (history_of self.old).room) }
        ensures started { IfOk result (λ started. IfSome started (λ suspended. IsSuspended suspended
            × IsStartedBy (history_of self.new).posted (replies_to self.new) (machine_in self.new).options (progress_of suspended))) }
        ensures overs { overs_of self.new ≡ overs_of self.old }
        ensures owes { starts_to self.new ≡ starts_to self.old + owed_by result }
    {
        self.waiters.reserve(1)?;
        let request = self.suspended.hand_over();
        let prefix = prefix_of(request.request())?;
        gate.rest(*polled);
        gate.pass(self.suspended.machine.number(), self.waiters.len() as u64);
        let asked = self.client.ask(rt, alloc, request)?;
        self.client.prepare(alloc);
        let (waiter, started) = hear(rt, alloc, &mut self.suspended, prefix, asked, polled);
        self.waiters.push_reserved(waiter);
        started
    }

    /// Posts that the machine is over, which has stopped.
    pub fn end<R: Wait>(&mut self, rt: &R)
        requires running { IsRunning self.old }
        requires stopped { self.old.suspended.asks ≡ None }
        ensures ended { HasEnded self.new }
        ensures later { IsLater self.old self.new }
        ensures room { (history_of self.new).room ≡ (history_of self.old).room }
        ensures overs { overs_of self.new ≡ overs_of self.old + 1 }
        ensures starts { starts_to self.new ≡ starts_to self.old }
    {
        let number = self.suspended.machine.number();
        self.client.over(rt, number);
    }

    /// Posts that the machine is over, which can't go on, and before it the Over that it owes, if it owes one.
    pub fn give_up<R: Wait>(&mut self, rt: &R, refused: Refused)
        ensures overs { overs_of self.new ≡ overs_of self.old + 1 + owed_of refused }
        ensures starts { starts_to self.new ≡ starts_to self.old }
    {
        if let Some(started) = refused.owed {
            self.client.over(rt, started);
        }
        let machine = self.suspended.machine.number();
        self.client.over(rt, machine);
    }

    /// Makes the machine that this one started, to run beside it. Where memory is wanting, this machine stays as it was.
    pub fn fork(
        &mut self,
        alloc: Global,
        suspended: SuspendedMachine,
    ) -> Result<ThreadedMachine, AllocError>
        requires running { IsRunning self.old }
        requires room { 1 ≤ (history_of self.old).room }
        requires is_suspended { IsSuspended suspended }
        requires begun { progress_of suspended ≡ begun_as suspended.machine.machine }
        ensures running { OnOk result (IsRunning self.new) }
        ensures later { OnOk result (IsLater self.old self.new) }
        ensures suspended { OnOk result (self.new.suspended ≡ self.old.suspended) }
        ensures kept { OnOk result (history_of self.new ≡ lower_half (history_of self.old)) }
        ensures waiters { OnOk result (self.new.waiters ≡ self.old.waiters) }
        ensures made_running { IfOk result IsRunning }
        ensures made_suspended { IfOk result (λ made. made.suspended ≡ suspended) }
        ensures made { IfOk result (λ made. history_of made ≡ upper_half (history_of self.old)) }
        ensures made_line { IfOk result (λ made. client_line made.client ≡ client_line self.old.client) }
        ensures together { IfOk result (λ made. AreTogether (history_of self.new) (history_of made) (history_of self.old)) }
        ensures overs { overs_of self.new ≡ overs_of self.old }
        ensures starts { starts_to self.new ≡ starts_to self.old }
        ensures made_starts { IfOk result (λ made. starts_to made ≡ 0) }
    {
        let client = self.client.fork(suspended.machine.number())?;
        Ok(ThreadedMachine::with(alloc, suspended, client))
    }
}

// Waits for the reply, and lets the machine use it: the waiter, which has shown the reply, and the machine that was started by it,
// if one was. The waiter comes back at a refusal too, since what the machine was told is known by it alone.
fn hear<R: Wait>(
    rt: &R,
    alloc: Global,
    suspended: &mut SuspendedMachine,
    prefix: Option<Bytes>,
    asked: Waiter<Reply, Wake>,
    polled: &mut u32,
) -> (
    Waiter<Reply, Wake>,
    Result<Option<SuspendedMachine>, Refused>,
)
    requires awaits { Awaits suspended.old.machine }
    requires unregistered { registration asked ≡ No }
    ensures cell { waiter_cell result.0 ≡ waiter_cell asked }
    ensures heard { (reply : ReplySaid) × (shown result.0 ≡ Some reply) × (owed_by result.1 ≡ starts_in (Some reply ∷ []))
        × OnOk result.1 (progress_of suspended.new ≡ at_rest (resumed suspended.old.machine.machine reply))
        × IfOk result.1 (λ started. map progress_of (option_to_list started) ≡ started_by prefix suspended.old.machine.machine.options reply) }
    ensures is_suspended { OnOk result.1 (IsSuspended suspended.new) }
    ensures started { IfOk result.1 (λ started. IfSome started IsSuspended) }
{
    let mut waiter = asked;
    let reply = waiter.wait_in(rt, alloc);
    *polled = polled_on(*polled, reply);
    let started = use_reply(alloc, suspended, prefix, reply);
    (waiter, started)
}

// Lets a machine use a reply: the machine that was started by it, if one was. Where that one doesn't come back, its Over is owed.
fn use_reply(
    alloc: Global,
    suspended: &mut SuspendedMachine,
    prefix: Option<Bytes>,
    reply: &Reply,
) -> Result<Option<SuspendedMachine>, Refused>
    requires { Awaits suspended.old.machine }
    ensures rests { OnOk result (progress_of suspended.new ≡ at_rest (resumed suspended.old.machine.machine reply.now)) }
    ensures is_suspended { OnOk result (IsSuspended suspended.new) }
    ensures started { IfOk result (λ started. map progress_of (option_to_list started)
        ≡ started_by prefix suspended.old.machine.machine.options reply.now) }
    ensures started_is_suspended { IfOk result (λ started. IfSome started IsSuspended) }
    ensures owes { owed_by result ≡ starts_in (Some reply.now ∷ []) }
{
    let owed = number_started(reply);
    match suspended_both(alloc, suspended, prefix, reply) {
        Ok(Some(started)) => Ok(Some(started)),
        Ok(None) if owed.is_none() => Ok(None),
        Ok(None) | Err(_) => Err(Refused { owed }),
    }
}

// The machine that was started by a reply, if one was, once its starter has used the reply.
fn suspended_both(
    alloc: Global,
    suspended: &mut SuspendedMachine,
    prefix: Option<Bytes>,
    reply: &Reply,
) -> Result<Option<SuspendedMachine>, AllocError>
    requires { Awaits suspended.old.machine }
    ensures rests { OnOk result (progress_of suspended.new ≡ at_rest (resumed suspended.old.machine.machine reply.now)) }
    ensures is_suspended { OnOk result (IsSuspended suspended.new) }
    ensures started { IfOk result (λ started. map progress_of (option_to_list started)
        ≡ started_by prefix suspended.old.machine.machine.options reply.now) }
    ensures started_is_suspended { IfOk result (λ started. IfSome started IsSuspended) }
{
    if is_no_memory(reply) {
        return Err(AllocError);
    }
    let options = suspended.machine.options();
    suspended.use_awaited(reply)?;
    suspended_started_by(alloc, prefix, options, reply)
}

// The number of the machine that was started by a reply, if one was.
fn number_started(reply: &Reply) -> Option<u16>
    ensures { is_some result ≡ is_started (Some reply.now) }
{
    match reply {
        Reply::Started { machine, .. } => Some(*machine),
        _ => None,
    }
}

// How often without a break a machine was told that it isn't so yet, once it was told this.
fn polled_on(polled: u32, reply: &Reply) -> u32 {
    match reply {
        Reply::NotYet => polled.saturating_add(1),
        _ => 0,
    }
}
