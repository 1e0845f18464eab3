//! A machine by itself, run over the replies that it gets.

ghost use Rattle.std.specs.Prelude.{◌≡◌, ◌≢◌, ◌≤◌, false, Some, IsSome, IfOk, OnOk};
ghost use Rattle.fdb_calls.specs.declared.Reply.TheVariants.{NoMemory};
ghost use Rattle.model_machine.specs.Machines.{silent, resumed};
ghost use Rattle.model_machine.specs.Runs.{at_rest};
ghost use Rattle.model_machine.specs.Laws.{is_awaiting};
ghost use Rattle.suspended_machine.specs.SuspendedMachines.{progress_of, with_asked, work_left, Awaits, IsNearer, IsSuspended};

use fdb_calls::{Reply, SharedRequest};
use stack_machine::{Machine, Step};
use std::alloc::AllocError;

/// A machine that has come to rest, and what it asks; nothing where it has stopped.
#[derive(Debug)]
pub struct SuspendedMachine {
    pub machine: Machine,
    pub asks: Option<SharedRequest>,
}

// Written out, so that a caller's proof sees one call where a suspended machine ends, and nothing of what lies in it.
impl Drop for SuspendedMachine {
    fn drop(self) {
        let SuspendedMachine {
            machine: _,
            asks: _,
        } = self;
    }
}

impl SuspendedMachine {
    /// Lets a machine that awaits no reply run on, until it asks or has stopped. It is refused for want of memory alone.
    pub fn new(machine: Machine) -> Result<SuspendedMachine, AllocError>
        requires ready { machine.is_out_of_memory ≡ false }
        requires silent { is_awaiting machine.machine.state ≡ false }
        ensures rests { IfOk result (λ suspended. progress_of suspended ≡ at_rest (silent machine.machine)) }
        ensures is_suspended { IfOk result IsSuspended }
    {
        let mut machine = machine;
        let asks = run_on(&mut machine)?;
        Ok(SuspendedMachine { machine, asks })
    }

    /// Gives the machine the reply to what it asked, and lets it run on. The answer is whether it asks on within the same
    /// instruction. It is refused for want of memory alone, and nothing is said of the machine then.
    pub fn use_reply(&mut self, reply: &Reply) -> Result<bool, AllocError>
        requires is_suspended { IsSuspended self.old }
        requires asks { IsSome self.old.asks }
        requires memory { reply.now ≢ NoMemory }
        ensures rests { OnOk result (progress_of self.new ≡ at_rest (resumed self.old.machine.machine reply.now)) }
        ensures is_suspended { OnOk result (IsSuspended self.new) }
        ensures nearer { IfOk result (λ asks_on. IsNearer asks_on self.old.machine.machine self.new.machine.machine) }
    {
        self.use_awaited(reply)
    }

    /// Hands over what the machine asks: it awaits the reply then (`use_awaited`).
    pub fn hand_over(&mut self) -> SharedRequest
        requires asks { IsSome self.old.asks }
        ensures request { self.old.asks ≡ Some result }
        ensures machine { self.new.machine ≡ self.old.machine }
    {
        self.asks.take().unwrap()
    }

    /// Uses the reply as `use_reply` does, where what the machine asked may have been handed over.
    pub fn use_awaited(&mut self, reply: &Reply) -> Result<bool, AllocError>
        requires awaits { Awaits self.old.machine }
        requires memory { reply.now ≢ NoMemory }
        ensures rests { OnOk result (progress_of self.new ≡ at_rest (resumed self.old.machine.machine reply.now)) }
        ensures is_suspended { OnOk result (IsSuspended self.new) }
        ensures nearer { IfOk result (λ asks_on. IsNearer asks_on self.old.machine.machine self.new.machine.machine) }
    {
        match self.machine.step(Some(reply))? {
            Step::Ask(request) => {
                self.asks = Some(request);
                return Ok(true);
            }
            Step::Again => self.asks = run_on(&mut self.machine)?,
            Step::Stopped(_) => self.asks = None,
        }
        Ok(false)
    }
}

// Lets a machine that awaits no reply run on, until it asks or has stopped: what it asks.
fn run_on(machine: &mut Machine) -> Result<Option<SharedRequest>, AllocError>
    requires ready { machine.old.is_out_of_memory ≡ false }
    requires silent { is_awaiting machine.old.machine.state ≡ false }
    ensures rests { IfOk result (λ asks. with_asked machine.new.machine asks ≡ at_rest (silent machine.old.machine)) }
    ensures is_suspended { IfOk result (λ asks. IsSuspended (record { machine = machine.new; asks = asks })) }
    ensures nearer { OnOk result (work_left machine.new.machine ≤ work_left machine.old.machine) }
{
    loop {
        match machine.step(None)? {
            Step::Ask(request) => return Ok(Some(request)),
            Step::Again => {}
            Step::Stopped(_) => return Ok(None),
        }
    }
}
