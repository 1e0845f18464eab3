//! A machine and those that it starts, each in its thread.

ghost use Rattle.std.specs.Prelude.{◌≡◌, ◌≤◌, ◌<◌, ◌+◌, ◌++◌, true, false};
ghost use Rattle.std.specs.Thread.{IsSync};
ghost use Rattle.model_machine.specs.declared.TheConstants.{MACHINES};
ghost use Rattle.suspended_machine.specs.SuspendedMachines.{progress_of, IsSuspended};
ghost use Rattle.threaded_machine.specs.Threaded.{history_of, machine_in, replies_to, overs_of, owed_of, starts_to, IsRunning, IsStartedBy};
ghost use Rattle.machine_threads.specs.Crews.{machines_in, overs_of_all, starts_to_all, AreOver};
ghost use Rattle.machine_threads.specs.Teams.{IsTeamOf};

use crate::crew::{Crew, Places};
use model_machine::MACHINES;
use outside::Gate;
use std::alloc::Global;
use std::sync::Wait;
use std::thread::{Threads, join};
use suspended_machine::SuspendedMachine;
use threaded_machine::{Refused, ThreadedMachine};

/// What a machine and those that were run beside it have come to.
#[derive(Drop)]
pub struct Ran {
    pub crew: Crew,
    /// Whether the run was cut short: not each machine that was started ran to its end.
    pub is_cut: bool,
}

/// Runs a machine, and beside it each machine that it starts, and those that these start. The number of each that is started is to be
/// greater than `newest`, the greatest that was seen. All of them come back, also where not each ran to its end. Together they have
/// posted one Over, and one for each machine that a reply to them said was started meanwhile.
#[cycle(machines)]
pub fn run_machine<R: Threads + Wait + Sync, G: Gate>(
    rt: &R,
    alloc: Global,
    gate: &G,
    machine: ThreadedMachine,
    newest: u16,
) -> Ran
    requires running { IsRunning machine }
    requires newest { newest < MACHINES }
    requires room { MACHINES ≤ (history_of machine).room + newest + 1 }
    ensures team { result.is_cut ≡ false → IsTeamOf machine (machines_in result.crew) }
    ensures over { AreOver 1 machine (machines_in result.crew) }
{
    let mut machine = machine;
    match machine.run_until_started(rt, alloc, gate) {
        Ok(Some(suspended)) => run_beside(rt, alloc, gate, machine, suspended, newest),
        Ok(None) => {
            machine.end(rt);
            Ran {
                crew: Crew::One(machine),
                is_cut: false,
            }
        }
        Err(refused) => given_up(rt, machine, refused),
    }
}

// A machine runs on, and beside it one that it started.
#[cycle(machines)]
fn run_beside<R: Threads + Wait + Sync, G: Gate>(
    rt: &R,
    alloc: Global,
    gate: &G,
    machine: ThreadedMachine,
    suspended: SuspendedMachine,
    newest: u16,
) -> Ran
    requires running { IsRunning machine }
    requires newest { newest < MACHINES }
    requires room { MACHINES ≤ (history_of machine).room + newest + 1 }
    requires is_suspended { IsSuspended suspended }
    requires unposted { overs_of machine ≡ 0 }
    requires started { IsStartedBy (history_of machine).posted (replies_to machine) (machine_in machine).options (progress_of suspended) }
    ensures team { result.is_cut ≡ false → IsTeamOf machine (machines_in result.crew) }
    ensures over { AreOver 2 machine (machines_in result.crew) }
{
    let mut machine = machine;
    let number = suspended.machine.number();
    let refused = Refused { owed: Some(number) };
    if number <= newest || usize::from(number) >= MACHINES {
        return given_up(rt, machine, refused);
    }
    let Ok(places) = Places::new(alloc) else {
        return given_up(rt, machine, refused);
    };
    let other = match machine.fork(alloc, suspended) {
        Ok(other) => other,
        Err(_) => return given_up(rt, machine, refused),
    };
    let (own, others) = join(
        rt,
        move || -> Ran
            requires sync { IsSync R.row × IsSync G.row }
            requires running { IsRunning machine }
            requires newest { number < MACHINES }
            requires room { MACHINES ≤ (history_of machine).room + number + 1 }
            ensures team { result.is_cut ≡ false → IsTeamOf machine (machines_in result.crew) }
            ensures over { AreOver 1 machine (machines_in result.crew) }
        { run_machine(rt, alloc, gate, machine, number) },
        move || -> Ran
            requires sync { IsSync R.row × IsSync G.row }
            requires running { IsRunning other }
            requires newest { number < MACHINES }
            requires room { MACHINES ≤ (history_of other).room + number + 1 }
            ensures team { result.is_cut ≡ false → IsTeamOf other (machines_in result.crew) }
            ensures over { AreOver 1 other (machines_in result.crew) }
        { run_machine(rt, alloc, gate, other, number) },
    );
    together(places, own, others)
}

// Posts the Over of a machine that can't go on, and before it the one that it owes, if it owes one.
fn given_up<R: Wait>(rt: &R, machine: ThreadedMachine, refused: Refused) -> Ran
    ensures cut { result.is_cut ≡ true }
    ensures overs { overs_of_all (machines_in result.crew) ≡ overs_of machine + 1 + owed_of refused }
    ensures starts { starts_to_all (machines_in result.crew) ≡ starts_to machine }
{
    let mut machine = machine;
    machine.give_up(rt, refused);
    Ran {
        crew: Crew::One(machine),
        is_cut: true,
    }
}

// Two crews as one.
fn together(places: Places, own: Ran, others: Ran) -> Ran
    ensures crew { machines_in result.crew ≡ machines_in own.crew ++ machines_in others.crew }
    ensures own { result.is_cut ≡ false → own.is_cut ≡ false }
    ensures others { result.is_cut ≡ false → others.is_cut ≡ false }
{
    Ran {
        crew: places.keep(own.crew, others.crew),
        is_cut: own.is_cut || others.is_cut,
    }
}
