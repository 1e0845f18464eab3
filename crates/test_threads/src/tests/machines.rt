//! Machines that start machines.

ghost use Rattle.std.specs.Prelude.{◌≡◌, IfOk};
ghost use Rattle.request_line.specs.History.{first_history};
ghost use Rattle.request_line.specs.Line.{history};
ghost use Rattle.threaded_machine.specs.Threaded.{history_of, IsRunning};

use fdb_calls::{Reply, Request};
use future_cell::{Receipt, Wake};
use key_bytes::{Bytes, Pair, Pairs};
use machine_threads::{ThreadedMachine, run_machine};
use model_database::Api;
use model_machine::MachineOptions;
use network::{Post, Service, serve};
use outside::OpenGate;
use request_line::{Receiver, Sender, open};
use std::alloc::{AllocError, Global};
use std::sync::Wait;
use std::test::Fail;
use std::thread;
use std::thread::Threads;
use suspended_machine::start;

// A service that answers each request that a machine of this number was started, or that it has no memory.
#[derive(Drop)]
struct Starts {
    alloc: Global,
    machine: Option<u16>,
}

impl Service for Starts {
    ghost use Rattle.std.specs.Prelude.{⊤};

    ghost answers = { λ before machine request reply after. ⊤ };

    ghost notes = { λ before receipt after. ⊤ };

    fn answer(&mut self, _machine: u16, _request: &Request) -> Reply {
        match self.machine {
            Some(machine) => Reply::Started {
                machine,
                instructions: Pairs::new(self.alloc),
            },
            None => Reply::NoMemory,
        }
    }

    fn note_refused(&mut self, _receipt: Receipt<Reply, Wake>) {}
}

// How many machines came back, whether the run was cut short, and how many machines were started as the service saw it.
#[derive(Clone, Copy, Debug, PartialEq, Eq)]
struct Came {
    back: usize,
    is_cut: bool,
    machines: u64,
}

// Instructions that start a machine under the prefix `q`.
fn starting(alloc: Global) -> Result<Pairs, AllocError> {
    let mut instructions = Pairs::new(alloc);
    for text in [b"\x02PUSH\x00\x01q\x00".as_slice(), b"\x02START_THREAD\x00"] {
        let key = Bytes::new(alloc);
        let value = Bytes::from_slice(alloc, text)?;
        instructions.push(Pair { key, value })?;
    }
    Ok(instructions)
}

const OPTIONS: MachineOptions = MachineOptions {
    api: Api::V630,
    polls: 3,
};

// Machine 0 with these instructions.
fn first_machine(alloc: Global, sender: Sender<Post>) -> Result<ThreadedMachine, AllocError>
    requires { history sender ≡ first_history }
    ensures running { IfOk result IsRunning }
    ensures history { IfOk result (λ machine. history_of machine ≡ first_history) }
{
    let prefix = Bytes::from_slice(alloc, b"p")?;
    let suspended = start(alloc, 0, prefix, OPTIONS, starting(alloc)?)?;
    Ok(ThreadedMachine::new(alloc, suspended, sender))
}

// Answers until all machines are over: how many were started.
fn answer_all<R: Wait>(
    rt: &R,
    alloc: Global,
    mut receiver: Receiver<Post>,
    machine: Option<u16>,
) -> u64 {
    let mut starts = Starts { alloc, machine };
    serve(rt, alloc, &mut receiver, &mut starts).machines
}

// Runs machine 0, while another thread answers.
fn run_over<R: Threads + Wait + Copy + Send + Sync + 'static>(
    rt: R,
    alloc: Global,
    machine: Option<u16>,
) -> Result<Came, AllocError> {
    let (sender, receiver) = open::<Post>(alloc, 4)?;
    let first = first_machine(alloc, sender)?;
    let serving = thread::spawn(&rt, move || answer_all(&rt, alloc, receiver, machine))?;
    let ran = run_machine(&rt, alloc, &OpenGate, first, 0);
    let machines = serving.join(&rt);
    Ok(Came {
        back: ran.crew.listed(alloc)?.len(),
        is_cut: ran.is_cut,
        machines,
    })
}

// The service's thread ends only where as many Overs were posted as machines were started.
#[test]
fn each_machine_that_was_started_is_over(rt: HostRuntime) -> Result<(), Fail> {
    let came = |back, is_cut, machines| Came {
        back,
        is_cut,
        machines,
    };
    assert_eq!(rt; run_over(rt, rt.alloc(), Some(1))?, came(2, false, 2));
    assert_eq!(rt; run_over(rt, rt.alloc(), None)?, came(1, true, 1));
    assert_eq!(rt; run_over(rt, rt.alloc(), Some(0))?, came(1, true, 2));
    Ok(())
}
