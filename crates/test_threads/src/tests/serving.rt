//! A machine that asks a service with no memory. Runs in threads have machines that are answered.

ghost use Rattle.std.specs.Prelude.{◌≡◌};
ghost use Rattle.future_cell.specs.declared.callback.Registered.TheVariants.{No};
ghost use Rattle.future_cell.specs.Cells.{registration};

use fdb_calls::{Reply, Request, SharedRequest};
use future_cell::{Receipt, Wake};
use network::{Asked, Client, Post, Service, serve};
use request_line::open;
use std::alloc::{AllocError, Global};
use std::sync::Wait;
use std::test::Fail;

fn is_no_memory(reply: &Reply) -> bool {
    matches!(reply, Reply::NoMemory)
}

// A service that has no memory.
#[derive(Drop)]
struct Broken {
    asked: u64,
    refused: u64,
}

impl Service for Broken {
    ghost use Rattle.std.specs.Prelude.{◌≡◌};
    ghost use Rattle.fdb_calls.specs.declared.Reply.TheVariants.{NoMemory};

    ghost answers = { λ before machine request reply after. reply ≡ NoMemory };

    ghost notes = { λ before receipt after. after.asked ≡ before.asked };

    fn answer(&mut self, _machine: u16, _request: &Request) -> Reply {
        self.asked = self.asked.saturating_add(1);
        Reply::NoMemory
    }

    fn note_refused(&mut self, _receipt: Receipt<Reply, Wake>) {
        self.refused = self.refused.saturating_add(1);
    }
}

// Waits for a reply: whether there was no memory.
fn is_refused<R: Wait>(rt: &R, asked: Asked) -> bool
    requires { registration asked.waiter ≡ No }
{
    let Asked {
        mut waiter,
        wake,
        sleeper,
    } = asked;
    is_no_memory(waiter.wait(rt, wake, sleeper))
}

// Whether a machine that asks a service with no memory twice is refused, and what was served.
#[derive(Clone, Copy, Debug, PartialEq, Eq)]
struct Short {
    refused: (bool, bool),
    short: bool,
    // How many requests the service was asked, and how many receipts it was given beside.
    asked: u64,
    noted: u64,
    machines: u64,
}

fn run_short<R: Wait>(rt: &R, alloc: Global) -> Result<Short, AllocError> {
    let (sender, mut receiver) = open::<Post>(alloc, 4)?;
    let mut client = Client::new(0, sender);
    let first = SharedRequest::new(alloc, Request::PollStamp { life: 0 })?;
    let second = SharedRequest::new(alloc, Request::PollStamp { life: 1 })?;
    let first = client.call(rt, alloc, first)?;
    let second = client.call(rt, alloc, second)?;
    client.over(rt, 0);
    let mut broken = Broken {
        asked: 0,
        refused: 0,
    };
    let served = serve(rt, alloc, &mut receiver, &mut broken);
    Ok(Short {
        refused: (is_refused(rt, first), is_refused(rt, second)),
        short: served.short,
        asked: broken.asked,
        noted: broken.refused,
        machines: served.machines,
    })
}

#[test]
fn once_memory_runs_out_the_service_is_asked_no_more(rt: HostRuntime) -> Result<(), Fail> {
    let wanted = Short {
        refused: (true, true),
        short: true,
        asked: 1,
        noted: 1,
        machines: 1,
    };
    assert_eq!(rt; run_short(&rt, rt.alloc())?, wanted);
    Ok(())
}
