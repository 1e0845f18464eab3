//! A run by an order that is given.

ghost use Rattle.std.specs.Prelude.{◌≡◌, [], IfOk, IfErr, OnOk};
ghost use Rattle.machine_runs.specs.Driving.{GoesOn, IsGoing};
ghost use Rattle.machine_runs.specs.Following.{HasFollowed};
ghost use Rattle.machine_runs.specs.Misfits.{IsMisfit};
ghost use Rattle.machine_runs.specs.Outputs.{Renders};

use crate::driving::{asks, first_asking, take};
use crate::fault::OrderFault;
use crate::running::{Rendered, first_suspended_machines, rendered_of};
use client_core::Core;
use command_words::RunArgs;
use dump_text::{Input, Order};
use outside::{PcgWords, Words};
use std::alloc::{AllocError, Global};
use suspended_machine::SuspendedMachine;

/// Runs machine 0 over the pairs of an input as the arguments say, and each machine that is started, by the order of the
/// input, and renders the dump. It is refused where the machine that the order names at a place has no request there, where a
/// machine has one at its end, and for want of memory.
pub fn replay(alloc: Global, arguments: &RunArgs, input: Input) -> Result<Rendered, OrderFault>
    ensures renders { IfOk result (Renders input.pairs arguments.now) }
    ensures order { IfOk result (λ rendered. rendered.order ≡ input.order) }
    ensures refused { IfErr result (λ fault. IsMisfit fault input.pairs arguments.now input.order) }
{
    let Input {
        order: given,
        pairs,
    } = input;
    let loaded = pairs.len();
    let mut core = Core::load(alloc, arguments, pairs)?;
    let mut suspended_machines = first_suspended_machines(alloc, arguments, &core)?;
    let mut words = PcgWords::new(arguments.seed);
    let mut order = Order::new(alloc);
    let stopped = follow(
        alloc,
        &mut core,
        &mut words,
        &mut suspended_machines,
        &mut order,
        given.as_slice(),
    )?;
    if let Some(fault) = stopped {
        return Err(fault);
    }
    if first_asking(&suspended_machines, 0).is_some() {
        return Err(OrderFault::EndsEarly);
    }
    Ok(rendered_of(alloc, core, suspended_machines, order, loaded)?)
}

// Takes the requests of the machines that an order names, one after the other, up to one that has none: why it stopped there.
fn follow<W: Words>(
    alloc: Global,
    core: &mut Core,
    words: &mut W,
    suspended_machines: &mut Vec<SuspendedMachine>,
    order: &mut Order,
    given: &[u16],
) -> Result<Option<OrderFault>, AllocError>
    requires going { IsGoing core.old suspended_machines.old.items order.old }
    requires begins { order.old ≡ [] }
    ensures goes_on { OnOk result (GoesOn core.old (W.words words.old) suspended_machines.old.items order.old
        core.new (W.words words.new) suspended_machines.new.items order.new) }
    ensures going { OnOk result (IsGoing core.new suspended_machines.new.items order.new) }
    ensures followed { IfOk result (λ stopped. HasFollowed stopped given.now order.new suspended_machines.new.items) }
{
    for machine in given {
        let number = usize::from(*machine);
        if !asks(suspended_machines, number) {
            let place = order.len() as u64 + 1;
            let machine = *machine;
            return Ok(Some(OrderFault::NoRequest { place, machine }));
        }
        take(alloc, core, words, suspended_machines, order, number)?;
    }
    Ok(None)
}
