//! Rendering the dump of a run.

ghost use Rattle.std.specs.Prelude.{◌≡◌, ℕ, ◌++◌, [], length, IfOk, OnOk};
ghost use Rattle.std.specs.List.{flat_map};
ghost use Rattle.model_lines.specs.Printing.{order_line};
ghost use Rattle.model_machine.specs.Calls.{item_bytes};
ghost use Rattle.model_machine.specs.Runs.{end_line, stack_lines, error_lines};
ghost use Rattle.model_lines.specs.Inputs.{pair_lines};
ghost use Rattle.machine_runs.specs.Dumps.{dump_of, newest_pairs, suspended_end, suspended_errors, suspended_stack};

use client_core::Core;
use dump_text::{
    EndWord, Order, write_error_line, write_item_line, write_machine_line, write_order_line,
    write_pair_line,
};
use fdb_tuple::pack_element_into;
use model_machine::ItemValue;
use stack_machine::{End, Machine, State};
use std::alloc::{AllocError, Global};
use suspended_machine::SuspendedMachine;

/// Renders the dump of machines that have stopped, of the order, and of the pairs of the map at the last
/// version. Room for so many bytes is asked for at once, so that a long dump is moved seldom; where there is no
/// memory for it, the dump grows from nothing.
#[tactic(auto, unfolding(crate::specs::Dumps::dump_of))]
pub fn render(
    alloc: Global,
    suspended_machines: &[SuspendedMachine],
    order: &Order,
    core: &Core,
    room: usize,
) -> Result<Vec<u8>, AllocError>
    ensures { IfOk result (λ dump. dump.items ≡ dump_of suspended_machines.now order.now (newest_pairs core.now.store)) }
{
    let mut dump = with_room(alloc, room);
    add_end_lines(&mut dump, suspended_machines)?;
    add_stacks(alloc, &mut dump, suspended_machines)?;
    add_errors(&mut dump, suspended_machines)?;
    add_order_lines(&mut dump, order)?;
    add_pair_lines(&mut dump, core)?;
    Ok(dump)
}

// No bytes, with room for so many, if there is memory for it.
fn with_room(alloc: Global, room: usize) -> Vec<u8>
    ensures { result.items ≡ [] }
{
    match Vec::with_capacity(alloc, room) {
        Ok(bytes) => bytes,
        Err(_) => Vec::new(alloc),
    }
}

fn add_end_lines(
    to: &mut Vec<u8>,
    suspended_machines: &[SuspendedMachine],
) -> Result<(), AllocError>
    ensures { OnOk result (to.new.items ≡ to.old.items ++ flat_map suspended_end suspended_machines.now) }
{
    for suspended in suspended_machines {
        add_end_line(to, &suspended.machine)?;
    }
    Ok(())
}

fn add_stacks(
    alloc: Global,
    to: &mut Vec<u8>,
    suspended_machines: &[SuspendedMachine],
) -> Result<(), AllocError>
    ensures { OnOk result (to.new.items ≡ to.old.items ++ flat_map suspended_stack suspended_machines.now) }
{
    for suspended in suspended_machines {
        add_stack_lines(alloc, to, &suspended.machine)?;
    }
    Ok(())
}

fn add_errors(to: &mut Vec<u8>, suspended_machines: &[SuspendedMachine]) -> Result<(), AllocError>
    ensures { OnOk result (to.new.items ≡ to.old.items ++ flat_map suspended_errors suspended_machines.now) }
{
    for suspended in suspended_machines {
        add_error_lines(to, &suspended.machine)?;
    }
    Ok(())
}

fn add_end_line(to: &mut Vec<u8>, machine: &Machine) -> Result<(), AllocError>
    ensures { OnOk result (to.new.items ≡ to.old.items ++ end_line machine.now.machine machine.now.machine.state) }
{
    match machine.state() {
        State::Running | State::Awaiting(_) => Ok(()),
        State::Stopped(end) => add_end(to, machine, *end),
    }
}

fn add_end(to: &mut Vec<u8>, machine: &Machine, end: End) -> Result<(), AllocError>
    ensures { OnOk result (to.new.items ≡ to.old.items ++ end_line machine.now.machine (State.Stopped end)) }
{
    let number = machine.number();
    let prefix = machine.prefix().as_slice();
    match end {
        End::Ended => {
            let count = machine.instruction_count() as u64;
            write_machine_line(to, number, EndWord::Ended, count, prefix)
        }
        End::BadInstruction(instruction) => {
            write_machine_line(to, number, EndWord::BadInstruction, instruction, prefix)
        }
        End::Underflow(instruction) => {
            write_machine_line(to, number, EndWord::Underflow, instruction, prefix)
        }
        End::WaitBound(instruction) => {
            write_machine_line(to, number, EndWord::WaitBound, instruction, prefix)
        }
        End::MachineLimit(instruction) => {
            write_machine_line(to, number, EndWord::MachineLimit, instruction, prefix)
        }
    }
}

fn add_stack_lines(alloc: Global, to: &mut Vec<u8>, machine: &Machine) -> Result<(), AllocError>
    ensures { OnOk result (to.new.items ≡ to.old.items ++ stack_lines machine.now.machine) }
{
    let number = machine.number();
    let items = machine.stack().as_slice();
    let mut packed = Vec::new(alloc);
    for (place, item) in items.iter().enumerate() {
        packed.clear();
        add_item_bytes(&mut packed, &item.value)?;
        write_item_line(to, number, place as u64, item.instruction, &packed)?;
    }
    Ok(())
}

// The packed bytes of an item; of one that waits the byte `*`.
fn add_item_bytes(to: &mut Vec<u8>, value: &ItemValue) -> Result<(), AllocError>
    ensures { OnOk result (to.new.items ≡ to.old.items ++ item_bytes value.now) }
{
    match value {
        ItemValue::Known(element) => pack_element_into(to, element),
        ItemValue::Waits(_) => to.extend_from_slice(b"*"),
    }
}

fn add_error_lines(to: &mut Vec<u8>, machine: &Machine) -> Result<(), AllocError>
    ensures { OnOk result (to.new.items ≡ to.old.items ++ error_lines machine.now.machine) }
{
    let number = machine.number();
    for note in machine.errors().as_slice() {
        write_error_line(to, number, note.instruction, note.word.as_slice())?;
    }
    Ok(())
}

fn add_order_lines(to: &mut Vec<u8>, order: &Order) -> Result<(), AllocError>
    ensures { OnOk result (to.new.items ≡ to.old.items ++ flat_map order_line order.now) }
{
    for machine in order.as_slice() {
        write_order_line(to, *machine)?;
    }
    Ok(())
}

fn add_pair_lines(to: &mut Vec<u8>, core: &Core) -> Result<(), AllocError>
    ensures { OnOk result (to.new.items ≡ to.old.items ++ pair_lines (newest_pairs core.now.store)) }
{
    for (key, value) in core.pairs_left() {
        write_pair_line(to, key.as_slice(), value.as_slice())?;
    }
    Ok(())
}
