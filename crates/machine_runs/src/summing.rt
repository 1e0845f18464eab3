//! The summary of a run.

ghost use Rattle.std.specs.Prelude.{◌≡◌, ◌++◌, length, IfOk, OnOk};
ghost use Rattle.machine_runs.specs.Dumps.{count_at, newest_pairs, summary_of, total_at};
ghost use Rattle.machine_runs.specs.Summaries.{summary_line};

use client_core::Core;
use dump_text::Order;
use itoa::Buffer;
use std::alloc::{AllocError, Global};
use suspended_machine::SuspendedMachine;

/// What is counted of each machine.
#[derive(Clone, Copy, Debug, PartialEq, Eq)]
pub enum Counted {
    /// The instructions that it was started with.
    Instructions,
    /// The errors that it noted.
    Errors,
    /// The items on its stack.
    Items,
}

/// Counts up the summary of machines that have stopped, of the order, and of the map at the last version. It is
/// refused for want of memory alone, which a count past 64 bits is too.
#[tactic(auto, unfolding(crate::specs::Dumps::summary_of))]
pub fn summarize(
    alloc: Global,
    suspended_machines: &[SuspendedMachine],
    order: &Order,
    core: &Core,
) -> Result<Vec<u8>, AllocError>
    ensures { IfOk result (λ summary. summary.items ≡ summary_of suspended_machines.now order.now core.now.store) }
{
    let mut summary = Vec::new(alloc);
    add_line(&mut summary, b"machines", suspended_machines.len() as u64)?;
    add_line(
        &mut summary,
        b"instructions",
        total(suspended_machines, Counted::Instructions)?,
    )?;
    add_line(&mut summary, b"requests", order.len() as u64)?;
    add_line(&mut summary, b"commits", core.last())?;
    add_line(
        &mut summary,
        b"errors",
        total(suspended_machines, Counted::Errors)?,
    )?;
    add_line(
        &mut summary,
        b"items",
        total(suspended_machines, Counted::Items)?,
    )?;
    add_line(&mut summary, b"keys", key_count(core)?)?;
    Ok(summary)
}

// Adds the line of a count.
fn add_line(to: &mut Vec<u8>, name: &[u8], count: u64) -> Result<(), AllocError>
    ensures { OnOk result (to.new.items ≡ to.old.items ++ summary_line name.now count) }
{
    let mut buffer = Buffer::new();
    to.extend_from_slice(name)?;
    to.extend_from_slice(b" ")?;
    to.extend_from_slice(buffer.format(count).as_bytes())?;
    to.push(b'\n')?;
    Ok(())
}

// How many of these a machine has.
fn count_in(suspended: &SuspendedMachine, which: Counted) -> usize
    ensures { result ≡ count_at which suspended.now }
{
    match which {
        Counted::Instructions => suspended.machine.instruction_count(),
        Counted::Errors => suspended.machine.errors().len(),
        Counted::Items => suspended.machine.stack().as_slice().len(),
    }
}

// How many all machines have.
fn total(suspended_machines: &[SuspendedMachine], which: Counted) -> Result<u64, AllocError>
    ensures { IfOk result (λ total. total ≡ total_at which suspended_machines.now) }
{
    let mut total: u64 = 0;
    for suspended in suspended_machines {
        total = total
            .checked_add(count_in(suspended, which) as u64)
            .ok_or(AllocError)?;
    }
    Ok(total)
}

// How many keys have a value.
fn key_count(core: &Core) -> Result<u64, AllocError>
    ensures { IfOk result (λ count. count ≡ length (newest_pairs core.now.store)) }
{
    let mut count: u64 = 0;
    for _pair in core.pairs_left() {
        count = count.checked_add(1).ok_or(AllocError)?;
    }
    Ok(count)
}
