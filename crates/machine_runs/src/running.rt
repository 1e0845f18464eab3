//! Runs by turns, and what is rendered of the end of a run.

ghost use Rattle.std.specs.Prelude.{◌≡◌, ◌∷◌, [], length, if◌then◌else◌, IfOk};
ghost use Rattle.std.specs.List.{list_all};
ghost use Rattle.model_machine.specs.Runs.{has_ended, AreByTurns};
ghost use Rattle.suspended_machine.specs.SuspendedMachines.{IsSuspended};
ghost use Rattle.machine_runs.specs.Arguments.{gen_arguments};
ghost use Rattle.outside.specs.Seeds.{words_from};
ghost use Rattle.machine_runs.specs.Driving.{AreFirst, EndsByTurnsFrom, IsFirst, IsStarted};
ghost use Rattle.machine_runs.specs.Dumps.{dump_of, newest_pairs, summary_of};
ghost use Rattle.machine_runs.specs.Outputs.{Summarizes};

use crate::driving::drive;
use crate::dumping::render;
use crate::summing::summarize;
use client_core::Core;
use command_words::RunArgs;
use dump_text::Order;
use key_bytes::{Bytes, Pairs};
use model_database::Api;
use model_machine::machine_options;
use outside::PcgWords;
use stack_machine::{End, State};
use std::alloc::{AllocError, Global};
use std::mem::forget;
use suspended_machine::{SuspendedMachine, start_with};

/// Every machine ended after its last instruction.
const ENDED: u8 = 0;

/// Every machine has ended, and one of them otherwise than after its last instruction.
const CUT_SHORT: u8 = 3;

/// The prefix under which `gen` has main's instructions.
const MAIN_PREFIX: &[u8] = b"g";

/// The seed of the random words of `gen`.
const GEN_SEED: u64 = 0;

/// How many polls a wait of `gen` has: as many as where a command line doesn't say it.
const GEN_POLLS: u32 = 10_000;

/// For how many bytes a dump begins with room, for each pair that was loaded: more than its line mostly has, and the lines of what
/// the instruction in it asks. The system gives memory for a page of it when the page is first written, while a room that is too
/// small by little is written twice.
const PAIR_ROOM: usize = 64;

/// What a run writes, before any of it is written: its dump or its summary, its order and its exit status.
#[derive(Debug, Drop)]
pub struct Rendered {
    pub output: Vec<u8>,
    pub order: Order,
    pub status: u8,
}

/// What stands at the end of a run.
#[derive(Drop)]
pub struct Ended {
    pub core: Core,
    pub suspended_machines: Vec<SuspendedMachine>,
    pub order: Order,
}

/// Runs the pairs of `gen` by turns, and renders the summary. The memory of the core and of the machines isn't given back, as in
/// `rendered_of`.
pub fn generate(alloc: Global, pairs: Pairs) -> Result<Rendered, AllocError>
    ensures summarizes { IfOk result (Summarizes pairs gen_arguments) }
    ensures turns { IfOk result (λ rendered. AreByTurns pairs gen_arguments rendered.order) }
{
    let arguments = gen_arguments(alloc)?;
    let core = Core::load(alloc, &arguments, pairs)?;
    let words = PcgWords::new(arguments.seed);
    let suspended = first_suspended(alloc, &arguments, &core)?;
    let ended = run_by_turns(alloc, core, words, suspended)?;
    summary_of(alloc, ended.core, ended.suspended_machines, ended.order)
}

// The arguments of the run of `gen`.
fn gen_arguments(alloc: Global) -> Result<RunArgs, AllocError>
    ensures { IfOk result (λ arguments. arguments ≡ gen_arguments) }
{
    let prefix = Bytes::from_slice(alloc, MAIN_PREFIX)?;
    Ok(RunArgs {
        prefix,
        api: Api::V630,
        seed: GEN_SEED,
        polls: GEN_POLLS,
        window: None,
    })
}

/// Runs machine 0 at its suspended machine, over a core that has taken no request, and each machine that is started, by turns,
/// until all have ended.
pub fn run_by_turns(
    alloc: Global,
    core: Core,
    words: PcgWords,
    suspended: SuspendedMachine,
) -> Result<Ended, AllocError>
    requires is_suspended { IsSuspended suspended }
    requires unapplied { core.applied ≡ 0 }
    requires alone { length core.started ≡ 1 }
    ensures { IfOk result (EndsByTurnsFrom core (words_from words) suspended) }
{
    let mut core = core;
    let mut words = words;
    let mut suspended_machines = alone(alloc, suspended)?;
    let mut order = Order::new(alloc);
    let mut from = 0;
    drive(
        alloc,
        &mut core,
        &mut words,
        &mut suspended_machines,
        &mut order,
        &mut from,
    )?;
    Ok(Ended {
        core,
        suspended_machines,
        order,
    })
}

// One machine alone.
fn alone(alloc: Global, suspended: SuspendedMachine) -> Result<Vec<SuspendedMachine>, AllocError>
    ensures { IfOk result (λ suspended_machines. suspended_machines.items ≡ suspended ∷ []) }
{
    let mut suspended_machines = Vec::new(alloc);
    suspended_machines.push(suspended)?;
    Ok(suspended_machines)
}

// The summary of what stands at the end of a run.
fn summary_of(
    alloc: Global,
    core: Core,
    suspended_machines: Vec<SuspendedMachine>,
    order: Order,
) -> Result<Rendered, AllocError>
    ensures order { IfOk result (λ rendered. rendered.order ≡ order) }
    ensures summary { IfOk result (λ rendered. rendered.output.items ≡ summary_of suspended_machines.items order core.store) }
    ensures status { IfOk result (λ rendered. rendered.status ≡ 0) }
{
    let output = summarize(alloc, &suspended_machines, &order, &core)?;
    forget(core);
    forget(suspended_machines);
    Ok(Rendered {
        output,
        order,
        status: ENDED,
    })
}

/// Renders what stands at the end of a run over so many pairs. The memory of the core and of the machines isn't
/// given back then, which would be a walk through all of it: the program is about to end.
pub fn rendered_of(
    alloc: Global,
    core: Core,
    suspended_machines: Vec<SuspendedMachine>,
    order: Order,
    loaded: usize,
) -> Result<Rendered, AllocError>
    ensures order { IfOk result (λ rendered. rendered.order ≡ order) }
    ensures dump { IfOk result (λ rendered. rendered.output.items ≡ dump_of suspended_machines.items order (newest_pairs core.store)) }
    ensures status { IfOk result (λ rendered. rendered.status
        ≡ (if list_all (λ suspended. has_ended suspended.machine.machine.state) suspended_machines.items then 0 else 3)) }
{
    let room = loaded.saturating_mul(PAIR_ROOM);
    let output = render(alloc, &suspended_machines, &order, &core, room)?;
    let status = status_of(&suspended_machines);
    forget(core);
    forget(suspended_machines);
    Ok(Rendered {
        output,
        order,
        status,
    })
}

/// Starts machine 0, at its suspended machine.
pub fn first_suspended(
    alloc: Global,
    arguments: &RunArgs,
    core: &Core,
) -> Result<SuspendedMachine, AllocError>
    ensures started { IfOk result (λ suspended. IsStarted suspended arguments.now core.now) }
    ensures first { IfOk result (λ suspended. IsFirst suspended arguments.now core.now) }
    ensures is_suspended { IfOk result IsSuspended }
{
    let instructions = core.instructions(arguments.prefix.as_slice())?;
    let prefix = arguments.prefix.copy()?;
    let suspended = start_with(alloc, 0, prefix, machine_options(arguments), instructions)?;
    Ok(suspended)
}

/// Starts machine 0, at the only suspended machine.
pub fn first_suspended_machines(
    alloc: Global,
    arguments: &RunArgs,
    core: &Core,
) -> Result<Vec<SuspendedMachine>, AllocError>
    ensures { IfOk result (λ suspended_machines. AreFirst suspended_machines.items arguments.now core.now) }
{
    let suspended = first_suspended(alloc, arguments, core)?;
    alone(alloc, suspended)
}

fn status_of(suspended_machines: &[SuspendedMachine]) -> u8
    ensures { result ≡ (if list_all (λ suspended. has_ended suspended.machine.machine.state) suspended_machines.now then 0 else 3) }
{
    for suspended in suspended_machines {
        if !has_ended(suspended) {
            return CUT_SHORT;
        }
    }
    ENDED
}

// Whether a machine ended after its last instruction.
fn has_ended(suspended: &SuspendedMachine) -> bool
    ensures { result ≡ has_ended suspended.now.machine.machine.state }
{
    matches!(suspended.machine.state(), State::Stopped(End::Ended))
}
