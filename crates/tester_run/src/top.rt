//! The top call.

ghost use Rattle.std.specs.Prelude.{◌≡◌, ◌≢◌, ◌⊎◌, [], codes};
ghost use Rattle.std.specs.Io.KnownBytes.{Appends};
ghost use Rattle.outside.specs.Counts.{Rose};
ghost use Rattle.outside.specs.Streams.{AppendsFront};
ghost use Rattle.model_commands.specs.Grammar.{args_of};
ghost use Rattle.tester_run.specs.Outcomes.{IsOutcome};
ghost use Rattle.tester_run.specs.Refusals.{IsUnasked, Refuses};
ghost use Rattle.tester_run.specs.Statuses.{read_fault, write_fault, out_of_memory, IsFinal};
ghost use Rattle.tester_run.specs.Tellings.{IsTold, IsWritten};

use crate::answering::answer;
use crate::fault::Refusal;
use crate::telling::{line_fault_line, order_fault_line, pair_fault_line, tell};
use command_words::{ArgFault, ArgWords, read_args};
use dump_text::Order;
use laws_history::runs_are_legal;
use laws_prefixes::prefixes_are_apart;
use machine_runs::{Rendered, shows_short};
use outside::{Gate, Sink, Source, write_all};
use std::alloc::Global;
use std::sync::Wait;
use std::thread::Threads;

/// The words are no command.
const USAGE: u8 = 1;

/// A line of the input fits no rule or passes a limit, the order of a replay can't be followed, or a pair is no instruction.
const BAD_INPUT: u8 = 2;

/// The source failed.
const READ_FAULT: u8 = 4;

/// The sink failed.
const WRITE_FAULT: u8 = 5;

/// Memory ran out.
const OUT_OF_MEMORY: u8 = 6;

/// How a call of `tester` ended: its exit status, and the order in which requests were taken, where there is one.
#[derive(Debug, Drop)]
pub struct Outcome {
    pub status: u8,
    pub order: Order,
}

/// Does all that the program does: reads the words after the program's name and the source to its end, does what the command
/// asks over what it read, and writes what comes of it to `out`: the dump of a run or of a replay, when each watch fires, the lines
/// of a text's instructions, or the text of such lines. With `gen` it reads nothing, runs the pairs that are made for so many
/// workers by turns, and writes the summary. The fields of `IsOutcome` say what each status means.
pub fn tester<
    R: Threads + Wait + Sync + Clone + Drop + Send + 'static,
    S: Source,
    K: Sink,
    N: Sink,
    G: Gate,
>(
    rt: &R,
    alloc: Global,
    args: &ArgWords,
    source: &mut S,
    out: &mut K,
    err: &mut N,
    gate: &G,
) -> Outcome
    ensures { IsOutcome (args_of args.now) result.status result.order S.left S.faults source.old source.new
        K.written K.faults out.old out.new N.written N.faults err.old err.new }
{
    let asked = match read_args(alloc, args) {
        Ok(asked) => asked,
        Err(fault) => return without_command(alloc, err, fault),
    };
    match answer(rt, alloc, gate, &asked, source) {
        Err(refusal) => refused(alloc, err, &refusal),
        Ok(rendered) => {
            runs_are_legal();
            prefixes_are_apart();
            shows_short(&rendered.order);
            deliver(out, err, rendered)
        }
    }
}

// Tells a line on err, and ends with this status.
fn without_order<N: Sink>(alloc: Global, err: &mut N, status: u8, line: &[u8]) -> Outcome
    ensures ended { (result.status ≡ status) × (result.order ≡ []) }
    ensures told { IsWritten line.now (N.written err.old) (N.written err.new) (N.faults err.old) (N.faults err.new) }
{
    tell(err, line);
    Outcome {
        status,
        order: Order::new(alloc),
    }
}

fn out_of_memory<N: Sink>(alloc: Global, err: &mut N) -> Outcome
    ensures ended { (result.status ≡ out_of_memory) × (result.order ≡ []) }
    ensures told { IsTold (codes "out of memory") (N.written err.old) (N.written err.new) (N.faults err.old) (N.faults err.new) }
{
    without_order(alloc, err, OUT_OF_MEMORY, b"fdbtester: out of memory\n")
}

// Tells why the words are no command.
fn without_command<N: Sink>(alloc: Global, err: &mut N, fault: ArgFault) -> Outcome
    ensures order { result.order ≡ [] }
    ensures told { IsUnasked fault result.status (N.written err.old) (N.written err.new) (N.faults err.old) (N.faults err.new) }
{
    match fault {
        ArgFault::Usage => without_order(alloc, err, USAGE, b"fdbtester: usage\n"),
        ArgFault::NoMemory => out_of_memory(alloc, err),
    }
}

fn source_failed<N: Sink>(alloc: Global, err: &mut N) -> Outcome
    ensures ended { (result.status ≡ read_fault) × (result.order ≡ []) }
    ensures told { IsTold (codes "read fault") (N.written err.old) (N.written err.new) (N.faults err.old) (N.faults err.new) }
{
    without_order(alloc, err, READ_FAULT, b"fdbtester: read fault\n")
}

// Tells why nothing is rendered. Where there is no memory for the line of a fault, that is told.
fn refused<N: Sink>(alloc: Global, err: &mut N, refusal: &Refusal) -> Outcome
    ensures order { result.order ≡ [] }
    ensures told { Refuses refusal.now result.status (N.written err.old) (N.written err.new) (N.faults err.old) (N.faults err.new) }
{
    let line = match refusal {
        Refusal::Source => return source_failed(alloc, err),
        Refusal::Memory => return out_of_memory(alloc, err),
        Refusal::Line(fault) => line_fault_line(alloc, *fault),
        Refusal::Order(fault) => order_fault_line(alloc, *fault),
        Refusal::Pair(fault) => pair_fault_line(alloc, *fault),
    };
    match line {
        Ok(line) => without_order(alloc, err, BAD_INPUT, line.as_slice()),
        Err(_) => out_of_memory(alloc, err),
    }
}

// Writes what was rendered. Where the sink fails, a front of it is written, and that is told.
fn deliver<K: Sink, N: Sink>(out: &mut K, err: &mut N, rendered: Rendered) -> Outcome
    requires { IsFinal rendered.status }
    ensures order { result.order ≡ rendered.order }
    ensures status { (result.status ≡ rendered.status) ⊎ (result.status ≡ write_fault) }
    ensures written { result.status ≢ write_fault → Appends (K.written out.old) (K.written out.new) rendered.output.items }
    ensures front { result.status ≡ write_fault → AppendsFront (K.written out.old) (K.written out.new) rendered.output.items }
    ensures cause { result.status ≡ write_fault → Rose (K.faults out.old) (K.faults out.new) }
    ensures quiet { result.status ≢ write_fault → err.new ≡ err.old }
    ensures told { result.status ≡ write_fault
        → IsTold (codes "write fault") (N.written err.old) (N.written err.new) (N.faults err.old) (N.faults err.new) }
{
    if write_all(out, rendered.output.as_slice()) {
        return Outcome {
            status: rendered.status,
            order: rendered.order,
        };
    }
    tell(err, b"fdbtester: write fault\n");
    Outcome {
        status: WRITE_FAULT,
        order: rendered.order,
    }
}
