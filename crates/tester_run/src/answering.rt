//! What each command answers over what the source has.

ghost use Rattle.std.specs.Prelude.{◌≡◌, ◌≤◌, [], false, IfOk, IfErr, OnOk};
ghost use Rattle.std.specs.Io.KnownBytes.{IsAtEnd};
ghost use Rattle.tester_run.specs.Answering.{HasFewWorkers, IsMade, IsRefusedBy, IsUnfit, IsUnread, WereRead};
ghost use Rattle.tester_run.specs.Arguments.{reads_input};
ghost use Rattle.tester_run.specs.Inputs.{ReadsWithin};
ghost use Rattle.tester_run.specs.Rendered.{IsOfGen, IsRead};

use crate::fault::Refusal;
use command_words::{Args, RunArgs};
use dump_text::{Form, Input, Order, read_lines};
use generator::gen_pairs;
use machine_runs::{Rendered, generate, replay};
use outside::{Gate, ReadOutcome, Source, read_all};
use std::alloc::Global;
use std::sync::Wait;
use std::thread::Threads;
use text_commands::{asm, disasm, watch};
use threaded_runs::run_threaded;

/// The most bytes that are read: one more than an input may have.
const READ_LIMIT: usize = 67_108_865;

/// A command on text was done.
const DONE: u8 = 0;

/// Does what is asked over what the source has, and renders what is to be written, or tells why there is nothing.
pub(crate) fn answer<R: Threads + Wait + Sync + Clone + Drop + Send + 'static, S: Source, G: Gate>(
    rt: &R,
    alloc: Global,
    gate: &G,
    asked: &Args,
    source: &mut S,
) -> Result<Rendered, Refusal>
    requires few { HasFewWorkers asked.now }
    ensures made { IfOk result (IsMade asked.now (S.left source.old) (S.left source.new)) }
    ensures refused { IfErr result (λ refusal. IsRefusedBy asked.now refusal (S.left source.old) (S.left source.new)
        (S.faults source.old) (S.faults source.new)) }
    ensures limit { ReadsWithin (S.left source.old) (S.left source.new) }
    ensures generated { reads_input asked.now ≡ false → source.new ≡ source.old }
{
    match asked {
        Args::Run(arguments) => run(rt, alloc, gate, arguments, source),
        Args::Replay(arguments) => replayed(alloc, arguments, source),
        Args::Gen(workers) => generated(alloc, *workers),
        Args::Watch => watched(alloc, source),
        Args::Asm => assembled(alloc, source),
        Args::Disasm => disassembled(alloc, source),
    }
}

// Runs the pairs of the input in threads.
fn run<R: Threads + Wait + Sync + Clone + Drop + Send + 'static, S: Source, G: Gate>(
    rt: &R,
    alloc: Global,
    gate: &G,
    arguments: &RunArgs,
    source: &mut S,
) -> Result<Rendered, Refusal>
    ensures made { IfOk result (IsMade (Args.Run arguments.now) (S.left source.old) (S.left source.new)) }
    ensures refused { IfErr result (λ refusal. IsRefusedBy (Args.Run arguments.now) refusal (S.left source.old)
        (S.left source.new) (S.faults source.old) (S.faults source.new)) }
    ensures limit { ReadsWithin (S.left source.old) (S.left source.new) }
{
    let input = read_input(alloc, Form::Run, source)?;
    Ok(run_threaded(rt, alloc, gate, arguments, input.pairs)?)
}

// Runs the pairs of the input by the order of the input.
fn replayed<S: Source>(
    alloc: Global,
    arguments: &RunArgs,
    source: &mut S,
) -> Result<Rendered, Refusal>
    ensures made { IfOk result (IsMade (Args.Replay arguments.now) (S.left source.old) (S.left source.new)) }
    ensures refused { IfErr result (λ refusal. IsRefusedBy (Args.Replay arguments.now) refusal (S.left source.old)
        (S.left source.new) (S.faults source.old) (S.faults source.new)) }
    ensures limit { ReadsWithin (S.left source.old) (S.left source.new) }
{
    let input = read_input(alloc, Form::Replay, source)?;
    Ok(replay(alloc, arguments, input)?)
}

// Runs the pairs that are made for so many workers by turns.
fn generated(alloc: Global, workers: u32) -> Result<Rendered, Refusal>
    requires { workers ≤ 30 }
    ensures made { IfOk result (λ rendered. IsOfGen workers rendered.order rendered.output.items rendered.status) }
    ensures refused { IfErr result (λ refusal. refusal ≡ Refusal.Memory) }
{
    let pairs = gen_pairs(alloc, workers)?;
    Ok(generate(alloc, pairs)?)
}

// Tells when the watches of the input fire.
fn watched<S: Source>(alloc: Global, source: &mut S) -> Result<Rendered, Refusal>
    ensures made { IfOk result (IsMade Args.Watch (S.left source.old) (S.left source.new)) }
    ensures refused { IfErr result (λ refusal. IsRefusedBy Args.Watch refusal (S.left source.old)
        (S.left source.new) (S.faults source.old) (S.faults source.new)) }
    ensures limit { ReadsWithin (S.left source.old) (S.left source.new) }
{
    let bytes = read_source(alloc, source)?;
    let output = watch(alloc, &bytes)?;
    Ok(text_of(alloc, output))
}

// Makes the lines of what the instruction text of the input stands for.
fn assembled<S: Source>(alloc: Global, source: &mut S) -> Result<Rendered, Refusal>
    ensures made { IfOk result (IsMade Args.Asm (S.left source.old) (S.left source.new)) }
    ensures refused { IfErr result (λ refusal. IsRefusedBy Args.Asm refusal (S.left source.old)
        (S.left source.new) (S.faults source.old) (S.faults source.new)) }
    ensures limit { ReadsWithin (S.left source.old) (S.left source.new) }
{
    let bytes = read_source(alloc, source)?;
    let output = asm(alloc, &bytes)?;
    Ok(text_of(alloc, output))
}

// Makes the instruction text of the input's lines.
fn disassembled<S: Source>(alloc: Global, source: &mut S) -> Result<Rendered, Refusal>
    ensures made { IfOk result (IsMade Args.Disasm (S.left source.old) (S.left source.new)) }
    ensures refused { IfErr result (λ refusal. IsRefusedBy Args.Disasm refusal (S.left source.old)
        (S.left source.new) (S.faults source.old) (S.faults source.new)) }
    ensures limit { ReadsWithin (S.left source.old) (S.left source.new) }
{
    let bytes = read_source(alloc, source)?;
    let output = disasm(alloc, &bytes)?;
    Ok(text_of(alloc, output))
}

// What a command on text writes, without an order.
fn text_of(alloc: Global, output: Vec<u8>) -> Rendered
    ensures { (result.output.items ≡ output.items) × (result.order ≡ []) × (result.status ≡ 0) }
{
    Rendered {
        output,
        order: Order::new(alloc),
        status: DONE,
    }
}

// Reads the source to its end, or as far as an input may go and one byte.
fn read_source<S: Source>(alloc: Global, source: &mut S) -> Result<Vec<u8>, Refusal>
    ensures read { IfOk result (λ bytes. WereRead (S.left source.old) (S.left source.new) bytes.items) }
    ensures refused { IfErr result (λ refusal. IsUnread refusal (S.faults source.old) (S.faults source.new)) }
    ensures limit { ReadsWithin (S.left source.old) (S.left source.new) }
{
    match read_all(alloc, source, READ_LIMIT) {
        ReadOutcome::Whole(bytes) => Ok(bytes),
        ReadOutcome::Full(bytes) => Ok(bytes),
        ReadOutcome::Failed => Err(Refusal::Source),
        ReadOutcome::NoMemory => Err(Refusal::Memory),
    }
}

// Reads the source to its end, and parses it as an input of this form.
fn read_input<S: Source>(alloc: Global, form: Form, source: &mut S) -> Result<Input, Refusal>
    ensures found { IfOk result (IsRead form (S.left source.old)) }
    ensures end { OnOk result (IsAtEnd (S.left source.new)) }
    ensures refused { IfErr result (λ refusal. IsUnfit form refusal (S.left source.old) (S.left source.new)
        (S.faults source.old) (S.faults source.new)) }
    ensures limit { ReadsWithin (S.left source.old) (S.left source.new) }
{
    let bytes = read_source(alloc, source)?;
    Ok(read_lines(alloc, &bytes, form)?)
}
