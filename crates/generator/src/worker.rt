//! The instructions of main and of a worker.

ghost use Rattle.std.specs.Prelude.{◌≡◌, ◌++◌, map, OnOk, IfOk};
ghost use Rattle.generator.specs.Generated.{packed_instruction, opening, setting, adding, reading, committing, round, closing, worker_instructions, start, main_instructions};

use crate::names::{busy_key, data_prefix, round_key, worker_prefix};
use crate::script::Script;
use std::alloc::{AllocError, Global};

// How many rounds a worker makes.
const ROUNDS: u32 = 20;

// 1 as 8 bytes, the least first.
const ONE: [u8; 8] = [1, 0, 0, 0, 0, 0, 0, 0];

// A worker opens its directory.
fn open(script: &mut Script, alloc: Global, worker: u32) -> Result<(), AllocError>
    ensures { OnOk result (script.new ≡ script.old ++ map packed_instruction (opening worker)) }
{
    script.push_null()?;
    script.push_text(worker_prefix(alloc, worker)?.as_str())?;
    script.push_int(1)?;
    script.bare("DIRECTORY_CREATE_OR_OPEN_DATABASE")
}

// It sets the key of a round.
fn set(script: &mut Script, alloc: Global, worker: u32, round: u32) -> Result<(), AllocError>
    ensures { OnOk result (script.new ≡ script.old ++ map packed_instruction (setting worker round)) }
{
    script.push_bytes(b"v")?;
    script.push_bytes(round_key(alloc, worker, round)?.as_slice())?;
    script.bare("SET")
}

// It adds 1 to the sum.
fn add(script: &mut Script) -> Result<(), AllocError>
    ensures { OnOk result (script.new ≡ script.old ++ map packed_instruction adding) }
{
    script.push_bytes(&ONE)?;
    script.push_bytes(b"sum")?;
    script.push_text("ADD")?;
    script.bare("ATOMIC_OP")
}

// It reads the keys that it set.
fn read(script: &mut Script, alloc: Global, worker: u32) -> Result<(), AllocError>
    ensures { OnOk result (script.new ≡ script.old ++ map packed_instruction (reading worker)) }
{
    script.push_int(-1)?;
    script.push_int(0)?;
    script.push_int(0)?;
    script.push_bytes(data_prefix(alloc, worker)?.as_slice())?;
    script.bare("GET_RANGE_STARTS_WITH")?;
    script.bare("POP")
}

// It commits, and begins a transaction anew.
fn commit(script: &mut Script) -> Result<(), AllocError>
    ensures { OnOk result (script.new ≡ script.old ++ map packed_instruction committing) }
{
    script.bare("COMMIT")?;
    script.bare("POP")?;
    script.bare("RESET")
}

// One round of a worker.
fn add_round(script: &mut Script, alloc: Global, worker: u32, number: u32) -> Result<(), AllocError>
    ensures { OnOk result (script.new ≡ script.old ++ map packed_instruction (round worker number)) }
{
    set(script, alloc, worker, number)?;
    add(script)?;
    read(script, alloc, worker)?;
    commit(script)
}

// It is busy no more.
fn close(script: &mut Script, alloc: Global, worker: u32) -> Result<(), AllocError>
    ensures { OnOk result (script.new ≡ script.old ++ map packed_instruction (closing worker)) }
{
    script.push_bytes(busy_key(alloc, worker)?.as_slice())?;
    script.bare("CLEAR_DATABASE")
}

// All instructions of a worker.
pub(crate) fn worker_script(alloc: Global, worker: u32) -> Result<Script, AllocError>
    ensures { IfOk result (λ script. script ≡ map packed_instruction (worker_instructions worker)) }
{
    let mut script = Script::new(alloc);
    open(&mut script, alloc, worker)?;
    for round in 0..ROUNDS {
        add_round(&mut script, alloc, worker, round)?;
    }
    close(&mut script, alloc, worker)?;
    Ok(script)
}

// All instructions of main, which starts workers 1 to `count`.
pub(crate) fn main_script(alloc: Global, count: u32) -> Result<Script, AllocError>
    ensures { IfOk result (λ script. script ≡ map packed_instruction (main_instructions count)) }
{
    let mut script = Script::new(alloc);
    for before in 0..count {
        add_start(&mut script, alloc, before + 1)?;
    }
    script.push_bytes(b"busy")?;
    script.bare("WAIT_EMPTY")?;
    Ok(script)
}

// Main starts a worker.
fn add_start(script: &mut Script, alloc: Global, worker: u32) -> Result<(), AllocError>
    ensures { OnOk result (script.new ≡ script.old ++ map packed_instruction (start worker)) }
{
    script.push_bytes(worker_prefix(alloc, worker)?.as_bytes())?;
    script.bare("START_THREAD")
}
