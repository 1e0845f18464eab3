//! A run over a source and a sink that cannot fail.

ghost use Rattle.std.specs.Prelude.{◌≢◌, IfOk};
ghost use Rattle.tester_run.specs.Statuses.{read_fault, write_fault};

use crate::top::tester;
use command_words::ArgWords;
use outside::{CleanSink, CleanSource, Gate};
use std::alloc::{AllocError, Global};
use std::sync::Wait;
use std::thread::Threads;

/// How many bytes the source gives, and a sink takes, at most in one call.
const PIECE: usize = 4_096;

/// Runs the words over these bytes, with a sink that keeps nothing, and returns the status. Neither the source
/// nor a sink ever fails, so neither 4 nor 5 comes.
pub fn status_over_bytes<R: Threads + Wait + Sync + Clone + Drop + Send + 'static, G: Gate>(
    rt: &R,
    alloc: Global,
    args: &ArgWords,
    bytes: &[u8],
    gate: &G,
) -> Result<u8, AllocError>
    ensures read { IfOk result (λ status. status ≢ read_fault) }
    ensures write { IfOk result (λ status. status ≢ write_fault) }
{
    let mut source = CleanSource::new(alloc, bytes, PIECE)?;
    let mut out = CleanSink::new(PIECE);
    let mut err = CleanSink::new(PIECE);
    let outcome = tester(rt, alloc, args, &mut source, &mut out, &mut err, gate);
    Ok(outcome.status)
}
