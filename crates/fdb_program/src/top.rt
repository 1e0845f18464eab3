//! The call of the program.

ghost use Rattle.std.specs.Prelude.{◌≡◌, true, false};
ghost use Rattle.model_commands.specs.Grammar.{args_of};
ghost use Rattle.tester_run.specs.Outcomes.{IsOutcome};
ghost use Rattle.fdb_program.specs.Sessions.{IsSession};
ghost use Rattle.fdb_program.specs.Words.{is_shell};

use dump_text::Order;
use fdb_shell::shell;
use outside::{Gate, Sink, Source};
use std::alloc::Global;
use std::sync::Wait;
use std::thread::Threads;
use tester_run::{ArgWords, Outcome, tester};

// Tells whether these words begin the shell.
fn is_shell(args: &ArgWords) -> bool
    ensures { result ≡ is_shell args.now }
{
    args.len() == 1 && args.get(0).as_str() == "shell"
}

/// Does all that the program does: the shell, where `shell` is the one word, and else what `tester` does. The fields of `IsSession` and of
/// `IsOutcome` say what each status means.
pub fn program<
    R: Threads + Wait + Sync + Clone + Drop + Send + 'static,
    S: Source,
    K: Sink,
    N: Sink,
    G: Gate,
>(
    rt: &R,
    alloc: Global,
    args: &ArgWords,
    source: &mut S,
    out: &mut K,
    err: &mut N,
    gate: &G,
) -> Outcome
    ensures shell { is_shell args.now ≡ true → IsSession result.status result.order S.left S.faults source.old source.new
        K.written K.faults out.old out.new N.written N.faults err.old err.new }
    ensures tester { is_shell args.now ≡ false → IsOutcome (args_of args.now) result.status result.order S.left S.faults source.old source.new
        K.written K.faults out.old out.new N.written N.faults err.old err.new }
{
    if is_shell(args) {
        return Outcome {
            status: shell(alloc, source, out, err),
            order: Order::new(alloc),
        };
    }
    tester(rt, alloc, args, source, out, err, gate)
}
