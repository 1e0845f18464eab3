//! The call that serves.

ghost use Rattle.std.specs.Prelude.{◌≡◌, ◌≤◌, ◌+◌, ◌^◌, ℕ, Option, Err, IfErr};
ghost use Rattle.model_database.specs.declared.Api.{Api};
ghost use Rattle.fdb_serve.specs.Serving.{first_world};
ghost use Rattle.fdb_serve.specs.Standing.{Stands};
ghost use Rattle.fdb_serve.specs.Endings.{Finishes, FinishesAt, IsSent};
ghost use Rattle.outside.specs.Counts.{Rose};
ghost use Rattle.err_lines.specs.Told.{IsTold};
ghost use Rattle.fdb_serve.specs.declared.halt.Flaw.{Flaw};
ghost use Rattle.fdb_serve.specs.Outcomes.{all_answered, bad_frame, read_fault, write_fault, out_of_memory, frame_text, IsStatus, AnswersAll, StopsAtFrame, AnswersWhole, BreaksOff, RunsShort, Tells};

use crate::frames::next_request;
use crate::halt::{Halt, Stopped};
use crate::server::Server;
use crate::telling::refused;
use model_database::Api;
use outside::{Sink, Source, write_all};
use std::alloc::Global;

/// Answers the requests that the source gives, frame by frame, on a database that is empty at first, and writes the frame of each
/// reply to `out` before it reads the next. It returns the status of the program; the clauses say what each means.
pub fn serve<S: Source, K: Sink, N: Sink>(
    alloc: Global,
    api: Api,
    window: Option<u32>,
    source: &mut S,
    out: &mut K,
    err: &mut N,
) -> u8
    // 0: the source was read to its end, and the answer to each of its requests was written.
    ensures all { result ≡ all_answered
        → AnswersAll api window (S.left source.old) (S.left source.new) (K.written out.old) (K.written out.new) }

    // 2: a frame is no request, too long or cut short. The answers to the requests before it were written, and err tells which it is.
    ensures bad { result ≡ bad_frame → (number : ℕ) × (flaw : Flaw)
        × StopsAtFrame api window (S.left source.old) (S.left source.new) (K.written out.old) (K.written out.new) number flaw
        × IsTold (frame_text number flaw) (N.written err.old) (N.written err.new) (N.faults err.old) (N.faults err.new) }

    // 4: the source has counted a fault in this call. The answers to the requests that were read were written.
    ensures read { result ≡ read_fault → Rose (S.faults source.old) (S.faults source.new) }
    ensures whole { result ≡ read_fault
        → AnswersWhole api window (S.left source.old) (S.left source.new) (K.written out.old) (K.written out.new) }

    // 5: out has counted a fault in this call. A front of the answers to the requests that were read was written.
    ensures write { result ≡ write_fault → Rose (K.faults out.old) (K.faults out.new) }
    ensures front { result ≡ write_fault
        → BreaksOff api window (S.left source.old) (S.left source.new) (K.written out.old) (K.written out.new) }

    // 6: memory ran out. The answers to some first of the requests were written.
    ensures short { result ≡ out_of_memory
        → RunsShort api window (S.left source.old) (S.left source.new) (K.written out.old) (K.written out.new) }

    // There is no other status.
    ensures statuses { IsStatus result }

    // 0: err is as it was. At each other status its line stands behind what err held; a front of it where err has counted a
    // fault in this call.
    ensures quiet { result ≡ all_answered → err.new ≡ err.old }
    ensures told { Tells result (N.written err.old) (N.written err.new) (N.faults err.old) (N.faults err.new) }
{
    match run(alloc, api, window, source, out) {
        Ok(()) => 0,
        Err(stopped) => refused(alloc, err, stopped.number, stopped.halt),
    }
}

// Answers the requests of the source on a core that it loads.
fn run<S: Source, K: Sink>(
    alloc: Global,
    api: Api,
    window: Option<u32>,
    source: &mut S,
    out: &mut K,
) -> Result<(), Stopped>
    ensures finishes { FinishesAt result api window (S.left source.old) (S.left source.new) (K.written out.old) (K.written out.new) }
    ensures read { IfErr result (λ stopped. stopped.halt ≡ Halt.Read → Rose (S.faults source.old) (S.faults source.new)) }
    ensures write { IfErr result (λ stopped. stopped.halt ≡ Halt.Write → Rose (K.faults out.old) (K.faults out.new)) }
{
    let Ok(mut server) = Server::new(alloc, api, window) else {
        return Err(Stopped {
            halt: Halt::NoMemory,
            number: 1,
        });
    };
    match answer_all(alloc, &mut server, source, out) {
        Ok(()) => Ok(()),
        Err(halt) => Err(Stopped {
            halt,
            number: server.applied() + 1,
        }),
    }
}

// Writes a frame.
fn send<K: Sink>(out: &mut K, frame: &[u8]) -> Result<(), Halt>
    ensures sent { IsSent result frame.now (K.written out.old) (K.written out.new) }
    ensures later { K.faults out.old ≤ K.faults out.new }
    ensures cause { result ≡ Err Halt.Write → Rose (K.faults out.old) (K.faults out.new) }
{
    if write_all(out, frame) {
        Ok(())
    } else {
        Err(Halt::Write)
    }
}

// Answers the requests of the source, each before a byte behind it is read.
fn answer_all<S: Source, K: Sink>(
    alloc: Global,
    server: &mut Server,
    source: &mut S,
    out: &mut K,
) -> Result<(), Halt>
    ensures finishes { (api : Api) (window : Option ℕ) → Stands server.old (first_world api window) → server.old.core.applied ≡ 0
        → Finishes result api window (server.new.core.applied + 1) (S.left source.old) (S.left source.new) (K.written out.old) (K.written out.new) }
    ensures few { server.old.core.applied ≡ 0 → server.new.core.applied ≤ 2 ^ 62 }
    ensures read { result ≡ Err Halt.Read → Rose (S.faults source.old) (S.faults source.new) }
    ensures write { result ≡ Err Halt.Write → Rose (K.faults out.old) (K.faults out.new) }
{
    while let Some(request) = next_request(alloc, source)? {
        let frame = server.answer(request.get())?;
        send(out, frame.as_slice())?;
    }
    Ok(())
}
