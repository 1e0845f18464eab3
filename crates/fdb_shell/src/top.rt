//! The call of the shell.

ghost use Rattle.std.specs.Prelude.{◌≡◌, ◌⊎◌, Err};
ghost use Rattle.outside.specs.Counts.{Rose};
ghost use Rattle.model_lines.specs.Reading.{Fault};
ghost use Rattle.err_lines.specs.Told.{IsTold};
ghost use Rattle.fdb_shell.specs.Outcomes.{all_answered, past_limit, read_fault, write_fault, out_of_memory, limit_text, IsStatus, AnswersAll, StopsAtLimit, AnswersWhole, BreaksOff, RunsShort, IsFaultless, Tells};
ghost use Rattle.fdb_shell.specs.Endings.{Finishes};

use crate::position::Reading;
use crate::reading::Halt;
use crate::telling::refused;
use outside::{Sink, Source};
use std::alloc::Global;

/// Answers the lines that the source gives, one by one, and writes what is printed for each to `out` before it reads the next.
/// It returns the status of the program; the clauses say what each means.
pub fn shell<S: Source, K: Sink, N: Sink>(
    alloc: Global,
    source: &mut S,
    out: &mut K,
    err: &mut N,
) -> u8
    // 0: the source was read to its end, and what is printed for its lines was written.
    ensures all { result ≡ all_answered → AnswersAll (S.left source.old) (S.left source.new) (K.written out.old) (K.written out.new) }

    // 2: a line or the input passes its limit. What is printed for the lines before was written, and err tells which line it is.
    ensures limit { result ≡ past_limit → (fault : Fault)
        × StopsAtLimit (S.left source.old) (S.left source.new) (K.written out.old) (K.written out.new) fault
        × IsTold (limit_text fault) (N.written err.old) (N.written err.new) (N.faults err.old) (N.faults err.new) }

    // 4: the source has counted a fault in this call. What is printed for the whole lines that were read was written.
    ensures read { result ≡ read_fault → Rose (S.faults source.old) (S.faults source.new) }
    ensures whole { result ≡ read_fault → AnswersWhole (S.left source.old) (S.left source.new) (K.written out.old) (K.written out.new) }

    // 5: out has counted a fault in this call. A front of what is printed for the lines that were read was written.
    ensures write { result ≡ write_fault → Rose (K.faults out.old) (K.faults out.new) }
    ensures front { result ≡ write_fault → BreaksOff (S.left source.old) (S.left source.new) (K.written out.old) (K.written out.new) }

    // 6: memory ran out. A front of what is printed for the whole lines that were read was written, and for the last one too at the
    // end of the source.
    ensures short { result ≡ out_of_memory → RunsShort (S.left source.old) (S.left source.new) (K.written out.old) (K.written out.new) }

    // There is no other status; where the input is within its limits and nothing fails, it is 0 or 6.
    ensures statuses { IsStatus result }
    ensures complete { IsFaultless (S.left source.old) (S.faults source.old) (S.faults source.new) (K.faults out.old) (K.faults out.new)
        → (result ≡ all_answered) ⊎ (result ≡ out_of_memory) }

    // 0: err is as it was. At each other status its line stands behind what err held; a front of it where err has counted a
    // fault in this call.
    ensures quiet { result ≡ all_answered → err.new ≡ err.old }
    ensures told { Tells result (N.written err.old) (N.written err.new) (N.faults err.old) (N.faults err.new) }
{
    match run(alloc, source, out) {
        Ok(()) => 0,
        Err(halt) => refused(alloc, err, halt),
    }
}

// Answers the lines of the source.
fn run<S: Source, K: Sink>(alloc: Global, source: &mut S, out: &mut K) -> Result<(), Halt>
    ensures finishes { Finishes result (S.left source.old) (S.left source.new) (K.written out.old) (K.written out.new) }
    ensures read { result ≡ Err Halt.Read → Rose (S.faults source.old) (S.faults source.new) }
    ensures write { result ≡ Err Halt.Write → Rose (K.faults out.old) (K.faults out.new) }
{
    let mut reading = Reading::new(alloc)?;
    reading.run(source, out)
}
