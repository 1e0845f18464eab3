//! The source's bytes, one by one, and the lines that they are.

ghost use Rattle.std.specs.Prelude.{◌≡◌, ◌≤◌, ◌+◌, ℕ, List, [], ◌∷◌, ◌++◌, Option, Err, IfOk, OnOk};
ghost use Rattle.outside.specs.Counts.{Rose};
ghost use Rattle.model_shell.specs.Sessions.{Session as State, answered};
ghost use Rattle.fdb_shell.specs.Doing.{IsSession};
ghost use Rattle.fdb_shell.specs.Endings.{IsAt, Answers, Goes, Closes, Finishes, IsByteRead};
ghost use Rattle.fdb_shell.specs.declared.reading.Halt.TheVariants as halt;

use crate::limits::{INPUT_LIMIT, LineBuffer};
use crate::position::Reading;
use crate::session::Session;
use outside::{Sink, Source, Taken, write_all};
use std::alloc::{AllocError, AllocFailed, Global};

/// Why the shell ends before its input does.
#[derive(Clone, Copy, Debug, PartialEq, Eq)]
pub enum Halt {
    /// The source failed.
    Read,
    /// The sink failed.
    Write,
    /// The line of this number has more bytes than a line may have.
    TooLong { line: u64 },
    /// The input has more bytes than it may have, and the first one too many lies in the line of this number.
    TooMany { line: u64 },
    /// Memory ran out.
    NoMemory,
}

impl From<AllocError> for Halt {
    ghost from_gives = { λ _ e. e ≡ halt.NoMemory };

    fn from(_e: AllocError) -> Halt {
        Halt::NoMemory
    }
}

impl<T: Drop> From<AllocFailed<T>> for Halt {
    ghost from_gives = { λ _ e. e ≡ halt.NoMemory };

    fn from(_e: AllocFailed<T>) -> Halt {
        Halt::NoMemory
    }
}

// Reads the next byte; None at the end of the source.
fn next_byte<S: Source>(source: &mut S) -> Result<Option<u8>, Halt>
    ensures read { IsByteRead result (S.left source.old) (S.left source.new) (S.faults source.old) (S.faults source.new) }
    ensures later { S.faults source.old ≤ S.faults source.new }
{
    let mut bytes = [0u8; 1];
    match source.read(&mut bytes) {
        Taken::Got(_) => Ok(Some(bytes[0])),
        Taken::End => Ok(None),
        Taken::Failed => Err(Halt::Read),
    }
}

impl Reading {
    /// Begins a session of which no byte was read.
    pub fn new(alloc: Global) -> Result<Reading, AllocError>
        ensures { IfOk result (λ reading. (start : Option (List ℕ)) → IsAt start start reading []) }
    {
        Ok(Reading {
            session: Session::new(alloc)?,
            line: LineBuffer::new(alloc),
            number: 1,
            count: 0,
        })
    }

    // Answers the line that was read, and writes what is printed for it.
    fn answer<K: Sink>(&mut self, out: &mut K) -> Result<(), Halt>
        requires { self.old.number ≤ self.old.count }
        ensures answered { (state : State) → IsSession self.old.session state
            → Answers result (K.written out.old) (K.written out.new) self.new.session (answered state self.old.line) }
        ensures line { OnOk result (self.new.line ≡ []) }
        ensures number { OnOk result (self.new.number ≡ self.old.number + 1) }
        ensures count { self.new.count ≡ self.old.count }
        ensures later { K.faults out.old ≤ K.faults out.new }
        ensures cause { result ≡ Err Halt.Write → Rose (K.faults out.old) (K.faults out.new) }
    {
        self.session.answer(self.line.as_slice())?;
        self.number += 1;
        self.line.clear();
        if write_all(out, self.session.text()) {
            Ok(())
        } else {
            Err(Halt::Write)
        }
    }

    // Takes a byte of the input: a line feed ends the line, which is answered then.
    fn take<K: Sink>(&mut self, byte: u8, out: &mut K) -> Result<(), Halt>
        ensures goes { (start : Option (List ℕ)) (bytes : List ℕ) → IsAt start (K.written out.old) self.old bytes
            → Goes result start (K.written out.new) self.new (bytes ++ byte ∷ []) }
        ensures count { OnOk result (self.new.count ≡ self.old.count + 1) }
        ensures later { K.faults out.old ≤ K.faults out.new }
        ensures cause { result ≡ Err Halt.Write → Rose (K.faults out.old) (K.faults out.new) }
    {
        if self.count == INPUT_LIMIT {
            return Err(Halt::TooMany { line: self.number });
        }
        self.count += 1;
        if byte == b'\n' {
            return self.answer(out);
        }
        if self.line.is_full() {
            return Err(Halt::TooLong { line: self.number });
        }
        self.line.push(byte)?;
        Ok(())
    }

    // Answers the line that has no line feed, at the end of the source, where there is one.
    fn end<K: Sink>(&mut self, out: &mut K) -> Result<(), Halt>
        ensures closes { (start : Option (List ℕ)) (bytes : List ℕ) → IsAt start (K.written out.old) self.old bytes
            → Closes result start (K.written out.new) bytes }
        ensures later { K.faults out.old ≤ K.faults out.new }
        ensures cause { result ≡ Err Halt.Write → Rose (K.faults out.old) (K.faults out.new) }
    {
        if self.line.is_empty() {
            return Ok(());
        }
        self.answer(out)
    }

    /// Reads the source to its end, and answers its lines, each before a byte behind it is read.
    pub fn run<S: Source, K: Sink>(&mut self, source: &mut S, out: &mut K) -> Result<(), Halt>
        requires { (start : Option (List ℕ)) → IsAt start start self.old [] }
        ensures finishes { Finishes result (S.left source.old) (S.left source.new) (K.written out.old) (K.written out.new) }
        ensures later_read { S.faults source.old ≤ S.faults source.new }
        ensures later { K.faults out.old ≤ K.faults out.new }
        ensures read { result ≡ Err Halt.Read → Rose (S.faults source.old) (S.faults source.new) }
        ensures write { result ≡ Err Halt.Write → Rose (K.faults out.old) (K.faults out.new) }
    {
        while let Some(byte) = next_byte(source)? {
            self.take(byte, out)?;
        }
        self.end(out)
    }
}
