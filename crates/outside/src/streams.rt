//! Sources and sinks over std's readers and writers: the edge where the real streams are.

ghost use Rattle.std.specs.Prelude.{◌≡◌, ◌<◌, ◌≤◌, length};
ghost use Rattle.outside.specs.Counts.{Rose};
ghost use Rattle.outside.specs.Streams.{GotWithin, Reads, TookWithin, Writes, faults_after_read, faults_after_write};

use crate::sink::{Put, Sink};
use crate::source::{Source, Taken};
use std::io::{Read, Write};
use std::marker::Model;

/// A source over a reader. It tells of bytes what the reader tells, and counts each error.
#[derive(Drop)]
pub struct ReadSource<R: Read + Drop> {
    reader: R,
    faults: u64,
}

impl<R: Read + Drop> Model for ReadSource<R> {
    ghost use Rattle.outside.specs.Streams.{Counted};

    ghost Value = { Counted R };

    ghost view = { λ s. record { inner = s.reader; faults = s.faults } };
}

impl<R: Read + Drop> ReadSource<R> {
    /// Makes a source over `reader`, with no fault yet.
    pub fn new(reader: R) -> ReadSource<R>
        ensures inner { result.inner ≡ reader }
        ensures faults { result.faults ≡ 0 }
    {
        ReadSource { reader, faults: 0 }
    }

    /// Gives back the reader.
    pub fn into_inner(self) -> R
        ensures { result ≡ self.inner }
    {
        self.reader
    }
}

impl<R: Read + Drop> Source for ReadSource<R> {
    ghost left = { λ s. R.remaining s.inner };

    ghost faults = { λ s. s.faults };

    /// Fails where the reader answers an error, and ends where it gives no byte. It takes no memory of
    /// its own.
    fn read(&mut self, buf: &mut [u8]) -> Taken
        requires { 0 < length buf.old }
        ensures bound { GotWithin result (length buf.new) }
        ensures bytes { Reads result
            (R.remaining self.old.inner) (R.remaining self.new.inner) buf.new }
        ensures later { self.old.faults ≤ self.new.faults }
        ensures cause { result ≡ Taken.Failed → Rose self.old.faults self.new.faults }

        // Beyond what each source promises: each failed call, and no other, is counted once.
        ensures count { self.new.faults ≡ faults_after_read result self.old.faults }
    {
        match self.reader.read(buf) {
            Ok(0) => Taken::End,
            Ok(n) => Taken::Got(n),
            Err(_) => {
                self.faults = self.faults.saturating_add(1);
                Taken::Failed
            }
        }
    }
}

/// A sink over a writer. It tells of bytes what the writer tells, and counts each error and each write
/// that takes nothing.
#[derive(Drop)]
pub struct WriteSink<W: Write + Drop> {
    writer: W,
    faults: u64,
}

impl<W: Write + Drop> Model for WriteSink<W> {
    ghost use Rattle.outside.specs.Streams.{Counted};

    ghost Value = { Counted W };

    ghost view = { λ s. record { inner = s.writer; faults = s.faults } };
}

impl<W: Write + Drop> WriteSink<W> {
    /// Makes a sink over `writer`, with no fault yet.
    pub fn new(writer: W) -> WriteSink<W>
        ensures inner { result.inner ≡ writer }
        ensures faults { result.faults ≡ 0 }
    {
        WriteSink { writer, faults: 0 }
    }

    /// Gives back the writer.
    pub fn into_inner(self) -> W
        ensures { result ≡ self.inner }
    {
        self.writer
    }
}

impl<W: Write + Drop> Sink for WriteSink<W> {
    ghost written = { λ s. W.contents s.inner };

    ghost faults = { λ s. s.faults };

    /// Fails where the writer answers an error or takes no byte. It takes no memory of its own.
    fn write(&mut self, piece: &[u8]) -> Put
        requires { 0 < length piece.now }
        ensures bound { TookWithin result (length piece.now) }
        ensures bytes { Writes result
            (W.contents self.old.inner) (W.contents self.new.inner) piece.now }
        ensures later { self.old.faults ≤ self.new.faults }
        ensures cause { result ≡ Put.Failed → Rose self.old.faults self.new.faults }

        // Beyond what each sink promises: each failed call, and no other, is counted once.
        ensures count { self.new.faults ≡ faults_after_write result self.old.faults }
    {
        match self.writer.write(piece) {
            Ok(0) | Err(_) => {
                self.faults = self.faults.saturating_add(1);
                Put::Failed
            }
            Ok(n) => Put::Took(n),
        }
    }
}
