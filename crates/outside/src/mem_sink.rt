//! A sink in memory that fails where it is told to, and where it is full.

ghost use Rattle.std.specs.Prelude.{◌≡◌, ◌<◌, ◌≤◌, length, Some, IfOk};
ghost use Rattle.outside.specs.Counts.{Rose};
ghost use Rattle.outside.specs.Streams.{TookWithin, Writes};
ghost use Rattle.outside.specs.Memory.{sink_of, write_answer, after_write};

use crate::sink::{Put, Sink};
use std::alloc::{AllocError, Global};
use std::marker::Model;

/// A sink that keeps what is written to it, in pieces. It fails at the calls that it is told to fail at,
/// and where all its room is full, and counts those calls.
#[derive(Debug, Drop)]
pub struct MemSink {
    bytes: Vec<u8>,
    room: usize,
    piece: usize,
    failing: Vec<u64>,
    calls: u64,
    faults: u64,
}

impl Model for MemSink {
    ghost use Rattle.std.specs.Prelude.{◌<◌, ◌≤◌, length, vec_capacity};
    ghost use Rattle.outside.specs.Memory.{SinkState};

    ghost Value = { SinkState };

    ghost view = { λ s. record {
      written = s.bytes.items;
      room = s.room;
      piece = s.piece;
      failing = s.failing.items;
      calls = s.calls;
      faults = s.faults;
    } };

    ghost invariant = { λ s.
        (length s.bytes.items ≤ s.room) × (s.room ≤ vec_capacity s.bytes) × (0 < s.piece) };
}

impl MemSink {
    /// Makes a sink with room for `room` bytes, that takes at most `piece` of them in a call. The calls in
    /// `failing`, counted from 1, fail. All its memory is taken here.
    pub fn new(
        alloc: Global,
        room: usize,
        piece: usize,
        failing: &[u64],
    ) -> Result<MemSink, AllocError>
        requires { 0 < piece }
        ensures { IfOk result (λ s. s ≡ sink_of room piece failing.now) }
    {
        Ok(MemSink {
            bytes: Vec::with_capacity(alloc, room)?,
            room,
            piece,
            failing: Vec::from_slice(alloc, failing)?,
            calls: 0,
            faults: 0,
        })
    }

    /// Returns what was written so far.
    pub fn written(&self) -> &[u8]
        ensures { result.now ≡ self.now.written }
    {
        self.bytes.as_slice()
    }
}

impl Sink for MemSink {
    ghost written = { λ s. Some s.written };

    ghost faults = { λ s. s.faults };

    /// Fails exactly at the listed calls and where all room is full.
    fn write(&mut self, piece: &[u8]) -> Put
        requires { 0 < length piece.now }
        ensures bound { TookWithin result (length piece.now) }
        ensures bytes { Writes result (Some self.old.written) (Some self.new.written) piece.now }
        ensures later { self.old.faults ≤ self.new.faults }
        ensures cause { result ≡ Put.Failed → Rose self.old.faults self.new.faults }

        // Beyond what each sink promises: which calls fail, and how much the others take.
        ensures answer { result ≡ write_answer self.old (length piece.now) }
        ensures after { self.new ≡ after_write self.old piece.now result }
    {
        self.calls = self.calls.saturating_add(1);
        let free = self.room - self.bytes.len();
        if self.failing.contains(&self.calls) || free == 0 {
            self.faults = self.faults.saturating_add(1);
            return Put::Failed;
        }
        let n = piece.len().min(self.piece.min(free));
        self.bytes.extend_from_slice(&piece[..n]).unwrap();
        Put::Took(n)
    }
}
