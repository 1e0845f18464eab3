//! A source in memory that fails where it is told to.

ghost use Rattle.std.specs.Prelude.{◌≡◌, ◌<◌, ◌≤◌, length, Some, IfOk};
ghost use Rattle.outside.specs.Counts.{Rose};
ghost use Rattle.outside.specs.Streams.{GotWithin, Reads};
ghost use Rattle.outside.specs.Memory.{source_of, read_answer, after_read};

use crate::bytes_left::BytesLeft;
use crate::source::{Source, Taken};
use std::alloc::{AllocError, Global};
use std::marker::Model;

/// A source over bytes in memory, in pieces. It fails at the calls that it is told to fail at, and counts
/// them.
#[derive(Debug, Drop)]
pub struct MemSource {
    left: BytesLeft,
    piece: usize,
    failing: Vec<u64>,
    calls: u64,
    faults: u64,
}

impl Model for MemSource {
    ghost use Rattle.std.specs.Prelude.{◌<◌};
    ghost use Rattle.outside.specs.Memory.{SourceState};

    ghost Value = { SourceState };

    ghost view = { λ s. record {
      left = s.left;
      piece = s.piece;
      failing = s.failing.items;
      calls = s.calls;
      faults = s.faults;
    } };

    ghost invariant = { λ s. 0 < s.piece };
}

impl MemSource {
    /// Makes a source that gives `bytes`, at most `piece` of them in a call. The calls in `failing`, counted
    /// from 1, fail.
    pub fn new(
        alloc: Global,
        bytes: &[u8],
        piece: usize,
        failing: &[u64],
    ) -> Result<MemSource, AllocError>
        requires { 0 < piece }
        ensures { IfOk result (λ s. s ≡ source_of bytes.now piece failing.now) }
    {
        Ok(MemSource {
            left: BytesLeft::new(alloc, bytes)?,
            piece,
            failing: Vec::from_slice(alloc, failing)?,
            calls: 0,
            faults: 0,
        })
    }
}

impl Source for MemSource {
    ghost left = { λ s. Some s.left };

    ghost faults = { λ s. s.faults };

    /// Fails exactly at the listed calls.
    fn read(&mut self, buf: &mut [u8]) -> Taken
        requires { 0 < length buf.old }
        ensures bound { GotWithin result (length buf.new) }
        ensures bytes { Reads result (Some self.old.left) (Some self.new.left) buf.new }
        ensures later { self.old.faults ≤ self.new.faults }
        ensures cause { result ≡ Taken.Failed → Rose self.old.faults self.new.faults }

        // Beyond what each source promises: which calls fail, and how much the others give.
        ensures answer { result ≡ read_answer self.old (length buf.new) }
        ensures after { self.new ≡ after_read self.old result }
    {
        self.calls = self.calls.saturating_add(1);
        if self.failing.contains(&self.calls) {
            self.faults = self.faults.saturating_add(1);
            return Taken::Failed;
        }
        let n = self.left.give(self.piece, buf);
        if n == 0 { Taken::End } else { Taken::Got(n) }
    }
}
