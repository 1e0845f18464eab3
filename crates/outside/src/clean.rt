//! A source and a sink that never fail.

ghost use Rattle.std.specs.Prelude.{◌≡◌, ◌≢◌, ℕ, ◌<◌, length, min, Some, None, IfOk};
ghost use Rattle.outside.specs.Streams.{GotWithin, Reads, TookWithin, Writes};
ghost use Rattle.outside.specs.Memory.{CleanState, clean_of, clean_answer, after_clean_read};

use crate::bytes_left::BytesLeft;
use crate::sink::{Put, Sink};
use crate::source::{Source, Taken};
use std::alloc::{AllocError, Global};
use std::marker::Model;

/// A source over bytes in memory, in pieces, that never fails. Its count of faults is always 0.
#[derive(Debug, Drop)]
pub struct CleanSource {
    left: BytesLeft,
    piece: usize,
}

impl Model for CleanSource {
    ghost use Rattle.std.specs.Prelude.{◌<◌};
    ghost use Rattle.outside.specs.Memory.{CleanState};

    ghost Value = { CleanState };

    ghost view = { λ s. record { left = s.left; piece = s.piece } };

    ghost invariant = { λ s. 0 < s.piece };
}

impl CleanSource {
    /// Makes a source that gives `bytes`, at most `piece` of them in a call.
    pub fn new(alloc: Global, bytes: &[u8], piece: usize) -> Result<CleanSource, AllocError>
        requires { 0 < piece }
        ensures made { IfOk result (λ s. s ≡ clean_of bytes.now piece) }
        ensures never_faults { (s : CleanState) → ⟦<CleanSource as Source>⟧.faults s ≡ 0 }
    {
        Ok(CleanSource {
            left: BytesLeft::new(alloc, bytes)?,
            piece,
        })
    }
}

impl Source for CleanSource {
    ghost left = { λ s. Some s.left };

    ghost faults = { λ _. 0 };

    /// Gives the next bytes, or End; never fails.
    fn read(&mut self, buf: &mut [u8]) -> Taken
        requires { 0 < length buf.old }
        ensures bound { GotWithin result (length buf.new) }
        ensures bytes { Reads result (Some self.old.left) (Some self.new.left) buf.new }
        ensures never_fails { result ≢ Taken.Failed }

        // Beyond what each source promises: how much a call gives.
        ensures answer { result ≡ clean_answer self.old (length buf.new) }
        ensures after { self.new ≡ after_clean_read self.old result }
    {
        let n = self.left.give(self.piece, buf);
        if n == 0 { Taken::End } else { Taken::Got(n) }
    }
}

/// A sink that never fails and keeps no bytes. It tells nothing of what was written, and its count of
/// faults is always 0.
#[derive(Debug, Drop)]
pub struct CleanSink {
    piece: usize,
}

impl Model for CleanSink {
    ghost use Rattle.std.specs.Prelude.{ℕ, ◌<◌};

    ghost Value = { ℕ };

    ghost view = { λ s. s.piece };

    ghost invariant = { λ s. 0 < s.piece };
}

impl CleanSink {
    /// Makes a sink that takes at most `piece` bytes in a call.
    pub fn new(piece: usize) -> CleanSink
        requires { 0 < piece }
        ensures made { result ≡ piece }
        ensures never_faults { (s : ℕ) → ⟦<CleanSink as Sink>⟧.faults s ≡ 0 }
    {
        CleanSink { piece }
    }
}

impl Sink for CleanSink {
    ghost written = { λ _. None };

    ghost faults = { λ _. 0 };

    /// Takes bytes and keeps none; never fails.
    fn write(&mut self, piece: &[u8]) -> Put
        requires { 0 < length piece.now }
        ensures bound { TookWithin result (length piece.now) }
        ensures bytes { Writes result None None piece.now }
        ensures never_fails { result ≢ Put.Failed }

        // Beyond what each sink promises: how much a call takes.
        ensures answer { result ≡ Put.Took (min (length piece.now) self.old) }
        ensures after { self.new ≡ self.old }
    {
        Put::Took(piece.len().min(self.piece))
    }
}
