//! Bytes in memory of which some were given away.

ghost use Rattle.std.specs.Prelude.{◌≡◌, ◌++◌, length, take, min, IfOk};

use std::alloc::{AllocError, Global};
use std::marker::Model;

/// Bytes that are given from the front, piece by piece. Contracts see the list of those that are left.
#[derive(Debug, Drop)]
pub(crate) struct BytesLeft {
    bytes: Vec<u8>,
    given: usize,
}

impl Model for BytesLeft {
    ghost use Rattle.std.specs.Prelude.{ℕ, ◌≤◌, List, length, drop};

    ghost Value = { List ℕ };

    ghost view = { λ b. drop b.given b.bytes.items };

    ghost invariant = { λ b. b.given ≤ length b.bytes.items };
}

impl BytesLeft {
    /// A copy of `bytes`, of which nothing was given.
    pub(crate) fn new(alloc: Global, bytes: &[u8]) -> Result<BytesLeft, AllocError>
        ensures { IfOk result (λ left. left ≡ bytes.now) }
    {
        Ok(BytesLeft {
            bytes: Vec::from_slice(alloc, bytes)?,
            given: 0,
        })
    }

    /// Gives at most `piece` bytes into the front of `buf`, and answers how many.
    pub(crate) fn give(&mut self, piece: usize, buf: &mut [u8]) -> usize
        ensures count { result ≡ min (length self.old) (min piece (length buf.new)) }
        ensures bytes { self.old ≡ take result buf.new ++ self.new }
    {
        let left = &self.bytes.as_slice()[self.given..];
        let n = left.len().min(piece.min(buf.len()));
        buf[..n].copy_from_slice(&left[..n]);
        self.given += n;
        n
    }
}
