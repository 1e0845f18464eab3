//! A line of input, within its limit.

ghost use Rattle.std.specs.Prelude.{◌≡◌, ◌==◌, ◌<◌, ◌≤◌, ◌+◌, [], ◌∷◌, ◌++◌, length, OnOk, OnErr};
ghost use Rattle.fdb_shell.specs.Limits.{line_limit};

use std::alloc::{AllocError, Global};
use std::marker::Model;

/// How many bytes a line may have before its line feed.
pub const LINE_LIMIT: usize = 440_005;

/// How many bytes an input may have.
pub const INPUT_LIMIT: u64 = 1_099_511_627_776;

/// What was read of a line. Contracts see its bytes, which are no more than a line may have.
#[derive(Drop)]
pub struct LineBuffer {
    bytes: Vec<u8>,
}

impl Model for LineBuffer {
    ghost use Rattle.std.specs.Prelude.{ℕ, ◌≤◌, List, length};
    ghost use Rattle.fdb_shell.specs.Limits.{line_limit};

    ghost Value = { List ℕ };

    ghost view = { λ line. line.bytes.items };

    ghost invariant = { λ line. length line.bytes.items ≤ line_limit };
}

impl LineBuffer {
    /// Makes the line of which nothing was read.
    pub fn new(alloc: Global) -> LineBuffer
        ensures { result ≡ [] }
    {
        LineBuffer {
            bytes: Vec::new(alloc),
        }
    }

    /// Returns the bytes.
    pub fn as_slice(&self) -> &[u8]
        ensures { result.now ≡ self.now }
    {
        self.bytes.as_slice()
    }

    /// Tells whether there is no byte.
    pub fn is_empty(&self) -> bool
        ensures { result ≡ (length self.now == 0) }
    {
        self.bytes.is_empty()
    }

    /// Tells whether the line has as many bytes as it may have.
    pub fn is_full(&self) -> bool
        ensures { result ≡ (length self.now == line_limit) }
    {
        self.bytes.len() == LINE_LIMIT
    }

    /// Adds a byte at the end; after a refusal the line is as before.
    pub fn push(&mut self, byte: u8) -> Result<(), AllocError>
        requires { length self.old < line_limit }
        ensures pushed { OnOk result (self.new ≡ self.old ++ byte ∷ []) }
        ensures kept { OnErr result (self.new ≡ self.old) }
        ensures within { length self.new ≤ length self.old + 1 }
    {
        self.bytes.push(byte)?;
        Ok(())
    }

    /// Drops all bytes.
    pub fn clear(&mut self)
        ensures { self.new ≡ [] }
    {
        self.bytes.clear();
    }
}
