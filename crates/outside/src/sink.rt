//! What takes bytes.

ghost use Rattle.std.specs.Prelude.{◌≡◌, ℕ, ◌<◌, ◌≤◌, List, length, Option};
ghost use Rattle.outside.specs.Counts.{Rose};
ghost use Rattle.outside.specs.Streams.{TookWithin, Writes};

/// What a write answers.
#[derive(Clone, Copy, Debug, PartialEq, Eq)]
pub enum Put {
    /// This many bytes of the piece were written.
    Took(usize),
    /// The write failed, and wrote nothing.
    Failed,
}

/// What takes bytes. Contracts see the bytes that were written, where they are told, and a count of faults.
pub trait Sink {
    // The bytes that were written so far, where they are told.
    ghost written: { Self → Option (List ℕ) };

    // How many calls failed so far.
    ghost faults: { Self → ℕ };

    /// Writes at least the first byte of `piece`, or fails.
    fn write(&mut self, piece: &[u8]) -> Put
        requires { 0 < length piece.now }
        ensures bound { TookWithin result (length piece.now) }
        ensures bytes { Writes result (written self.old) (written self.new) piece.now }
        ensures later { faults self.old ≤ faults self.new }
        ensures cause { result ≡ Put.Failed → Rose (faults self.old) (faults self.new) };
}
