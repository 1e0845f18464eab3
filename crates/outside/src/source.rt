//! What gives bytes.

ghost use Rattle.std.specs.Prelude.{◌≡◌, ℕ, ◌<◌, ◌≤◌, List, length, Option};
ghost use Rattle.outside.specs.Counts.{Rose};
ghost use Rattle.outside.specs.Streams.{GotWithin, Reads};

/// What a read answers.
#[derive(Clone, Copy, Debug, PartialEq, Eq)]
pub enum Taken {
    /// This many bytes were read.
    Got(usize),
    /// Nothing is left.
    End,
    /// The read failed, and took nothing.
    Failed,
}

/// What gives bytes. Contracts see the bytes that are left, where they are told, and a count of faults.
pub trait Source {
    // The bytes that reads will give from here on, where they are told.
    ghost left: { Self → Option (List ℕ) };

    // How many calls failed so far.
    ghost faults: { Self → ℕ };

    /// Reads at least one byte into the front of `buf`, or says that nothing is left, or fails.
    fn read(&mut self, buf: &mut [u8]) -> Taken
        requires { 0 < length buf.old }
        ensures bound { GotWithin result (length buf.new) }
        ensures bytes { Reads result (left self.old) (left self.new) buf.new }
        ensures later { faults self.old ≤ faults self.new }
        ensures cause { result ≡ Taken.Failed → Rose (faults self.old) (faults self.new) };
}
