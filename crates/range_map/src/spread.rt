//! What a new boundary gets.

ghost use Rattle.std.specs.Prelude.{◌≡◌};

/// What a boundary has, of which a new boundary between it and the next one gets a part.
pub trait Spread {
    // What a new boundary gets.
    ghost spread: { Self → Self };

    /// Returns the value that a new boundary gets from the one in force where it is made.
    fn spread(&self) -> Self
        ensures { result ≡ spread self.now };
}

/// A new boundary gets the same number.
impl Spread for u64 {
    ghost spread = { λ number. number };

    fn spread(&self) -> u64 {
        *self
    }
}
