//! Random words.

ghost use Rattle.std.specs.Prelude.{◌≡◌, ℕ, ◌+◌};

/// Random words, one after the other. What it holds determines the next word and what it holds after, so the words of a
/// run are one list.
pub trait Words {
    // The words still to come, by their places from 0.
    ghost words: { Self → ℕ → ℕ };

    /// Returns the next word.
    fn next(&mut self) -> u32
        ensures word { result ≡ words self.old 0 }
        ensures rest { (i : ℕ) → words self.new i ≡ words self.old (i + 1) };
}
