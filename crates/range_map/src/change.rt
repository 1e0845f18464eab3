//! What may be done to the boundaries of a range.

ghost use Rattle.std.specs.Prelude.{◌≡◌};

/// What is done to what a boundary has.
pub trait Change<T> {
    // What a boundary has afterwards.
    ghost changed: { Self → T → T };

    /// Changes the value of a boundary.
    fn change(&self, level: &mut T)
        ensures { level.new ≡ changed self.now level.old };
}
