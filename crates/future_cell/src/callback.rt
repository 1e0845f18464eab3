//! The callback of a cell, and what became of it.

/// The signal that the value is there. It is called once, by value.
pub trait Call {
    /// Gives the signal, and uses the callback up. It answers nothing and cannot fail.
    fn run(self);
}

/// What `Waiter::on_ready` did with the callback.
#[derive(Clone, Copy, Debug, PartialEq, Eq)]
pub enum Ready {
    /// The cell has it. `Setter::set` runs it.
    Parked,
    /// The value was there, and the call ran it.
    RanHere,
}

/// Whether a waiter has registered a callback, and what became of it.
#[derive(Clone, Copy, Debug, PartialEq, Eq)]
pub enum Registered {
    No,
    /// The cell has it, or `Setter::set` had it.
    Parked,
    /// The value was there, and the waiter ran it.
    RanHere,
}
