//! How watches end.

use future_cell::Receipt;

/// How a watch ended.
#[derive(Clone, Copy, Debug, PartialEq, Eq)]
pub enum WatchEnd {
    /// The value of the key changed, at this version.
    Changed(u64),
    /// The watch was cancelled before it fired.
    Cancelled,
}

/// A watch that has ended: its number, and the receipt that settles the waiter which `watch` gave with this number.
#[derive(Drop)]
pub struct Ending<C> {
    pub number: u64,
    pub receipt: Receipt<WatchEnd, C>,
}

/// The endings of watches, each once, in rising number.
#[derive(Drop)]
pub struct WatchEnds<C> {
    pub(crate) endings: Vec<Ending<C>>,
}

impl<C> WatchEnds<C> {
    ghost use Rattle.std.specs.Prelude.{◌≡◌, ◌==◌, ◌<◌, length, Some, slice_get};
    ghost use Rattle.watch_core.specs.Watches.{endings_of};

    /// Returns how many endings there are.
    pub fn len(&self) -> usize
        ensures { result ≡ length (endings_of self.now) }
    {
        self.endings.len()
    }

    /// Tells whether there is no ending.
    pub fn is_empty(&self) -> bool
        ensures { result ≡ (length (endings_of self.now) == 0) }
    {
        self.endings.is_empty()
    }

    /// Returns the ending at place `i`, which is that of the watch with this number.
    pub fn get(&self, i: usize) -> &Ending<C>
        requires { i < length (endings_of self.now) }
        ensures { slice_get (endings_of self.now) i ≡ Some result.now }
    {
        &self.endings[i]
    }

    /// Returns the endings themselves, in order.
    pub fn into_vec(self) -> Vec<Ending<C>>
        ensures { result.items ≡ endings_of self }
    {
        self.endings
    }
}
