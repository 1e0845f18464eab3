//! The gate of a machine.

use std::thread;
use std::time::{Clock, Duration};

/// How often a machine may be told without a break that it isn't so yet, and ask again at once.
const QUICK_POLLS: u32 = 4;

/// How often the length of a rest is doubled, from two microseconds on.
const DOUBLINGS: u32 = 6;

/// What a machine's thread passes before each request that it posts. It tells nothing.
pub trait Gate: Sync {
    /// Lets the machine's thread pass. `place` is the number of its requests before.
    fn pass(&self, machine: u16, place: u64);

    /// Lets the machine's thread rest before it polls again. `polled` is how often without a break its polls were answered `NotYet`.
    /// It returns at once unless a gate says otherwise.
    fn rest(&self, _polled: u32) {}
}

/// The gate that lets every machine pass at once, and sleep a little where it polls on: not at first, then longer each time, up to
/// some 0.1 ms.
#[derive(Clone, Copy, Debug)]
pub struct RestingGate<'a, C: Clock> {
    pub clock: &'a C,
}

impl<'a, C: Clock + Sync> Gate for RestingGate<'a, C> {
    fn pass(&self, _machine: u16, _place: u64) {}

    fn rest(&self, polled: u32) {
        if polled > QUICK_POLLS {
            let micros = 1u64 << (polled - QUICK_POLLS).min(DOUBLINGS);
            thread::sleep(self.clock, Duration::from_micros(micros));
        }
    }
}

/// The gate that lets every machine pass at once, and poll again at once.
#[derive(Clone, Copy, Debug)]
pub struct OpenGate;

impl Gate for OpenGate {
    fn pass(&self, _machine: u16, _place: u64) {}
}
