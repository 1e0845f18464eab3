//! Lines of events are read: W and a key, C and a key, or K with a key and a value.
//!
//! `model_events` says what these lines are. What is read is exactly what they come to, and a fault is the first one
//! from the left, with its line and its place.
#![tactic(auto)]

mod line;
mod reading;

pub use dump_text::LineFault;
pub use model_events::{Event, Events};
pub use reading::read_events;
