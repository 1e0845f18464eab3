//! An ordered map from keys to values. Contracts see the finite map of `Rattle.std.specs.FinMap`.
#![tactic(auto)]

mod map;

pub use map::{KeyMap, add_missing};
