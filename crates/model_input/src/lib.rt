//! An input in definitions: the lines of the order that a replay is given, then the lines of pairs.
//!
//! `src/` has the types of what is read. `specs/Orders.antt` says how the line of a place of the order is read, and
//! `specs/Forms.antt` what an input is by its form, and what its bytes come to, a fault included.
#![tactic(auto)]

mod input;

pub use input::{Form, Input, Order};
