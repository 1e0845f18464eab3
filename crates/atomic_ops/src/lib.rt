//! Atomic operations on values: which operation a name means under an API version, what each makes of an old value and its operand, and what a
//! versionstamp makes of the bytes that it is filled into.
//!
//! `from_name` and `apply` answer what `model_database` defines (`specs/Atomics.antt`: `atomic_named` and `atom`).
//! There numbers are numbers; here they are bytes, the lowest first, and no number is ever built: a sum goes up
//! byte by byte with a carry, and a comparison goes down from the highest byte.
#![tactic(auto)]

mod applying;
mod bits;
mod fault;
mod fitting;
mod names;
mod numbers;
mod stamping;

pub use applying::apply;
pub use fault::StampFault;
pub use model_database::{Api, AtomicOp, StampForm};
pub use names::from_name;
pub use stamping::{has_room, resolve_stamp, stamped};
