//! A named transaction of a core, by its calls: layers that work over any `Tr` work over it too.
//!
//! Each call is one request, and each is applied before the next one is made. What a call answers and leaves is what the step of the
//! world says (`model_machine`, `specs/Worlds.antt`); all else in the world stays as it was (`KeepsRest` in `specs/Standing.antt`).
//!
//! # Choices
//!
//! - It stands for the transaction that has its name in some world for which the core stands. What it says of all else speaks of every
//!   such world, so whoever knows one knows what becomes of it.
//! - What is known of the transaction's life was settled by a call before, as every call does that a request makes (`settle`). So a
//!   call leaves the lives as they are.
//! - A core that ran out of memory, or that has taken as many requests as it takes, answers no further call: each is answered with
//!   NoMemory, `is_spent` holds from then on, and nothing is promised of the core any more.
//! - An atomic operation goes to the core by its name, and nothing here tells which API version the core speaks. So those are taken that
//!   one name means under every version: BitAnd, Min and those with a versionstamp aren't.
//! - No call of a transaction draws a random word, so the core is given words that nobody reads.
#![tactic(auto)]

mod named;
mod op_names;

pub use named::CoreTr;
