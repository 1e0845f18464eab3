//! Calls of layers for the shell: each is made on the transaction of a name in a core, and what is printed of it is added to a text.
//!
//! `run` is the call; `model_shell` (`specs/Recipes.antt`) says what a call asks and prints. `calls.rt` makes each call on any
//! transaction, and `on_core.rt` makes it on one of a core (`core_tr`).
//!
//! # Choices
//!
//! - Before a layer's call the transaction's committed version is asked, which changes nothing that anyone sees: it gives the name a
//!   transaction where it has none, as the layer's first read would, and settles what is known of its life.
//! - Whether memory ran out in one of the layer's calls is asked behind it, of the transaction: what a layer answers says only what the
//!   transaction stood for.
#![tactic(auto)]

mod calls;
mod on_core;

pub use calls::End;
pub use on_core::run;
