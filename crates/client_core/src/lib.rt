//! The core of the database: one owner of the store of its versions and of its named transactions, which takes requests
//! one at a time.
//!
//! A `Core` stands for a world of the definitions (`model_machine`, `specs/Worlds.antt`): its store has the map of the world's
//! history at each version that can be read, its index has for each key the newest commit with it among its write conflict ranges
//! where that is behind the oldest of these versions, the same became of each life, each name has a transaction that stands for the world's, and the same machines were started (`specs/Stands.antt`).
//! `load` stands for the beginning, and for every world for which a core stands before `apply`, the reply is that of the step, and
//! the core stands for the world of the step.
//!
//! # Choices
//!
//! - A core stands for a world by a relation (`StandsFor`), and keeps no history: a later commit is judged by the newest
//!   commit of each key alone.
//! - A core that ran out of memory once is spent (`is_spent` in `CoreModel`), and answers each later request with NoMemory. Its
//!   history is as before the call (`history` of `Core::apply`). Nothing is said of its named transactions, of the machines that
//!   were started and of the random words: a directory call or a batch of LOG_STACK may have made some of its steps, and no
//!   further request can see them. The run ends with status 6.
//! - No step of the world is replied to with NoMemory, so that reply says that memory ran out, and no other does (`spent`).
//!   Behind a commit the core notes what became of the life, which takes no memory, since a commit draws none.
//! - What became of a life is kept to the end, in a list with a place of 16 bytes at most for each life that was drawn: an
//!   item may wait for any of them. A `_DATABASE` call and a batch of LOG_STACK draw a life too.
//! - The machines that were started are kept by their prefixes, in a list by their numbers, in the world as in the core.
//! - A request is handed to `apply` by reference. A set, a clear and an atomic operation copy their key and their value or
//!   operand once; what is kept of a range shares a long key's memory.
#![tactic(auto)]

mod contents;
mod core_state;
mod directories;
mod lives;
mod machines;

pub use core_state::Core;
