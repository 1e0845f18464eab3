//! A machine in its thread.
//!
//! A `ThreadedMachine` is a suspended machine, its client, and the waiters of its requests in the order in which it asked. It asks,
//! waits for the reply and uses it, until a request was answered that a machine was started, or until it has stopped and posts its
//! Over. `specs/Threaded.antt` says what it has asked and come to: by itself, over the replies that its waiters have shown.
//!
//! A machine that can't go on, for want of memory, posts its Over too, and that of a machine that a reply to it said was started and
//! that isn't run (`give_up`). Nothing is refused between a post and its reply.
//!
//! # Choices
//!
//! - Each Over that is owed is posted on every way out, so that the thread of the core ends: a machine's own, and that of a
//!   machine that a reply to it said was started and that can't run. A refusal names the machine whose Over is owed
//!   (`Refused`). Nothing is refused between the post of a request and the use of its reply: what can be taken before is
//!   taken before.
//! - A reply that says that a machine was started where none was asked for, which no core gives, is dealt with as where memory is
//!   wanting: a thread sees its own machine alone, and that a reply is the core's is known only once its waiter was settled.
#![tactic(auto)]

mod refusal;
mod threaded;

pub use refusal::Refused;
pub use threaded::ThreadedMachine;
