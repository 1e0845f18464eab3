//! Why machines that run beside one another make one run, and why a run by turns has one order.
//!
//! Each machine by itself is a fold over the replies that it gets (`specs/Alone.antt`). Where their requests were answered one
//! after the other by the steps of the world, each after its machine was started, the order in which they were answered is that of
//! a run, and its machines are those that ran by themselves (`specs/Weaving.antt`). So nothing of how machines ran beside one
//! another is left but the order.
//!
//! `model_machine` says by a relation whose turn it is (`AreByTurns`), which names no loop. That is enough: two orders that both lead
//! to a complete run, and in both of which requests were taken by turns, are one (`specs/OneOrder.antt`). So a run without an order of
//! its own has one dump.
#![tactic(auto)]

ghost use Rattle.laws_threads.specs.Weaving.{WeaveToARun, WeaveToAWholeRun};

mod by_turns;

pub use by_turns::turns_are_one;

/// Shows to a proof that machines that each ran by themselves, with the replies of one order, are the machines
/// of the run of that order. It does nothing when it runs.
pub fn machines_weave_to_a_run()
    ensures run { WeaveToARun }
    ensures whole { WeaveToAWholeRun }
{}
