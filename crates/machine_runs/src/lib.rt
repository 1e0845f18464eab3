//! Runs of the machines over the core, by turns or by a given order, and what is rendered of their ends.
//!
//! `drive` takes the requests by turns and `follow` by the order of a replay: each has the core take one request after the other,
//! gives the reply to the machine that asked, and adds the machine that it starts. At the end the dump is rendered of the machines,
//! of the order and of the map, or the summary. `specs/Driving.antt` says how core and machines stand to a run in between,
//! `specs/Outputs.antt` what is rendered, and `specs/Misfits.antt` why an order can't be followed. Nothing here waits or starts a
//! thread: the run in threads, whose end is rendered here too, is `threaded_runs`.
//!
//! # Choices
//!
//! - `drive` is three loops, one in the other, one for each thing that ends: machines that may still be started, instructions
//!   that are left, and what is left to poll for and to log within one instruction. A measure that joins the three would be
//!   one number that no reader can check.
//! - Whose turn it is, is looked for among the suspended machines from the last machine on: one step where all ask, at most 64
//!   where all others have stopped.
//! - The order of a replay is judged while it is followed, since whether a machine has a request at a place depends on the
//!   run up to it. So an order that can't be followed costs the run of what stands before.
//! - The memory of the core and of the machines isn't given back at the end of a run (`rendered_of`), since the program ends
//!   then. What runs machines again and again in one process keeps that memory to its end. A run that is refused gives it
//!   back.
//! - A dump begins with room for 64 bytes for each pair that was loaded (`rendered_of`), so that a long dump is seldom moved.
//!   Where there is no memory for so much at once the dump grows from nothing.
//! - A machine that was started is seated by a function that isn't inlined (`use_and_suspended`): a suspended machine is large, and
//!   compiled code sets a large local to zero wherever its function is entered.
#![tactic(auto)]

mod driving;
mod dumping;
mod fault;
mod replaying;
mod running;
mod summing;

pub use driving::shows_short;
pub use fault::OrderFault;
pub use replaying::replay;
pub use running::{Ended, Rendered, first_suspended, generate, rendered_of, run_by_turns};
