//! A core behind a pipe: requests come in frames, and each is answered by a frame before the next is read.
//!
//! `serve` is the call; its clauses say what `out` holds at each status, and err. `specs/Serving.antt` says what is answered to
//! requests: the replies of the steps of one world. From below: `server.rt` makes the frame of a request's reply on the core,
//! `frames.rt` reads the next request, `halt.rt` says why serving ends early, `telling.rt` writes the line on err, and `top.rt` has the
//! call.
//!
//! # Choices
//!
//! - A frame is read by its number of bytes alone, so nothing behind it is read before it is answered.
//! - A core takes fewer than 2^62 requests, and a frame has fewer than 2^32 bytes. Past either, serving ends as it does where memory
//!   runs out.
#![tactic(auto)]

mod asked;
mod frames;
mod halt;
mod server;
mod telling;
mod top;

pub use halt::Flaw;
pub use top::serve;
