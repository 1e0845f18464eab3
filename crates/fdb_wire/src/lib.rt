//! Requests and replies as bytes: each is a packed tuple of its name and of what it is about.
//!
//! A request is spelled in the words of the bindings tester, as `("SET", name, key, value)`, a reply as `("VALUE", value)`.
//! `specs/Requests.antt` and `specs/Replies.antt` have a row for each request and each reply of the core. `write_reply` writes every
//! reply; `read_request` reads those requests that a client makes, and refuses all other bytes by their fault and its place
//! (`specs/Refusals.antt`). `spellings_are_apart` has the law that no two requests of a client, and no two replies, are spelled alike.
//! `specs/Reading.antt` has how the reader goes over the elements of a tuple.
#![tactic(auto)]

mod apart;
mod elements;
mod fault;
mod kinds;
mod packing;
mod reading;
mod replies;
mod rows;

pub use apart::spellings_are_apart;
pub use fault::{Unread, WireFault};
pub use reading::read_request;
pub use replies::write_reply;
