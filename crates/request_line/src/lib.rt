//! A line from many senders to one receiver, over a bounded channel.
//!
//! `open` makes a line with its first sender and its receiver. `Sender::split` makes a further sender, which may move to
//! another thread. `Sender::post` puts an item at the end of the line, and `Receiver::take` takes the item at its front and
//! names the sender. `Receiver::close_with` closes a sender, which is the end of it, and tells what was taken of it.
//!
//! Contracts see the words of `specs/Line.antt`: the `history` of a sender; the list `taken` of the items that the receiver
//! took, each with its sender's number; the list `closed` of the senders that it closed; and the line that an end belongs to,
//! which no running call tells. A sender has a span of numbers (`specs/History.antt`), whose least is its own number. The first
//! sender has all numbers below 2^63, and a split divides the span between the two.
//!
//! Of each sender closed so far `close_with` says, in the words of `specs/Taking.antt`:
//!
//! - What was taken of it is a prefix of what it posted, in its order, each once.
//! - Where as many items were taken of it as it posted, they are all that it posted.
//! - Each of its items was taken after all that the sender which it was split from had posted before the split.
//!
//! No number is in the spans of two of them. Where they have together all numbers below 2^63, each item taken is of one of them.
//!
//! These hold by a rule that each step of each thread keeps (`specs/Spans.antt`; `proofs/Steps.antt` and `proofs/Learned.antt`
//! have the proofs). Nothing is claimed of the order between two senders that neither was split from, of when a call returns,
//! or that it does.
#![tactic(auto)]

mod ends;
mod history;
mod view;

pub use ends::{Receiver, Sender, open};
pub use history::History;
