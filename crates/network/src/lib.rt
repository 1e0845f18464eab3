//! Machines ask a service over a request line: one thread answers, and each machine waits for its own replies.
//!
//! A `Client` is a machine's end of the line. `Client::call` posts an Ask and gives what the machine waits by; `ask` gives the
//! waiter alone, for one that makes its wake only where it has to sleep, and `prepare` makes the next request's cell. `fork` makes
//! the client of a machine that was started, and `over` posts that a machine is over. `serve` takes the posts in the order of the
//! line, has a `Service` answer each Ask, and sets the reply in the Ask's own future, until as many Overs were taken as machines
//! were started: machine 0, and each that a reply says was started.
//!
//! ```text
//! let (sender, mut receiver) = open::<Post>(alloc, 64)?;
//! let mut client = Client::new(0, sender);
//! // in the thread of machine 0:
//! let Asked { mut waiter, wake, sleeper } = client.call(rt, alloc, request)?;
//! let reply = waiter.wait(rt, wake, sleeper);
//! client.over(rt, 0);
//! // in the thread that answers:
//! let served = serve(rt, alloc, &mut receiver, &mut service);
//! ```
//!
//! `Served` has the order in which machines were answered, and a receipt for each reply, by which the waiter of the same
//! cell is settled. The contracts speak in the words of `specs/`:
//!
//! - `Posts.antt`: what posts ask, the cells in which the replies are awaited, and how many posts are Overs.
//! - `Serving.antt`: what a receiver took in a call, a run of a service's relation, and how all that was asked was replied to.
//! - `Clients.antt`: the machine, the line and the history of a client.
//! - `Pairing.antt`: the receipts of one machine, the machine that a sender asks for, and senders that end with their one Over.
//!
//! What they promise:
//!
//! - While memory lasts, the service was asked once for each Ask taken, in the order taken, and the replies are a run of its
//!   relation from its state before to its state after. The order names the machines of these Asks. The receipts stand in the
//!   same order, each of the cell of its Ask's setter, each set to its reply. No reply is NoMemory.
//! - Whether memory lasted or not, each Ask taken was replied to, in the order taken and in its own cell: the first ones by the
//!   service, and once memory ran out by NoMemory alone. The service takes the receipts of these.
//! - As many Overs were taken as machines were started, whether memory lasted or not.
//! - What `call` and `ask` post is one Ask with the client's machine and the request given. Its setter and the waiter that they
//!   give are of one cell. So the k-th waiter that a client gave is of the cell of its k-th Ask.
//! - Where memory runs out, `call` and `ask` post nothing, and `fork` leaves the client as it was.
//!
//! Laws follow for whoever closes the senders and settles the waiters:
//!
//! - `all_taken` (`proofs/Wholes.antt`): where each sender ends with its one Over, each post is of one of the senders, and as many
//!   Overs were taken as there are senders, all that each of them posted was taken.
//! - `pairs` (`proofs/Pairing.antt`): where a machine asks by one sender and that sender asks for it alone, its receipts, in order, are
//!   of the cells of the Asks taken of that sender; by `pairs_with_waiters` they are then of the cells of its waiters. `asks_by` gives that
//!   premise of all machines, from what each sender posted.
//!
//! Nothing is claimed of when a call returns, or that it does.
#![tactic(auto)]

mod client;
mod post;
mod receipts;
mod service;
mod serving;

pub use client::{Asked, Client};
pub use post::Post;
pub use receipts::Receipts;
pub use service::Service;
pub use serving::{Served, serve};
