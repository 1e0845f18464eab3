//! Answering what comes over the line.

ghost use Rattle.std.specs.Prelude.{◌≡◌, ◌+◌, ◌++◌, false};
ghost use Rattle.request_line.specs.Line.{receiver_line, taken, closed};
ghost use Rattle.network.specs.Posts.{overs_in};
ghost use Rattle.network.specs.Serving.{Replies, Serves, taken_since, posts_since, replies_of, started_by};

use crate::post::Post;
use crate::receipts::Receipts;
use crate::service::Service;
use model_input::Order;
use request_line::Receiver;
use std::alloc::Global;
use std::sync::Wait;

mod server;

use server::ServerState;

/// What was served.
#[derive(Drop)]
pub struct Served {
    /// The machines that asked, in the order in which they were answered.
    pub order: Order,
    /// The receipts of their replies, in the same order.
    pub receipts: Receipts,
    /// Whether memory ran out, in the service or in `serve`. From then on each reply was NoMemory. The service has the receipts of those
    /// that it didn't give.
    pub short: bool,
    /// How many machines were started, machine 0 among them.
    pub machines: u64,
}

/// Answers each Ask, in the order taken, until as many Overs were taken as machines were started: machine 0, and each that a
/// reply says was started. It may wait, and does so for ever where machines do not end. Once memory runs out `short` is true, and
/// each reply from then on is NoMemory.
pub fn serve<S: Service, R: Wait>(
    rt: &R,
    alloc: Global,
    receiver: &mut Receiver<Post>,
    service: &mut S,
) -> Served
    // While memory lasts, of all posts taken in this call: what the service was asked and gave, the order, and the receipts.
    ensures served { result.short ≡ false → Serves S.answers service.old service.new (posts_since receiver.old receiver.new)
        result.order result.receipts }

    // Whether memory lasts or not: how each Ask was replied to, where it ends, and what was taken.
    ensures replies { Replies S.answers S.notes service.old service.new (posts_since receiver.old receiver.new) result.short result.receipts }
    ensures ended { overs_in (posts_since receiver.old receiver.new) ≡ result.machines }
    ensures machines { result.machines ≡ 1 + started_by (replies_of result.receipts) }
    ensures taken { taken receiver.new ≡ taken receiver.old ++ taken_since receiver.old receiver.new }
    ensures closed { closed receiver.new ≡ closed receiver.old }
    ensures line { receiver_line receiver.new ≡ receiver_line receiver.old }
{
    let mut server = ServerState::new(alloc);
    for _ in rt.forever() {
        if server.over == server.machines {
            return server.close();
        }
        let (_, post) = receiver.take(rt);
        server.take(service, post);
    }
    unreachable!()
}
