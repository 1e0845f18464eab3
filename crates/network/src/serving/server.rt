//! What was served so far.

ghost use Rattle.std.specs.Prelude.{◌≡◌, ◌+◌, Some};
ghost use Rattle.future_cell.specs.Cells.{setter_cell, receipt_cell, value_set};
ghost use Rattle.fdb_calls.specs.declared.Reply.TheVariants as reply;
ghost use Rattle.network.specs.Serving.{replies_of, started_by};

use super::Served;
use crate::post::Post;
use crate::receipts::Receipts;
use crate::service::Service;
use fdb_calls::{Reply, Request};
use future_cell::{Receipt, Setter, Wake};
use lists::List;
use model_input::Order;
use std::alloc::Global;

/// What was served so far: the order, the receipts, whether memory ran out, and how many machines were started and are over.
#[derive(Drop)]
pub struct ServerState {
    pub order: Order,
    pub receipts: Vec<Receipt<Reply, Wake>>,
    pub short: bool,
    pub machines: u64,
    pub over: u64,
    ghost counted: { machines ≡ 1 + started_by (replies_of receipts.items) },
}

impl ServerState {
    ghost use Rattle.std.specs.Prelude.{◌≡◌, ◌≢◌, ◌+◌, ◌≤◌, ◌<◌, ◌++◌, ◌∷◌, [], List, true, false, vec_len, vec_capacity, Some, MatchBool};
    ghost use Rattle.network.specs.declared.post.Post.{Post};
    ghost use Rattle.network.specs.Posts.{overs_in};
    ghost use Rattle.network.specs.Serving.{Replies, Serves};
    ghost use Rattle.network.specs.ServerStates.{AddsReply, AddsReplyTo, AddsAnswer};

    /// Makes the desk at which nothing was served yet, and machine 0 is started.
    pub fn new(alloc: Global) -> ServerState
        ensures nothing { (result.order ≡ []) × (result.receipts.items ≡ []) × (result.short ≡ false) }
        ensures machines { (result.machines ≡ 1) × (result.over ≡ 0) }
    {
        ServerState {
            order: List::new(alloc),
            receipts: Vec::new(alloc),
            short: false,
            machines: 1,
            over: 0,
        }
    }

    /// Answers a post that was taken, if it asks.
    pub fn take<S: Service>(&mut self, service: &mut S, post: Post)
        requires { self.old.over < self.old.machines }
        ensures served { (start : S) (posts : List Post)
            → (self.old.short ≡ false → Serves S.answers start service.old posts self.old.order self.old.receipts.items)
            → self.new.short ≡ false → Serves S.answers start service.new (posts ++ post ∷ []) self.new.order self.new.receipts.items }
        ensures replies { (start : S) (posts : List Post)
            → Replies S.answers S.notes start service.old posts self.old.short self.old.receipts.items
            → Replies S.answers S.notes start service.new (posts ++ post ∷ []) self.new.short self.new.receipts.items }
        ensures over { self.new.over ≡ self.old.over + overs_in (post ∷ []) }
        ensures within { self.new.over ≤ self.new.machines }
    {
        match post {
            Post::Ask {
                machine,
                request,
                setter,
            } => self.answer(service, machine, request.request(), setter),
            Post::Over { machine: _ } => self.over += 1,
        }
    }

    // Has the service answer a request, while memory lasts, and sets the reply.
    fn answer<S: Service>(
        &mut self,
        service: &mut S,
        machine: u16,
        request: &Request,
        setter: Setter<Reply, Wake>,
    )
        ensures answered { self.new.short ≡ false → (self.old.short ≡ false) × AddsAnswer S.answers service.old service.new machine request.now setter
            self.old.order self.old.receipts.items self.new.order self.new.receipts.items }
        ensures replied { AddsReplyTo S.answers S.notes service.old service.new machine request.now setter self.old.short self.old.receipts.items
            self.new.short self.new.receipts.items }
        ensures over { self.new.over ≡ self.old.over }
        ensures machines { self.old.machines ≤ self.new.machines }
    {
        if self.short || !self.make_room(machine) {
            self.short = true;
            service.note_refused(refuse(setter));
            return;
        }
        let reply = service.answer(machine, request);
        self.set(setter, reply);
    }

    // Notes a machine in the order, and makes room for a receipt, if there is memory for both.
    fn make_room(&mut self, machine: u16) -> bool
        ensures room { result ≡ true → (vec_len self.new.receipts < vec_capacity self.new.receipts) × (self.new.order ≡ self.old.order ++ machine ∷ []) }
        ensures receipts { self.new.receipts.items ≡ self.old.receipts.items }
        ensures rest { (self.new.short ≡ self.old.short) × (self.new.machines ≡ self.old.machines) × (self.new.over ≡ self.old.over) }
    {
        self.receipts.reserve(1).is_ok() && self.order.push(machine).is_ok()
    }

    // Sets a reply, and keeps the receipt. No further reply comes from the service once one is NoMemory.
    fn set(&mut self, setter: Setter<Reply, Wake>, reply: Reply)
        requires { vec_len self.old.receipts < vec_capacity self.old.receipts }
        ensures set { AddsReply setter reply self.old.receipts.items self.new.receipts.items }
        ensures short { self.new.short ≡ false → (self.old.short ≡ false) × (reply ≢ Reply.NoMemory) }
        ensures order { self.new.order ≡ self.old.order }
        ensures over { self.new.over ≡ self.old.over }
        ensures machines { self.old.machines ≤ self.new.machines }
    {
        match &reply {
            Reply::Started { .. } => self.machines += 1,
            Reply::NoMemory => self.short = true,
            _ => {}
        }
        let receipt = setter.set(reply);
        match self.receipts.push(receipt) {
            Ok(()) => {}
            Err(_) => unreachable!(),
        }
    }

    /// Returns what was served.
    pub fn close(self) -> Served
        ensures { (result.order ≡ self.order) × (result.receipts ≡ self.receipts.items) × (result.short ≡ self.short) × (result.machines ≡ self.machines) }
    {
        Served {
            order: self.order,
            receipts: Receipts::of(self.receipts),
            short: self.short,
            machines: self.machines,
        }
    }
}

// Sets NoMemory as the reply.
fn refuse(setter: Setter<Reply, Wake>) -> Receipt<Reply, Wake>
    ensures cell { receipt_cell result ≡ setter_cell setter }
    ensures value { value_set result ≡ Some reply.NoMemory }
{
    setter.set(Reply::NoMemory)
}
