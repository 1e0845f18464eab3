//! Closing the senders of machines that have ended, and settling their waiters.

ghost use Rattle.std.specs.Prelude.{◌≡◌, ◌<◌, ◌++◌, [], ℕ, List, length, map, slice_get, Some, IfOk, OnOk, IsTrue};
ghost use Rattle.std.specs.List.{All};
ghost use Rattle.future_cell.specs.Cells.{waiter_cell};
ghost use Rattle.request_line.specs.History.{CoverAllNumbers};
ghost use Rattle.request_line.specs.Line.{receiver_line, taken, closed};
ghost use Rattle.request_line.specs.Taking.{Agrees};
ghost use Rattle.network.specs.Clients.{client_line};
ghost use Rattle.network.specs.Posts.{posts_of, asking_in, cells_in, overs_in};
ghost use Rattle.network.specs.Serving.{cells_of, replies_of};
ghost use Rattle.network.specs.Pairing.{receipts_of};
ghost use Rattle.threaded_machine.specs.Threaded.{history_of, shown_by, HasEnded};
ghost use Rattle.machine_threads.specs.Closing.{AreNumbered, AreSettled};

use fdb_calls::Reply;
use future_cell::{Receipt, Waiter, Wake, settle_in_place};
use model_input::Order;
use network::{Post, Receipts};
use request_line::Receiver;
use std::alloc::{AllocError, Global};
use suspended_machine::SuspendedMachine;
use threaded_machine::ThreadedMachine;

/// What is left of a machine once its sender was closed.
#[derive(Drop)]
struct Unsettled {
    suspended: SuspendedMachine,
    waiters: Vec<Waiter<Reply, Wake>>,
}

/// Closes the senders of all machines that ran, and settles each waiter against its receipt: the suspended machines, by their
/// numbers. It is refused for want of memory; numbers that are not those from 0 on, each once, which no core gives, are dealt with
/// alike.
pub fn settle_machines(
    alloc: Global,
    receiver: Receiver<Post>,
    order: &Order,
    receipts: Receipts,
    ended: Vec<ThreadedMachine>,
) -> Result<Vec<SuspendedMachine>, AllocError>
    requires none_closed { closed receiver ≡ [] }
    requires one_line { All (λ one. client_line one.client ≡ receiver_line receiver) ended.items }
    requires cover { CoverAllNumbers (map history_of ended.items) }
    requires have_ended { All HasEnded ended.items }
    requires cells { cells_of receipts ≡ cells_in (posts_of (taken receiver)) }
    requires order { order.now ≡ asking_in (posts_of (taken receiver)) }
    requires overs { overs_in (posts_of (taken receiver)) ≡ length ended.items }
    ensures { IfOk result (λ suspended_machines. AreSettled ended.items (taken receiver) order.now receipts suspended_machines.items) }
{
    let mut ended = ended;
    ended.sort_by_key(|one| one.suspended.machine.number())?;
    if !are_numbered(&ended) {
        return Err(AllocError);
    }
    let mut receiver = receiver;
    let unsettled = close_all(alloc, &mut receiver, ended)?;
    let receipts = by_machine(alloc, unsettled.len(), order, receipts)?;
    Ok(settle_each(alloc, unsettled, receipts)?)
}

// Whether the machine of each number stands at that place.
fn are_numbered(ended: &[ThreadedMachine]) -> bool
    ensures { IsTrue result → AreNumbered ended.now }
{
    for (place, one) in ended.iter().enumerate() {
        if usize::from(one.suspended.machine.number()) != place {
            return false;
        }
    }
    true
}

// Closes the sender of each machine.
fn close_all(
    alloc: Global,
    receiver: &mut Receiver<Post>,
    ended: Vec<ThreadedMachine>,
) -> Result<Vec<Unsettled>, AllocError>
    requires one_line { All (λ one. client_line one.client ≡ receiver_line receiver.old) ended.items }
    ensures closed { OnOk result (closed receiver.new ≡ closed receiver.old ++ map history_of ended.items) }
    ensures agrees { OnOk result (0 < length ended.items → Agrees (taken receiver.new) (closed receiver.new)) }
    ensures taken { OnOk result (taken receiver.new ≡ taken receiver.old) }
    ensures suspended_machines { IfOk result (λ unsettled. map (λ one. one.suspended) unsettled.items ≡ map (λ one. one.suspended) ended.items) }
    ensures waiters { IfOk result (λ unsettled. map (λ one. one.waiters.items) unsettled.items ≡ map (λ one. one.waiters.items) ended.items) }
{
    let mut unsettled = Vec::with_capacity(alloc, ended.len())?;
    for one in ended {
        let ThreadedMachine {
            suspended,
            client,
            waiters,
        } = one;
        receiver.close_with(client.into_sender());
        unsettled.push(Unsettled { suspended, waiters })?;
    }
    Ok(unsettled)
}

// The receipts of each machine, in order, by their numbers.
fn by_machine(
    alloc: Global,
    machines: usize,
    order: &Order,
    receipts: Receipts,
) -> Result<Vec<Vec<Receipt<Reply, Wake>>>, AllocError>
    requires each { length order.now ≡ length receipts }
    requires named { All (λ machine. machine < machines) order.now }
    ensures as_many { IfOk result (λ sorted. length sorted.items ≡ machines) }
    ensures sorted { IfOk result (λ sorted. (number : ℕ) (own : _) → slice_get sorted.items number ≡ Some own
        → own.items ≡ receipts_of number order.now receipts) }
{
    let mut sorted = none_yet(alloc, machines)?;
    for (machine, receipt) in order.as_slice().iter().zip(receipts) {
        match sorted.get_mut(usize::from(*machine)) {
            Some(own) => own.push(receipt)?,
            None => unreachable!(),
        }
    }
    Ok(sorted)
}

// No receipts, for each of so many machines.
fn none_yet(alloc: Global, machines: usize) -> Result<Vec<Vec<Receipt<Reply, Wake>>>, AllocError>
    ensures as_many { IfOk result (λ sorted. length sorted.items ≡ machines) }
    ensures none { IfOk result (λ sorted. All (λ own. own.items ≡ []) sorted.items) }
{
    let mut sorted = Vec::with_capacity(alloc, machines)?;
    for _ in 0..machines {
        sorted.push(Vec::new(alloc))?;
    }
    Ok(sorted)
}

// Settles each waiter of each machine against its receipt: the suspended machines.
fn settle_each(
    alloc: Global,
    unsettled: Vec<Unsettled>,
    receipts: Vec<Vec<Receipt<Reply, Wake>>>,
) -> Result<Vec<SuspendedMachine>, AllocError>
    requires as_many { length receipts.items ≡ length unsettled.items }
    requires cells { (number : ℕ) (one : _) (own : _) → slice_get unsettled.items number ≡ Some one
        → slice_get receipts.items number ≡ Some own → cells_of own.items ≡ map waiter_cell one.waiters.items }
    ensures suspended_machines { IfOk result (λ suspended_machines. suspended_machines.items ≡ map (λ one. one.suspended) unsettled.items) }
    ensures settled { OnOk result ((number : ℕ) (one : _) (own : _) → slice_get unsettled.items number ≡ Some one
        → slice_get receipts.items number ≡ Some own → (replies : List Reply) → shown_by one.waiters.items ≡ map Some replies
        → replies_of own.items ≡ map Some replies) }
{
    let mut suspended_machines = Vec::with_capacity(alloc, unsettled.len())?;
    for (one, own) in unsettled.into_iter().zip(receipts) {
        let Unsettled { suspended, waiters } = one;
        settle_all(own, waiters);
        suspended_machines.push(suspended)?;
    }
    Ok(suspended_machines)
}

// Settles each waiter of a machine against its receipt, in place: the run is about to end.
fn settle_all(receipts: Vec<Receipt<Reply, Wake>>, waiters: Vec<Waiter<Reply, Wake>>)
    requires { cells_of receipts.items ≡ map waiter_cell waiters.items }
    ensures { (replies : List Reply) → shown_by waiters.items ≡ map Some replies → replies_of receipts.items ≡ map Some replies }
{
    for (receipt, waiter) in receipts.into_iter().zip(waiters) {
        drop(settle_in_place(receipt, waiter));
    }
}
