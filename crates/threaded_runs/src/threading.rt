//! The run of all machines, each in a thread of its own.

ghost use Rattle.std.specs.Prelude.{◌≡◌, [], length, map, true, None, IfOk};
ghost use Rattle.std.specs.List.{All};
ghost use Rattle.outside.specs.Seeds.{words_from};
ghost use Rattle.suspended_machine.specs.SuspendedMachines.{progress_of, IsSuspended};
ghost use Rattle.laws_threads.specs.Alone.{begun_as};
ghost use Rattle.request_line.specs.History.{CoverAllNumbers};
ghost use Rattle.request_line.specs.Line.{closed, receiver_line, taken};
ghost use Rattle.network.specs.Clients.{client_line};
ghost use Rattle.network.specs.Posts.{asking_in, cells_in, overs_in, posts_of};
ghost use Rattle.network.specs.Serving.{cells_of};
ghost use Rattle.threaded_machine.specs.Threaded.{history_of, HasEnded};
ghost use Rattle.machine_threads.specs.Closing.{AreSettled};
ghost use Rattle.machine_runs.specs.Driving.{EndsFrom};
ghost use Rattle.machine_runs.specs.Outputs.{Renders};
ghost use Rattle.threaded_runs.specs.Serving.{CameBack, IsFresh, IsNetworkOf, IsServed};

use client_core::Core;
use command_words::RunArgs;
use core_service::{CoreService, threads_gather_to_a_run};
use key_bytes::Pairs;
use machine_runs::{Ended, Rendered, first_suspended, rendered_of, run_by_turns};
use machine_threads::{ThreadedMachine, run_machine, settle_machines};
use network::{Post, Served, serve};
use outside::{Gate, PcgWords};
use request_line::{Receiver, Sender, open};
use std::alloc::{AllocError, Global};
use std::snapshot::Snapshot;
use std::sync::atomic::{AtomicBool, Ordering};
use std::sync::{Arc, Wait};
use std::thread;
use std::thread::{Promise, PromisedHandle, Threads};
use suspended_machine::SuspendedMachine;

/// How many posts may wait in the line.
const LINE: usize = 64;

/// What the thread of the core comes back with where it served until all machines were over.
#[derive(Drop)]
struct Answered {
    served: Served,
    receiver: Receiver<Post>,
    service: CoreService,
}

/// What it comes back with.
#[derive(Drop)]
enum Back {
    Served(Answered),
    /// It was called off before it took any post.
    CalledOff {
        receiver: Receiver<Post>,
        service: CoreService,
    },
}

/// What is promised of it, from this receiver and this service.
#[derive(Drop)]
struct Serving(Snapshot<Receiver<Post>>, Snapshot<CoreService>);

impl Promise<Back> for Serving {
    ghost use Rattle.threaded_runs.specs.Serving.{CameBack};

    ghost kept_by = { λ promise back. CameBack promise.0.value promise.1.value back };
}

/// The thread of the core and the line's first sender, or the core, where no thread could be started for it.
enum Network {
    Runs {
        child: PromisedHandle<Back, Serving>,
        sender: Sender<Post>,
    },
    Refused(CoreService),
}

/// Runs machine 0 over these pairs as the arguments say, and each machine that is started, in threads beside one another, until all
/// have ended, and renders the dump. Where the thread of the core can't be started they run by turns. It is refused for want of memory;
/// replies that don't fit one another, which no core gives, are dealt with alike.
pub fn run_threaded<R: Threads + Wait + Sync + Clone + Drop + Send + 'static, G: Gate>(
    rt: &R,
    alloc: Global,
    gate: &G,
    arguments: &RunArgs,
    pairs: Pairs,
) -> Result<Rendered, AllocError>
    ensures { IfOk result (Renders pairs arguments.now) }
{
    let loaded = pairs.len();
    let core = Core::load(alloc, arguments, pairs)?;
    let words = PcgWords::new(arguments.seed);
    let suspended = first_suspended(alloc, arguments, &core)?;
    let ended = run_all(rt, alloc, gate, CoreService { core, words }, suspended)?;
    Ok(rendered_of(
        alloc,
        ended.core,
        ended.suspended_machines,
        ended.order,
        loaded,
    )?)
}

// Runs machine 0 at its suspended machine, over a core that has taken no request, and each machine that is started, until all have
// ended.
fn run_all<R: Threads + Wait + Sync + Clone + Drop + Send + 'static, G: Gate>(
    rt: &R,
    alloc: Global,
    gate: &G,
    service: CoreService,
    suspended: SuspendedMachine,
) -> Result<Ended, AllocError>
    requires is_suspended { IsSuspended suspended }
    requires begun { progress_of suspended ≡ begun_as suspended.machine.machine }
    requires unapplied { service.core.applied ≡ 0 }
    requires alone { length service.core.started ≡ 1 }
    ensures { IfOk result (EndsFrom service.core (words_from service.words) suspended) }
{
    let (sender, receiver) = open::<Post>(alloc, LINE)?;
    match start_network(rt, alloc, sender, receiver, service)? {
        Network::Runs { child, sender } => run_beside(rt, alloc, gate, child, suspended, sender),
        Network::Refused(service) => Ok(run_by_turns(
            alloc,
            service.core,
            service.words,
            suspended,
        )?),
    }
}

// The machines run in their threads, beside that of the core, until all have ended.
fn run_beside<R: Threads + Wait + Sync, G: Gate>(
    rt: &R,
    alloc: Global,
    gate: &G,
    child: PromisedHandle<Back, Serving>,
    suspended: SuspendedMachine,
    sender: Sender<Post>,
) -> Result<Ended, AllocError>
    requires fresh { IsFresh child.promise.0.value sender }
    requires is_suspended { IsSuspended suspended }
    requires begun { progress_of suspended ≡ begun_as suspended.machine.machine }
    ensures { IfOk result (EndsFrom child.promise.1.value.core (words_from child.promise.1.value.words) suspended) }
{
    let machine = ThreadedMachine::new(alloc, suspended, sender);
    let ran = run_machine(rt, alloc, gate, machine, 0);
    let answered = answered_by(rt, alloc, child.join(rt));
    if ran.is_cut {
        return Err(AllocError);
    }
    let team = ran.crew.listed(alloc)?;
    if answered.served.short {
        return Err(AllocError);
    }
    if answered.served.machines != team.len() as u64 {
        return Err(AllocError);
    }
    threads_gather_to_a_run();
    settled(alloc, answered, team)
}

// What came back, with the machines settled against it.
fn settled(
    alloc: Global,
    answered: Answered,
    team: Vec<ThreadedMachine>,
) -> Result<Ended, AllocError>
    requires none_closed { closed answered.receiver ≡ [] }
    requires one_line { All (λ one. client_line one.client ≡ receiver_line answered.receiver) team.items }
    requires cover { CoverAllNumbers (map history_of team.items) }
    requires have_ended { All HasEnded team.items }
    requires cells { cells_of answered.served.receipts ≡ cells_in (posts_of (taken answered.receiver)) }
    requires order { answered.served.order ≡ asking_in (posts_of (taken answered.receiver)) }
    requires overs { overs_in (posts_of (taken answered.receiver)) ≡ length team.items }
    ensures core { IfOk result (λ ended. ended.core ≡ answered.service.core) }
    ensures order { IfOk result (λ ended. ended.order ≡ answered.served.order) }
    ensures settled { IfOk result (λ ended. AreSettled team.items (taken answered.receiver) answered.served.order
        answered.served.receipts ended.suspended_machines.items) }
{
    let order = answered.served.order;
    let receipts = answered.served.receipts;
    let suspended_machines = settle_machines(alloc, answered.receiver, &order, receipts, team)?;
    Ok(Ended {
        core: answered.service.core,
        suspended_machines,
        order,
    })
}

// Starts the thread of the core. Where that can't be, the core comes back.
fn start_network<R: Threads + Wait + Sync + Clone + Drop + Send + 'static>(
    rt: &R,
    alloc: Global,
    sender: Sender<Post>,
    receiver: Receiver<Post>,
    service: CoreService,
) -> Result<Network, AllocError>
    requires { IsFresh receiver sender }
    ensures { IfOk result (IsNetworkOf sender receiver service) }
{
    let called_off = Arc::new(alloc, AtomicBool::new(false))?;
    let flag = called_off.clone()?;
    let own = rt.clone()?;
    let promise = Serving(Snapshot::of(&receiver), Snapshot::of(&service));
    let begun = Serving(Snapshot::of(&receiver), Snapshot::of(&service));
    match thread::spawn_with(
        rt,
        promise,
        move || serve_all(own, alloc, flag, receiver, service),
    ) {
        Ok(child) => Ok(Network::Runs { child, sender }),
        Err(refused) => {
            called_off.store(true, Ordering::Release);
            match (refused.value)() {
                Back::CalledOff {
                    receiver: _,
                    service,
                } => Ok(Network::Refused(service)),
                Back::Served(answered) => {
                    never_served(begun, answered, sender);
                    unreachable!()
                }
            }
        }
    }
}

// Shows that a thread that couldn't be started can't have served: it would have taken an Over, and the one sender has posted nothing.
fn never_served(begun: Serving, answered: Answered, sender: Sender<Post>)
    requires fresh { IsFresh begun.0.value sender }
    requires served { IsServed begun.0.value begun.1.value answered }
    ensures { ⊥ }
{
    let mut receiver = answered.receiver;
    receiver.close_with(sender);
}

// Serves until all machines are over, unless it was called off.
fn serve_all<R: Wait + Drop>(
    rt: R,
    alloc: Global,
    called_off: Arc<AtomicBool>,
    receiver: Receiver<Post>,
    service: CoreService,
) -> Back
    ensures { CameBack receiver service result }
{
    if called_off.load(Ordering::Acquire) {
        return Back::CalledOff { receiver, service };
    }
    Back::Served(serve_from(&rt, alloc, receiver, service))
}

// Serves until all machines are over.
fn serve_from<R: Wait>(
    rt: &R,
    alloc: Global,
    receiver: Receiver<Post>,
    service: CoreService,
) -> Answered
    ensures { IsServed receiver service result }
{
    let mut receiver = receiver;
    let mut service = service;
    let served = serve(rt, alloc, &mut receiver, &mut service);
    Answered {
        served,
        receiver,
        service,
    }
}

// What came back where the thread of the core served. Where it was called off, what was posted is answered here.
fn answered_by<R: Wait>(rt: &R, alloc: Global, back: Back) -> Answered
    ensures { (receiver : _) (service : _) → CameBack receiver service back → IsServed receiver service result }
{
    match back {
        Back::Served(answered) => answered,
        Back::CalledOff { receiver, service } => serve_from(rt, alloc, receiver, service),
    }
}
