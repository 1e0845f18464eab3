//! Posts from several threads.

ghost use Rattle.std.specs.Prelude.{◌≡◌, ◌≤◌, IfOk};
ghost use Rattle.request_line.specs.Line.{sender_line, receiver_line};

use request_line::{Receiver, Sender, open};
use std::alloc::{AllocError, Global};
use std::snapshot::Snapshot;
use std::sync::Wait;
use std::test::Fail;
use std::thread;
use std::thread::{Promise, PromisedHandle, Threads};

// Three items of one sender, as they are taken.
fn three_taken<R: Wait>(rt: &R, alloc: Global) -> Result<[(u64, u32); 3], AllocError> {
    let (mut sender, mut receiver) = open::<u32>(alloc, 4)?;
    sender.post(rt, 1);
    sender.post(rt, 2);
    sender.post(rt, 3);
    Ok([receiver.take(rt), receiver.take(rt), receiver.take(rt)])
}

#[test]
fn takes_in_the_order_posted(rt: HostRuntime) -> Result<(), Fail> {
    assert_eq!(rt; three_taken(&rt, rt.alloc())?, [(0, 1), (0, 2), (0, 3)]);
    Ok(())
}

const EACH: u32 = 1000;

// What came of three threads that posted the numbers below a thousand each.
#[derive(Clone, Copy, Debug, PartialEq, Eq)]
struct Posted {
    rooms: (u32, u32, u32),
    // Whether each item was the next of its sender.
    are_in_order: bool,
    // How many came of each.
    came: (u32, u32, u32),
}

fn posted_from_threads<R: Threads + Wait + Copy + Send + 'static>(
    rt: R,
    alloc: Global,
    capacity: usize,
) -> Result<Posted, AllocError>
    requires holds_one { 1 ≤ capacity }
    requires limit { capacity ≤ 1024 }
{
    let (mut first, mut receiver) = open::<u32>(alloc, capacity)?;
    let mut second = first.split()?;
    let third = second.split()?;
    let rooms = (first.room(), second.room(), third.room());
    let mut next = [
        (first.number(), 0),
        (second.number(), 0),
        (third.number(), 0),
    ];
    let first = poster(rt, first)?;
    let second = poster(rt, second)?;
    let third = poster(rt, third)?;
    let are_in_order = take_each(&rt, &mut receiver, &mut next);
    receiver.close_with(first.join(&rt));
    receiver.close_with(second.join(&rt));
    receiver.close_with(third.join(&rt));
    let came = (next[0].1, next[1].1, next[2].1);
    Ok(Posted {
        rooms,
        are_in_order,
        came,
    })
}

#[derive(Drop)]
struct SameLine(Snapshot<Sender<u32>>);

impl Promise<Sender<u32>> for SameLine {
    ghost kept_by = { λ p s. sender_line s ≡ sender_line p.0.value };
}

type Posting = PromisedHandle<Sender<u32>, SameLine>;

// A thread that posts for this sender, and gives it back.
fn poster<R: Threads + Wait + Copy + Send + 'static>(
    rt: R,
    sender: Sender<u32>,
) -> Result<Posting, AllocError>
    ensures { IfOk result (λ handle. sender_line handle.promise.0.value ≡ sender_line sender) }
{
    let promise = SameLine(Snapshot::of(&sender));
    Ok(thread::spawn_with(&rt, promise, move || post_each(&rt, sender))?)
}

fn post_each<R: Wait>(rt: &R, mut sender: Sender<u32>) -> Sender<u32>
    ensures { sender_line result ≡ sender_line sender }
{
    for item in 0..EACH {
        sender.post(rt, item);
    }
    sender
}

// Whether each item is the next of its sender.
fn take_each<R: Wait>(rt: &R, receiver: &mut Receiver<u32>, next: &mut [(u64, u32)]) -> bool
    ensures { receiver_line receiver.new ≡ receiver_line receiver.old }
{
    let mut are_in_order = true;
    for _ in 0..3 * EACH {
        let (number, item) = receiver.take(rt);
        are_in_order &= is_next(next, number, item);
    }
    are_in_order
}

// Whether an item is the next one of its sender, which is counted.
fn is_next(next: &mut [(u64, u32)], number: u64, item: u32) -> bool {
    for (sender, expected) in next {
        if *sender == number {
            let is_next = item == *expected && item < EACH;
            *expected = item.saturating_add(1);
            return is_next;
        }
    }
    false
}

#[test]
fn three_threads_post_a_thousand_items_each(rt: HostRuntime) -> Result<(), Fail> {
    let wanted = Posted {
        rooms: (62, 61, 61),
        are_in_order: true,
        came: (EACH, EACH, EACH),
    };
    assert_eq!(rt; posted_from_threads(rt, rt.alloc(), 16)?, wanted);
    assert_eq!(rt; posted_from_threads(rt, rt.alloc(), 1)?, wanted);
    Ok(())
}
