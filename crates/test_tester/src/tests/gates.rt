//! The gate that each machine passes before each of its requests.

use super::threads::{COMMITS, STARTS, add_instructions, lines_of, ran_at_large};
use super::*;
use dump_text::Order;
use key_bytes::Pairs;
use once_cell::race::OnceBool;
use outside::{Gate, RestingGate};
use std::sync::atomic::{AtomicBool, AtomicU64, Ordering};
use std::time::Clock;

// How often a machine looks for the flag of the other, at most.
const LOOKS: u32 = 100_000_000;

// Machine 0 starts machine 1, and then each reads a key, machine 1 twice.
const READS: &[u8] = b"K \\x01p\\x00\\x14\\=\\x02PUSH\\x00\\x01q\\x00\n\
K \\x01p\\x00\\x15\\x01\\=\\x02START_THREAD\\x00\n\
K \\x01p\\x00\\x15\\x02\\=\\x02PUSH\\x00\\x01k\\x00\n\
K \\x01p\\x00\\x15\\x03\\=\\x02GET\\x00\n\
K \\x01q\\x00\\x14\\=\\x02PUSH\\x00\\x01k\\x00\n\
K \\x01q\\x00\\x15\\x01\\=\\x02GET\\x00\n\
K \\x01q\\x00\\x15\\x02\\=\\x02PUSH\\x00\\x01k\\x00\n\
K \\x01q\\x00\\x15\\x03\\=\\x02GET\\x00\n";

// Before its second request machine 0 raises its flag and waits for that of machine 1, which does the same before its first
// request. No order of one thread lets both see the flag of the other.
#[derive(Drop)]
struct MeetingGate {
    flags: [OnceBool; 2],
    seen: [OnceBool; 2],
}

impl MeetingGate {
    fn new() -> MeetingGate {
        MeetingGate {
            flags: [OnceBool::new(), OnceBool::new()],
            seen: [OnceBool::new(), OnceBool::new()],
        }
    }

    // Whether each saw the flag of the other.
    fn have_met(&self) -> bool {
        self.seen.iter().all(|seen| seen.get() == Some(true))
    }
}

// Raises a flag, and notes whether the other was seen.
fn meet(own: &OnceBool, other: &OnceBool, seen: &OnceBool) {
    let _raised = own.set(true);
    for _ in 0..LOOKS {
        if other.get() == Some(true) {
            let _noted = seen.set(true);
            return;
        }
    }
}

impl Gate for MeetingGate {
    fn pass(&self, machine: u16, place: u64) {
        match (machine, place) {
            (0, 1) => meet(&self.flags[0], &self.flags[1], &self.seen[0]),
            (1, 0) => meet(&self.flags[1], &self.flags[0], &self.seen[1]),
            _ => {}
        }
    }
}

// The status of the run through that gate, and whether the two machines met.
fn meeting<R: Threads + Wait + Sync + Clone + Drop + Send + 'static>(
    rt: &R,
    alloc: Global,
) -> Result<(u8, bool), AllocError> {
    let args = args_of(alloc, &WORDS)?;
    let gate = MeetingGate::new();
    let status = status_over_bytes(rt, alloc, &args, READS, &gate)?;
    Ok((status, gate.have_met()))
}

#[test]
fn gate_two_machines(rt: HostRuntime) -> Result<(), Fail> {
    assert_eq!(rt; meeting(&rt, rt.alloc())?, (0, true));
    Ok(())
}

// How many machines a counting gate knows.
const MACHINES: usize = 4;

// Counts what each machine passes, and notes where a pass is not at the place of the machine's next request. It adds up how often
// machines had polled where they were to rest.
#[derive(Drop)]
struct CountingGate {
    passed: [AtomicU64; MACHINES],
    has_strayed: AtomicBool,
    polled: AtomicU64,
}

impl CountingGate {
    fn new() -> CountingGate {
        CountingGate {
            passed: [
                AtomicU64::new(0),
                AtomicU64::new(0),
                AtomicU64::new(0),
                AtomicU64::new(0),
            ],
            has_strayed: AtomicBool::new(false),
            polled: AtomicU64::new(0),
        }
    }

    // What each machine passed.
    fn passed(&self) -> [u64; MACHINES] {
        [
            self.passed[0].load(Ordering::SeqCst),
            self.passed[1].load(Ordering::SeqCst),
            self.passed[2].load(Ordering::SeqCst),
            self.passed[3].load(Ordering::SeqCst),
        ]
    }
}

impl Gate for CountingGate {
    fn pass(&self, machine: u16, place: u64) {
        let is_next = match self.passed.get(usize::from(machine)) {
            Some(passed) => passed.fetch_add(1, Ordering::SeqCst) == place,
            None => false,
        };
        if !is_next {
            self.has_strayed.store(true, Ordering::SeqCst);
        }
    }

    fn rest(&self, polled: u32) {
        self.polled.fetch_add(u64::from(polled), Ordering::SeqCst);
    }
}

// How many lines of a dump are these.
fn lines_in(dump: &[u8], line: &[u8]) -> u64 {
    let mut count = 0u64;
    for found in dump.split(|byte| *byte == b'\n') {
        if found == line {
            count = count.saturating_add(1);
        }
    }
    count
}

// What each machine passed, how many places each has in the order of the dump, and whether a pass was at another place than the next.
type Passes = ([u64; MACHINES], [u64; MACHINES], bool);

// Machine 0 starts three machines, and each of these commits five times.
fn passes<R: Threads + Wait + Sync + Clone + Drop + Send + 'static>(
    rt: &R,
    alloc: Global,
) -> Result<Passes, AllocError> {
    let mut pairs = Pairs::new(alloc);
    add_instructions(&mut pairs, alloc, b"p", &STARTS, 6)?;
    add_instructions(&mut pairs, alloc, b"q", &COMMITS, 20)?;
    let input = lines_of(alloc, &Order::new(alloc), &pairs)?;
    let gate = CountingGate::new();
    let dump = ran_at_large(rt, alloc, &gate, &WORDS, &input)?.written;
    let places = [
        lines_in(&dump, b"O 0"),
        lines_in(&dump, b"O 1"),
        lines_in(&dump, b"O 2"),
        lines_in(&dump, b"O 3"),
    ];
    Ok((
        gate.passed(),
        places,
        gate.has_strayed.load(Ordering::SeqCst),
    ))
}

// A pass before an Over would be one more than the machine has places.
#[test]
fn each_request_passes_the_gate_once_and_no_over_does(rt: HostRuntime) -> Result<(), Fail> {
    let (passed, places, has_strayed) = passes(&rt, rt.alloc())?;
    assert_eq!(rt; (passed, has_strayed), (places, false));
    assert_eq!(rt; places, [3, 10, 10, 10]);
    Ok(())
}

// A version is awaited that no commit decides.
const WAITS: [&[u8]; 2] = [b"\x02GET_VERSIONSTAMP\x00", b"\x02POP\x00"];

// The status of such a run with so many polls.
fn status_of_waiting<R: Threads + Wait + Sync + Clone + Drop + Send + 'static, G: Gate>(
    rt: &R,
    alloc: Global,
    gate: &G,
    polls: &str,
) -> Result<u8, AllocError> {
    let mut pairs = Pairs::new(alloc);
    add_instructions(&mut pairs, alloc, b"p", &WAITS, 2)?;
    let input = lines_of(alloc, &Order::new(alloc), &pairs)?;
    let words = ["run", "p", "630", "--polls", polls];
    Ok(ran_at_large(rt, alloc, gate, &words, &input)?.status)
}

// The status of a run with five polls, and the sum of what the gate was told.
fn rests<R: Threads + Wait + Sync + Clone + Drop + Send + 'static>(
    rt: &R,
    alloc: Global,
) -> Result<(u8, u64), AllocError> {
    let gate = CountingGate::new();
    let status = status_of_waiting(rt, alloc, &gate, "5")?;
    Ok((status, gate.polled.load(Ordering::SeqCst)))
}

// The status of a run with ten polls that sleeps by the clock.
fn status_of_resting<R: Threads + Wait + Sync + Clone + Drop + Send + Clock + 'static>(
    rt: &R,
    alloc: Global,
) -> Result<u8, AllocError> {
    status_of_waiting(rt, alloc, &RestingGate { clock: rt }, "10")
}

// The gate is told of one poll, of two, of three and of four, and not behind the last.
#[test]
fn a_machine_rests_before_it_polls_again(rt: HostRuntime) -> Result<(), Fail> {
    assert_eq!(rt; rests(&rt, rt.alloc())?, (3, 10));
    assert_eq!(rt; status_of_resting(&rt, rt.alloc())?, 3);
    Ok(())
}
