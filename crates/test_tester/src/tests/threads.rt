//! Machines in threads of their own.

use super::*;
use dump_text::{EndWord, Order, write_machine_line, write_order_line, write_pair_line};
use fdb_tuple::{Elem, pack_element_into};
use generator::gen_pairs;
use key_bytes::{Bytes, Pair, Pairs};
use outside::{CleanSink, Gate};

// The lines of these pairs, behind those of an order.
pub fn lines_of(alloc: Global, order: &Order, pairs: &Pairs) -> Result<Vec<u8>, AllocError> {
    let mut lines = Vec::new(alloc);
    for machine in order.as_slice() {
        write_order_line(&mut lines, *machine)?;
    }
    for pair in pairs.as_slice() {
        write_pair_line(&mut lines, pair.key.as_slice(), pair.value.as_slice())?;
    }
    Ok(lines)
}

// What a call over these bytes did, with room for a large dump.
pub fn ran_at_large<R: Threads + Wait + Sync + Clone + Drop + Send + 'static, G: Gate>(
    rt: &R,
    alloc: Global,
    gate: &G,
    words: &[&str],
    input: &[u8],
) -> Result<Large, AllocError> {
    let args = args_of(alloc, words)?;
    let mut source = MemSource::new(alloc, input, 4_096, &[])?;
    let mut out = MemSink::new(alloc, 10_000_000, 4_096, &[])?;
    let mut err = CleanSink::new(4_096);
    let outcome = tester(rt, alloc, &args, &mut source, &mut out, &mut err, gate);
    let written = Vec::from_slice(alloc, out.written())?;
    Ok(Large {
        status: outcome.status,
        order: outcome.order,
        written,
    })
}

// A large dump, and what else is asked of its run.
#[derive(Drop)]
pub struct Large {
    pub status: u8,
    pub order: Order,
    pub written: Vec<u8>,
}

// A run of these pairs in threads, and its replay by its own order: the status of the run, how many places its order has, and
// whether the replay has that status and writes the same bytes.
fn run_and_replay<R: Threads + Wait + Sync + Clone + Drop + Send + 'static>(
    rt: &R,
    alloc: Global,
    prefix: &str,
    pairs: &Pairs,
) -> Result<(u8, usize, bool), AllocError> {
    let input = lines_of(alloc, &Order::new(alloc), pairs)?;
    let run = ran_at_large(
        rt,
        alloc,
        &OpenGate,
        &["run", prefix, "630", "--polls", "100000"],
        &input,
    )?;
    let input = lines_of(alloc, &run.order, pairs)?;
    let again = ran_at_large(
        rt,
        alloc,
        &OpenGate,
        &["replay", prefix, "630", "--polls", "100000"],
        &input,
    )?;
    let is_same = again.status == run.status && again.written == run.written;
    Ok((run.status, run.order.len(), is_same))
}

// Main starts eight workers and polls once at least; each worker opens a directory, asks five requests in each of twenty rounds,
// and clears a key.
const LEAST_REQUESTS: usize = 8 + 1 + 8 * 102;

// Whether a replay of such a run is the run. It ends with 3 where main polled as often as it may before the workers had ended.
fn generated<R: Threads + Wait + Sync + Clone + Drop + Send + 'static>(
    rt: &R,
    alloc: Global,
) -> Result<bool, AllocError> {
    let pairs = gen_pairs(alloc, 8)?;
    let (status, places, is_same) = run_and_replay(rt, alloc, "g", &pairs)?;
    Ok(matches!(status, 0 | 3) && is_same && places >= LEAST_REQUESTS)
}

#[test]
fn run_then_replay(rt: HostRuntime) -> Result<(), Fail> {
    assert!(rt; generated(&rt, rt.alloc())?);
    Ok(())
}

// Machine 0 starts 63 machines.
pub const STARTS: [&[u8]; 2] = [b"\x02PUSH\x00\x01q\x00", b"\x02START_THREAD\x00"];

// Each of these sets a key and commits, fifty times.
pub const COMMITS: [&[u8]; 4] = [
    b"\x02PUSH\x00\x01v\x00",
    b"\x02PUSH\x00\x01k\x00",
    b"\x02SET\x00",
    b"\x02COMMIT\x00",
];

// The key of an instruction of a prefix of one byte.
fn instruction_key(alloc: Global, prefix: &[u8], place: usize) -> Result<Bytes, AllocError> {
    let mut key = Vec::new(alloc);
    pack_element_into(&mut key, &Elem::Bytes(Bytes::from_slice(alloc, prefix)?))?;
    pack_element_into(&mut key, &Elem::Int(place as i128))?;
    Bytes::from_vec(key)
}

// Adds so many instructions under a prefix, these again and again.
pub fn add_instructions(
    pairs: &mut Pairs,
    alloc: Global,
    prefix: &[u8],
    values: &[&[u8]],
    count: usize,
) -> Result<(), AllocError> {
    for place in 0..count {
        let Some(value) = values.get(place % values.len().max(1)) else {
            continue;
        };
        let key = instruction_key(alloc, prefix, place)?;
        let value = Bytes::from_slice(alloc, value)?;
        pairs.push(Pair { key, value })?;
    }
    Ok(())
}

fn crowd<R: Threads + Wait + Sync + Clone + Drop + Send + 'static>(
    rt: &R,
    alloc: Global,
) -> Result<(u8, usize, bool), AllocError> {
    let mut pairs = Pairs::new(alloc);
    add_instructions(&mut pairs, alloc, b"p", &STARTS, 126)?;
    add_instructions(&mut pairs, alloc, b"q", &COMMITS, 200)?;
    run_and_replay(rt, alloc, "p", &pairs)
}

#[test]
fn runs_64_machines_of_a_hundred_requests(rt: HostRuntime) -> Result<(), Fail> {
    assert_eq!(rt; crowd(&rt, rt.alloc())?, (0, 6_363, true));
    Ok(())
}

// Each machine starts one more under the same prefix.
const STARTS_ITSELF: &[u8] = b"K \\x01p\\x00\\x14\\=\\x02PUSH\\x00\\x01p\\x00\n\
K \\x01p\\x00\\x15\\x01\\=\\x02START_THREAD\\x00\n";

// The dump of its run: the last of 64 machines may start none.
fn all_started(alloc: Global) -> Result<Vec<u8>, AllocError> {
    let mut dump = Vec::new(alloc);
    for number in 0..63 {
        write_machine_line(&mut dump, number, EndWord::Ended, 2, b"p")?;
    }
    write_machine_line(&mut dump, 63, EndWord::MachineLimit, 1, b"p")?;
    for number in 0..64 {
        write_order_line(&mut dump, number)?;
    }
    dump.extend_from_slice(STARTS_ITSELF)?;
    Ok(dump)
}

// The status of its run, and whether it writes that dump.
fn chain<R: Threads + Wait + Sync + Clone + Drop + Send + 'static>(
    rt: &R,
    alloc: Global,
) -> Result<(u8, bool), AllocError> {
    let large = ran_at_large(rt, alloc, &OpenGate, &WORDS, STARTS_ITSELF)?;
    Ok((large.status, large.written == all_started(alloc)?))
}

#[test]
fn machines_start_machines_up_to_64(rt: HostRuntime) -> Result<(), Fail> {
    assert_eq!(rt; chain(&rt, rt.alloc())?, (3, true));
    Ok(())
}
