use core_service::threads_gather_to_a_run;
use laws_directory::directories_are_found;
use laws_history::{runs_are_legal, steps_are_legal};
use laws_lines::bad_places_are_longest_fronts;
use laws_prefixes::prefixes_are_apart;
use laws_queue::{
    counts_follow_commits, keys_tell_their_indexes, layers_answer_at_their_commits,
    queue_items_come_once, scripts_tell_of_queues,
};
use laws_threads::{machines_weave_to_a_run, turns_are_one};
use outside::{MemSink, MemSource, OpenGate};
use std::alloc::{AllocError, Global};
use std::sync::Wait;
use std::test::Fail;
use std::thread::Threads;
use tester_run::{ArgWords, status_over_bytes, tester};

mod bytewise;
mod gates;
mod threads;

const WORDS: [&str; 3] = ["run", "p", "630"];

// Sets one key and commits.
const SET_ONE_KEY: &[u8] = b"K \\x01p\\x00\\x14\\=\\x02PUSH\\x00\\x01v\\x00\n\
K \\x01p\\x00\\x15\\x01\\=\\x02PUSH\\x00\\x01k\\x00\n\
K \\x01p\\x00\\x15\\x02\\=\\x02SET\\x00\n\
K \\x01p\\x00\\x15\\x03\\=\\x02COMMIT\\x00\n";

const ONE_KEY_SET: &[u8] = b"M 0 ended 4 p\n\
S 0 0 3 \\x01RESULT_NOT_PRESENT\\x00\n\
O 0\n\
O 0\n\
K \\x01p\\x00\\x14\\=\\x02PUSH\\x00\\x01v\\x00\n\
K \\x01p\\x00\\x15\\x01\\=\\x02PUSH\\x00\\x01k\\x00\n\
K \\x01p\\x00\\x15\\x02\\=\\x02SET\\x00\n\
K \\x01p\\x00\\x15\\x03\\=\\x02COMMIT\\x00\n\
K k\\=v\n";

// An instruction that does not exist.
const HELLO: &[u8] = b"K \\x01p\\x00\\x14\\=\\x02PUSH\\x00\\x15\\x01\n\
K \\x01p\\x00\\x15\\x01\\=\\x02HELLO\\x00\n";

fn args_of(alloc: Global, words: &[&str]) -> Result<ArgWords, AllocError> {
    let mut args = ArgWords::new(alloc);
    for word in words {
        args.push(word)?;
    }
    Ok(args)
}

// How many words there are, whether there are none, and whether the last is the API version.
fn words_of(alloc: Global) -> Result<(usize, bool, bool), AllocError> {
    let args = args_of(alloc, &WORDS)?;
    let has_version = args.len() > 2 && args.get(2).as_str() == "630";
    Ok((args.len(), args.is_empty(), has_version))
}

#[test]
fn words_stand_in_their_order(rt: HostRuntime) -> Result<(), Fail> {
    assert_eq!(rt; words_of(rt.alloc())?, (3, false, true));
    Ok(())
}

// What is told by a run whose calls of the source and of the sink fail at these numbers, its status, how many bytes it wrote,
// and whether these are a front of the dump.
fn failing<R: Threads + Wait + Sync + Clone + Drop + Send + 'static>(
    rt: &R,
    alloc: Global,
    reads: &[u64],
    writes: &[u64],
) -> Result<(Vec<u8>, u8, usize, bool), AllocError> {
    let args = args_of(alloc, &WORDS)?;
    let mut source = MemSource::new(alloc, SET_ONE_KEY, 100, reads)?;
    let mut out = MemSink::new(alloc, 10_000, 10, writes)?;
    let mut err = MemSink::new(alloc, 100, 100, &[])?;
    let outcome = tester(rt, alloc, &args, &mut source, &mut out, &mut err, &OpenGate);
    let told = Vec::from_slice(alloc, err.written())?;
    let written = out.written();
    Ok((
        told,
        outcome.status,
        written.len(),
        ONE_KEY_SET.starts_with(written),
    ))
}

#[test]
fn tells_a_failing_source_and_a_failing_sink(rt: HostRuntime) -> Result<(), Fail> {
    let (told, status, len, is_front) = failing(&rt, rt.alloc(), &[1], &[])?;
    assert_eq!(rt; (status, len, is_front), (4, 0, true));
    assert_eq!(rt; told.as_slice(), b"fdbtester: read fault\n".as_slice());
    let (told, status, len, is_front) = failing(&rt, rt.alloc(), &[], &[2])?;
    assert_eq!(rt; (status, len, is_front), (5, 10, true));
    assert_eq!(rt; told.as_slice(), b"fdbtester: write fault\n".as_slice());
    Ok(())
}

// The status of a run over these bytes, with a source and sinks that never fail.
fn status_of<R: Threads + Wait + Sync + Clone + Drop + Send + 'static>(
    rt: &R,
    alloc: Global,
    bytes: &[u8],
) -> Result<u8, AllocError> {
    let args = args_of(alloc, &WORDS)?;
    status_over_bytes(rt, alloc, &args, bytes, &OpenGate)
}

#[test]
fn runs_where_nothing_fails(rt: HostRuntime) -> Result<(), Fail> {
    assert_eq!(rt; status_of(&rt, rt.alloc(), HELLO)?, 3);
    Ok(())
}

// Each call that does nothing and says a law is made once.
#[test]
fn laws_do_nothing(rt: HostRuntime) -> Result<(), Fail> {
    bad_places_are_longest_fronts();
    counts_follow_commits();
    directories_are_found();
    keys_tell_their_indexes();
    layers_answer_at_their_commits();
    machines_weave_to_a_run();
    prefixes_are_apart();
    queue_items_come_once();
    runs_are_legal();
    scripts_tell_of_queues();
    steps_are_legal();
    threads_gather_to_a_run();
    turns_are_one();
    Ok(())
}
