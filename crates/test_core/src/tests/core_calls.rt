//! The calls of a core.

use client_core::Core;
use fdb_calls::{Reply, Request, TxnCall};
use key_bytes::{Bytes, Key, Pair, Pairs};
use model_commands::RunArgs;
use model_database::Api;
use outside::ListWords;
use std::alloc::{AllocError, Global};
use std::test::Fail;

fn pair(alloc: Global, key: &[u8]) -> Result<Pair, AllocError> {
    let key = Bytes::from_slice(alloc, key)?;
    let value = Bytes::from_slice(alloc, b"v")?;
    Ok(Pair { key, value })
}

// An instruction of `p`, and two other keys.
fn pairs(alloc: Global) -> Result<Pairs, AllocError> {
    let mut pairs = Pairs::new(alloc);
    pairs.push(pair(alloc, b"\x01p\0\x14")?)?;
    pairs.push(pair(alloc, b"a")?)?;
    pairs.push(pair(alloc, b"c")?)?;
    Ok(pairs)
}

fn arguments(alloc: Global) -> Result<RunArgs, AllocError> {
    let prefix = Bytes::from_slice(alloc, b"p")?;
    Ok(RunArgs {
        prefix,
        api: Api::V630,
        seed: 0,
        polls: 10,
        window: None,
    })
}

fn new_core(alloc: Global) -> Result<Core, AllocError> {
    Core::load(alloc, &arguments(alloc)?, pairs(alloc)?)
}

// A set on the database.
fn set(alloc: Global) -> Result<Request, AllocError> {
    let key = Bytes::from_slice(alloc, b"b")?;
    let value = Bytes::from_slice(alloc, b"v")?;
    Ok(Request::Database {
        call: TxnCall::Set { key, value },
    })
}

// Whether a core takes a set.
fn takes_set(alloc: Global, core: &mut Core) -> Result<bool, AllocError> {
    let request = set(alloc)?;
    let mut words = ListWords::new(alloc, &[])?;
    if core.applied() > 0 {
        return Ok(false);
    }
    Ok(matches!(&core.apply(0, &request, &mut words), Reply::Done))
}

// A core that took a set; none where it was refused.
fn core_after_set(alloc: Global) -> Result<Option<Core>, AllocError> {
    let mut core = new_core(alloc)?;
    match takes_set(alloc, &mut core) {
        Ok(true) => Ok(Some(core)),
        Ok(false) => Ok(None),
        Err(error) => Err(error),
    }
}

// How many pairs a loop over a core's pairs meets.
fn left(core: &Core) -> usize {
    let mut left = 0usize;
    for _ in core.pairs_left() {
        left = left.wrapping_add(1);
    }
    left
}

fn dumped(core: &Core) -> Result<usize, AllocError> {
    Ok(core.dump_pairs()?.len())
}

// How many pairs are from `a` up to `c`.
fn between(alloc: Global, core: &Core) -> Result<usize, AllocError> {
    let begin: Key = Bytes::from_slice(alloc, b"a")?;
    let end: Key = Bytes::from_slice(alloc, b"c")?;
    Ok(core.pairs_between(&begin, &end)?.len())
}

fn instructions(core: &Core) -> Result<usize, AllocError> {
    Ok(core.instructions(b"p")?.len())
}

// How many pairs each call has, of a core.
fn counts_of(alloc: Global, core: &Core) -> Result<[usize; 4], AllocError> {
    let left = left(core);
    let dumped = dumped(core)?;
    let between = between(alloc, core)?;
    let instructions = instructions(core)?;
    Ok([left, dumped, between, instructions])
}

// The last version, how many requests were applied, and how many pairs each call has, after a set.
fn counted(alloc: Global) -> Result<Option<(u64, u64, [usize; 4])>, AllocError> {
    let Some(core) = core_after_set(alloc)? else {
        return Ok(None);
    };
    let counts = counts_of(alloc, &core);
    let (last, applied) = (core.last(), core.applied());
    drop(core);
    Ok(Some((last, applied, counts?)))
}

#[test]
fn a_core_shows_its_pairs(rt: HostRuntime) -> Result<(), Fail> {
    assert_eq!(rt; counted(rt.alloc())?, Some((2, 1, [4, 4, 2, 1])));
    Ok(())
}
