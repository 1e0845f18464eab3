//! Each call of each layer, over a transaction on an empty store.

mod lines;

use conflict_ranges::WriteIndex;
use fdb_subspace::Subspace;
use key_bytes::{Bytes, Pairs};
use recipe_layers::{RecipeFault, add, pop, push, read, size, subtract, values, write};
use std::alloc::{AllocError, Global};
use txn_core::{Txn, TxnOn};
use version_store::Store;

// What a transaction on an empty store works with.
#[derive(Drop)]
struct Stage {
    store: Store,
    index: WriteIndex,
    txn: Txn,
    space: Subspace,
}

fn make_stage(alloc: Global) -> Result<Stage, AllocError> {
    Ok(Stage {
        store: Store::load(alloc, Pairs::new(alloc))?,
        index: WriteIndex::new(alloc),
        txn: Txn::new(alloc, 0),
        space: Subspace {
            prefix: Bytes::from_slice(alloc, b"s")?,
        },
    })
}

// The first byte of what was popped, or 0.
fn first_byte(value: &Option<Bytes>) -> u8 {
    match value {
        None => 0,
        Some(bytes) => bytes.as_slice().first().copied().unwrap_or(0),
    }
}

// What is popped behind two pushes: each item once, in their order, and then none.
fn popped(alloc: Global) -> Result<(u8, u8, u8), RecipeFault> {
    let mut stage = make_stage(alloc)?;
    let mut on = TxnOn {
        txn: &mut stage.txn,
        store: &stage.store,
        index: &stage.index,
    };
    push(&mut on, &stage.space, b"a")?;
    push(&mut on, &stage.space, b"b")?;
    let first = pop(&mut on, &stage.space)?;
    let second = pop(&mut on, &stage.space)?;
    let third = pop(&mut on, &stage.space)?;
    Ok((first_byte(&first), first_byte(&second), first_byte(&third)))
}

#[test]
fn a_queue_gives_its_items_in_order(rt: HostRuntime) {
    assert!(rt; matches!(popped(rt.alloc()), Ok((b'a', b'b', 0))));
}

// How many values a key has, and the count of the first, behind two adds and a subtract.
fn counted(alloc: Global) -> Result<(usize, u64), RecipeFault> {
    let mut stage = make_stage(alloc)?;
    let mut on = TxnOn {
        txn: &mut stage.txn,
        store: &stage.store,
        index: &stage.index,
    };
    add(&mut on, &stage.space, b"k", b"v")?;
    add(&mut on, &stage.space, b"k", b"v")?;
    subtract(&mut on, &stage.space, b"k", b"v")?;
    let counts = values(&mut on, &stage.space, b"k")?;
    let mut first = 0;
    for count in counts.as_slice() {
        first = count.count;
    }
    Ok((counts.len(), first))
}

#[test]
fn a_pair_has_its_count(rt: HostRuntime) {
    assert!(rt; matches!(counted(rt.alloc()), Ok((1, 1))));
}

// The size and the bytes behind two writes, and whether a third past their end is refused by their size.
fn written(alloc: Global) -> Result<(u64, Bytes, bool), RecipeFault> {
    let mut stage = make_stage(alloc)?;
    let mut on = TxnOn {
        txn: &mut stage.txn,
        store: &stage.store,
        index: &stage.index,
    };
    write(&mut on, &stage.space, 0, b"abc")?;
    write(&mut on, &stage.space, 1, b"X")?;
    let len = size(&mut on, &stage.space)?;
    let bytes = read(&mut on, &stage.space, 0, 10)?;
    let past = write(&mut on, &stage.space, 9, b"z");
    Ok((
        len,
        bytes,
        matches!(past, Err(RecipeFault::PastEnd { size: 3 })),
    ))
}

#[test]
fn bytes_are_overwritten(rt: HostRuntime) {
    let result = written(rt.alloc());
    assert!(rt; matches!(&result, Ok((3, bytes, true)) if bytes.as_slice() == b"aXc".as_slice()));
}
