//! The nine calls of a directory layer, in one transaction.

use conflict_ranges::WriteIndex;
use directory::{
    create, create_or_open, exists, list, log, move_to, open, remove, remove_if_exists,
};
use directory_types::{DirArgs, DirFault, DirKind, DirReply, Layer, Path};
use fdb_calls::Tr;
use fdb_tuple::Text;
use key_bytes::{Bytes, Pairs};
use lists::List;
use outside::ListWords;
use std::alloc::{AllocError, Global};
use std::test::Fail;
use txn_core::{Txn, TxnOn};
use version_store::Store;

fn layer(alloc: Global) -> Result<Layer, AllocError> {
    Ok(Layer {
        node: Bytes::from_slice(alloc, b"\xFE")?,
        content: Bytes::new(alloc),
        manual: false,
    })
}

// The path of one name; the root for the empty one.
fn path(alloc: Global, name: &str) -> Result<Path, AllocError> {
    let mut path = List::new(alloc);
    if !name.is_empty() {
        path.push(Text::from_str(alloc, name)?)?;
    }
    Ok(path)
}

fn args(alloc: Global, from: &str, to: &str) -> Result<DirArgs, AllocError> {
    let path = self::path(alloc, from)?;
    let new_path = self::path(alloc, to)?;
    let raw = Bytes::from_slice(alloc, b"log")?;
    Ok(DirArgs {
        path,
        new_path,
        layer: None,
        prefix: None,
        snapshot: false,
        raw,
        index: 7,
    })
}

// What a call is answered, as a test writes it: how many bytes the prefix of a directory has, and how many names there are.
#[derive(Clone, Copy, PartialEq, Eq)]
enum Told {
    Opened(usize),
    Names(usize),
    Is(bool),
    Done,
    Refused,
}

fn told_of(answer: &Result<DirReply, DirFault>) -> Told {
    match answer {
        Ok(DirReply::Opened { prefix, .. }) => Told::Opened(prefix.len()),
        Ok(DirReply::Names(names)) => Told::Names(names.len()),
        Ok(DirReply::Is(is)) => Told::Is(*is),
        Ok(DirReply::Done) => Told::Done,
        Err(_) => Told::Refused,
    }
}

// A call by its name. All random words are 0.
fn call<T: Tr>(
    alloc: Global,
    layer: &Layer,
    tr: &mut T,
    kind: DirKind,
    args: &DirArgs,
) -> Result<Told, AllocError> {
    let mut words = ListWords::new(alloc, &[])?;
    let answer = match kind {
        DirKind::Create => create(alloc, layer, tr, &mut words, args),
        DirKind::CreateOrOpen => create_or_open(alloc, layer, tr, &mut words, args),
        DirKind::Open => open(alloc, layer, tr, &mut words, args),
        DirKind::MoveTo => move_to(alloc, layer, tr, &mut words, args),
        DirKind::Remove => remove(alloc, layer, tr, &mut words, args),
        DirKind::RemoveIfExists => remove_if_exists(alloc, layer, tr, &mut words, args),
        DirKind::List => list(alloc, layer, tr, &mut words, args),
        DirKind::Exists => exists(alloc, layer, tr, &mut words, args),
        DirKind::Log => log(alloc, layer, tr, &mut words, args),
    };
    Ok(told_of(&answer))
}

// A call, the name that it is about and the one that a directory is moved to, and its answer.
type Row = (DirKind, &'static str, &'static str, Told);

const ROWS: &[Row] = &[
    (DirKind::Create, "a", "", Told::Opened(1)),
    (DirKind::CreateOrOpen, "b", "", Told::Opened(2)),
    (DirKind::Open, "a", "", Told::Opened(1)),
    (DirKind::Exists, "b", "", Told::Is(true)),
    (DirKind::MoveTo, "a", "c", Told::Opened(1)),
    (DirKind::List, "", "", Told::Names(2)),
    (DirKind::Log, "c", "", Told::Done),
    (DirKind::Remove, "b", "", Told::Done),
    (DirKind::RemoveIfExists, "b", "", Told::Done),
];

fn is_told<T: Tr>(alloc: Global, tr: &mut T, row: &Row) -> Result<bool, AllocError> {
    let (kind, from, to, wanted) = *row;
    let layer = layer(alloc)?;
    let args = args(alloc, from, to)?;
    Ok(call(alloc, &layer, tr, kind, &args)? == wanted)
}

// The place of the first call that is answered otherwise.
fn first_other<T: Tr>(alloc: Global, tr: &mut T) -> Result<Option<usize>, AllocError> {
    for (place, row) in ROWS.iter().enumerate() {
        if !is_told(alloc, tr, row)? {
            return Ok(Some(place));
        }
    }
    Ok(None)
}

// The same of a transaction on a store.
fn first_other_on(
    alloc: Global,
    store: &Store,
    txn: &mut Txn,
) -> Result<Option<usize>, AllocError> {
    let index = WriteIndex::new(alloc);
    let mut on = TxnOn {
        txn,
        store,
        index: &index,
    };
    first_other(alloc, &mut on)
}

// The same over no pairs.
fn first_other_over_none(alloc: Global) -> Result<Option<usize>, AllocError> {
    let store = Store::load(alloc, Pairs::new(alloc))?;
    let mut txn = Txn::new(alloc, 0);
    first_other_on(alloc, &store, &mut txn)
}

#[test]
fn nine_calls_in_one_transaction(rt: HostRuntime) -> Result<(), Fail> {
    assert_eq!(rt; first_other_over_none(rt.alloc())?, None);
    Ok(())
}
