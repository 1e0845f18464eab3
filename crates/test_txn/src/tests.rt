use conflict_ranges::{RangeSet, WriteIndex};
use fdb_calls::{Outcome, Tr, TrFault};
use key_bytes::{Bytes, Key, KeyRange, Pair, Pairs};
use model_database::{AtomicOp, Code, Tried};
use std::alloc::{AllocError, Global};
use txn_core::{Txn, TxnOn};
use version_store::Store;

mod commits;
mod writes;

// A key with its value, and a range of keys, as a test writes them.
type Entry = (&'static [u8], &'static [u8]);

type Span = (&'static [u8], &'static [u8]);

// A transaction over a store. Each function below takes one step, and what owns a world lends it to the
// functions that take steps: a function that owns one and may end at many places has to be proved at each of them.
struct World {
    alloc: Global,
    store: Store,
    index: WriteIndex,
    first: Txn,
}

// Written out, so that its owner's proof sees one call where it ends.
impl Drop for World {
    fn drop(self) {
        let World {
            alloc: _,
            store: _,
            index: _,
            first: _,
        } = self;
    }
}

fn pair_of(alloc: Global, entry: Entry) -> Result<Pair, AllocError> {
    let key = Bytes::from_slice(alloc, entry.0)?;
    let value = Bytes::from_slice(alloc, entry.1)?;
    Ok(Pair { key, value })
}

fn fill(alloc: Global, pairs: &mut Pairs, entries: &[Entry]) -> Result<(), AllocError> {
    for entry in entries {
        pairs.push(pair_of(alloc, *entry)?)?;
    }
    Ok(())
}

fn pairs_of(alloc: Global, entries: &[Entry]) -> Result<Pairs, AllocError> {
    let mut pairs = Pairs::new(alloc);
    fill(alloc, &mut pairs, entries)?;
    Ok(pairs)
}

// Version 1 has these pairs. The transaction is life 0.
fn world_over(alloc: Global, entries: &[Entry]) -> Result<World, AllocError> {
    let store = Store::load(alloc, pairs_of(alloc, entries)?)?;
    Ok(World {
        alloc,
        store,
        index: WriteIndex::new(alloc),
        first: Txn::new(alloc, 0),
    })
}

fn range_of(alloc: Global, span: Span) -> Result<KeyRange, AllocError> {
    let begin = Bytes::from_slice(alloc, span.0)?;
    let end = Bytes::from_slice(alloc, span.1)?;
    Ok(KeyRange { begin, end })
}

fn is_span(range: (&Key, &Key), span: &Span) -> bool {
    range.0.as_slice() == span.0 && range.1.as_slice() == span.1
}

// Whether the ranges of a set are these.
fn are_spans(ranges: &RangeSet, spans: &[Span]) -> bool {
    ranges.len() == spans.len()
        && ranges
            .ranges()
            .zip(spans)
            .all(|(range, span)| is_span(range, span))
}

fn is_value(read: &Option<Bytes>, value: Option<&[u8]>) -> bool {
    match read {
        Some(read) => value == Some(read.as_slice()),
        None => value.is_none(),
    }
}

// The versionstamp with which a test asks what a commit changes, and its write conflict ranges.
const STAMP: &[u8; 10] = b"stampstamp";

impl World {
    fn first(&mut self) -> TxnOn<'_> {
        TxnOn {
            txn: &mut self.first,
            store: &self.store,
            index: &self.index,
        }
    }
}
