//! A call of the allocator.

use conflict_ranges::WriteIndex;
use fdb_subspace::Subspace;
use key_bytes::{Bytes, Pairs};
use outside::ListWords;
use prefix_allocator::{AllocFault, allocate};
use std::alloc::{AllocError, Global};
use txn_core::{Txn, TxnOn};
use version_store::Store;

fn space(alloc: Global) -> Result<Subspace, AllocError> {
    Ok(Subspace {
        prefix: Bytes::from_slice(alloc, b"s")?,
    })
}

// The number that is granted on a store, where the first random word is 5.
fn granted_on(alloc: Global, store: &Store, txn: &mut Txn) -> Result<u64, AllocFault> {
    let index = WriteIndex::new(alloc);
    let mut words = ListWords::new(alloc, &[5])?;
    let space = space(alloc)?;
    let mut on = TxnOn {
        txn,
        store,
        index: &index,
    };
    allocate(alloc, &mut on, &space, &mut words)
}

// The same over no pairs.
fn granted(alloc: Global) -> Result<u64, AllocFault> {
    let store = Store::load(alloc, Pairs::new(alloc))?;
    let mut txn = Txn::new(alloc, 0);
    granted_on(alloc, &store, &mut txn)
}

#[test]
fn a_number_is_granted(rt: HostRuntime) {
    assert!(rt; matches!(granted(rt.alloc()), Ok(5)));
}
