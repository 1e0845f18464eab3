//! A transaction with many mutations over many stored keys: that its reads take no time in proportion to either.

use super::{push_pair, range_of};
use conflict_ranges::WriteIndex;
use fdb_calls::{Tr, TrFault};
use key_bytes::{KeyRange, Pair, Pairs};
use model_database::{AtomicOp, Mode, RangeOptions};
use std::alloc::{AllocError, Global};
use std::test::Fail;
use txn_core::{Txn, TxnOn};
use version_store::Store;

// How many keys are stored, how many mutations there are at first, and how many reads follow.
const STORED: usize = 100_000;

const EDITS: usize = 1_000;

const READS: usize = 20_000;

// How many pairs are read at a time.
const LIMIT: usize = 10;

// A transaction on its store. The keys are numbers as 8 bytes, the highest first, of which every second one is stored. The
// values are single bytes; the model has the one of each number, and 0 where it has none.
#[derive(Drop)]
struct Large {
    alloc: Global,
    store: Store,
    index: WriteIndex,
    txn: Txn,
    model: Vec<u8>,
}

fn number_key(number: usize) -> [u8; 8] {
    (number as u64).to_be_bytes()
}

fn stored_pairs(alloc: Global) -> Result<Pairs, AllocError> {
    let mut pairs = Pairs::new(alloc);
    for number in 0..STORED {
        push_pair(alloc, &mut pairs, &number_key(2 * number), b"\x01")?;
    }
    Ok(pairs)
}

fn stored_model(alloc: Global) -> Result<Vec<u8>, AllocError> {
    let mut model = Vec::with_capacity(alloc, 2 * STORED)?;
    for _ in 0..STORED {
        model.push(1)?;
        model.push(0)?;
    }
    Ok(model)
}

fn stored(alloc: Global) -> Result<Store, AllocError> {
    Store::load(alloc, stored_pairs(alloc)?)
}

fn new_large(alloc: Global) -> Result<Large, AllocError> {
    let model = stored_model(alloc)?;
    let store = stored(alloc)?;
    Ok(Large {
        alloc,
        store,
        index: WriteIndex::new(alloc),
        txn: Txn::new(alloc, 0),
        model,
    })
}

// What takes mutations and is read at places. What goes over places knows no more of it, so that its proof sees nothing of what
// it holds.
trait Going {
    // Takes a mutation of one kind or another.
    fn take_edit(&mut self, place: usize) -> Result<(), TrFault>;

    // Sets a stored key, and reads from it on: whether that answers as the model.
    fn goes_on(&mut self, place: usize) -> Result<bool, TrFault>;
}

impl Going for Large {
    // The keys of a mutation are forty numbers behind those of the one before.
    fn take_edit(&mut self, place: usize) -> Result<(), TrFault> {
        let number = place.saturating_mul(40);
        match place % 4 {
            0 => self.set(number.saturating_add(1), 3),
            1 => self.clear(number),
            2 => self.clear_range(number, number.saturating_add(15)),
            _ => self.add(number),
        }
    }

    fn goes_on(&mut self, place: usize) -> Result<bool, TrFault> {
        let number = place.saturating_mul(2);
        self.set(number, 4)?;
        self.is_read(number)
    }
}

impl Large {
    fn on(&mut self) -> TxnOn<'_> {
        TxnOn {
            txn: &mut self.txn,
            store: &self.store,
            index: &self.index,
        }
    }

    fn set(&mut self, number: usize, value: u8) -> Result<(), TrFault> {
        note(self.model.as_mut_slice(), number, value);
        self.on().set(&number_key(number), &[value])
    }

    fn clear(&mut self, number: usize) -> Result<(), TrFault> {
        note(self.model.as_mut_slice(), number, 0);
        self.on().clear(&number_key(number))
    }

    // Adds one to a stored value.
    fn add(&mut self, number: usize) -> Result<(), TrFault> {
        note(self.model.as_mut_slice(), number, 2);
        self.on().atomic(AtomicOp::Add, &number_key(number), &[1])
    }

    fn clear_range(&mut self, begin: usize, end: usize) -> Result<(), TrFault> {
        let range = range_of(self.alloc, &number_key(begin), &number_key(end))?;
        note_cleared(self.model.as_mut_slice(), begin, end);
        self.on().clear_range(&range)
    }

    // The pairs from a number on, by snapshot.
    fn pairs_from(&mut self, range: &KeyRange) -> Result<Pairs, TrFault> {
        let options = RangeOptions {
            limit: LIMIT as u32,
            reverse: false,
            mode: Mode::WantAll,
        };
        self.on().get_key_range(range, options, true)
    }

    // Whether the pairs from a number on are those of the model.
    fn is_read(&mut self, number: usize) -> Result<bool, TrFault> {
        let range = range_of(self.alloc, &number_key(number), b"\xFF")?;
        let pairs = self.pairs_from(&range)?;
        Ok(is_slice(pairs.as_slice(), self.model.as_slice(), number))
    }
}

fn note(model: &mut [u8], number: usize, value: u8) {
    if let Some(place) = model.get_mut(number) {
        *place = value;
    }
}

// Notes that the numbers from one up to another have no value.
fn note_cleared(model: &mut [u8], begin: usize, end: usize) {
    for number in begin..end {
        note(model, number, 0);
    }
}

// The first number from one on that has a value.
fn next_number(model: &[u8], from: usize) -> Option<usize> {
    (from..model.len()).find(|number| model.get(*number).is_some_and(|value| *value != 0))
}

fn is_pair_of(pair: &Pair, number: usize, model: &[u8]) -> bool {
    pair.key.as_slice() == number_key(number).as_slice()
        && pair.value.as_slice().first() == model.get(number)
}

// Whether these are the first pairs from a number on.
fn is_slice(pairs: &[Pair], model: &[u8], from: usize) -> bool {
    let mut from = from;
    for pair in pairs {
        let Some(number) = next_number(model, from) else {
            return false;
        };
        if !is_pair_of(pair, number, model) {
            return false;
        }
        from = number.saturating_add(1);
    }
    pairs.len() == LIMIT || next_number(model, from).is_none()
}

fn take_edits<G: Going>(going: &mut G) -> Result<(), TrFault> {
    for place in 0..EDITS {
        going.take_edit(place)?;
    }
    Ok(())
}

// The first read that is answered otherwise.
fn first_other_in<G: Going>(going: &mut G) -> Result<Option<usize>, TrFault> {
    take_edits(going)?;
    for place in 0..READS {
        if !going.goes_on(place)? {
            return Ok(Some(place));
        }
    }
    Ok(None)
}

fn first_other_read(alloc: Global) -> Result<Option<usize>, TrFault> {
    let mut large = new_large(alloc)?;
    first_other_in(&mut large)
}

#[test]
fn large_view(rt: HostRuntime) -> Result<(), Fail> {
    assert_eq!(rt; first_other_read(rt.alloc())?, None);
    Ok(())
}
