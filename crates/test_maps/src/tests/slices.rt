//! Pages. Cases have selectors and slices.

ghost use Rattle.std.specs.Prelude.{◌≡◌, IfOk};
ghost use Rattle.std.specs.Map.Iter.{deref_pair};
ghost use Rattle.std.specs.Option.{option_map};
ghost use Rattle.key_bytes.specs.Entries.{entry_of};

use super::{key_of, range_of};
use key_bytes::{Bytes, Key, KeyRange, Pair};
use key_map::KeyMap;
use range_read::{Mode, OrderedView, RangeFault, RangeOptions, Taken, page};
use std::alloc::{AllocError, Global};
use std::test::Fail;

// A view of a map.
#[derive(Drop)]
struct Seen {
    pairs: KeyMap<Bytes>,
}

fn pair_of(key: &Key, value: &Bytes) -> Result<Pair, AllocError>
    ensures { IfOk result (λ pair. entry_of pair ≡ (key.now, value.now)) }
{
    let key = key.copy()?;
    let value = value.copy()?;
    Ok(Pair { key, value })
}

// A copy of a pair that a map lent.
fn copied(found: Option<(&Key, &Bytes)>) -> Result<Option<Pair>, AllocError>
    ensures { IfOk result (λ pair. option_map entry_of pair ≡ option_map deref_pair found.entry) }
{
    match found {
        None => Ok(None),
        Some((key, value)) => Ok(Some(pair_of(key, value)?)),
    }
}

impl OrderedView for Seen {
    ghost map = { λ seen. seen.pairs };

    fn next(&self, key: &Key) -> Result<Option<Pair>, AllocError> {
        copied(self.pairs.next(key))
    }

    fn prev(&self, key: &Key) -> Result<Option<Pair>, AllocError> {
        copied(self.pairs.prev(key))
    }

    fn run(&self, range: &KeyRange, _limit: u32, _down: bool) -> Result<Taken, AllocError> {
        Taken::none(range)
    }
}

// Sets a key to 1.
fn set_one(alloc: Global, pairs: &mut KeyMap<Bytes>, key: &[u8]) -> Result<(), AllocError> {
    let (key, one) = (key_of(alloc, key)?, key_of(alloc, b"1")?);
    pairs.insert(key, one)?;
    Ok(())
}

// A view of these keys of one byte, each with the value 1.
fn seen_of(alloc: Global, keys: &[u8]) -> Result<Seen, AllocError> {
    let mut pairs = KeyMap::new(alloc);
    for key in keys {
        set_one(alloc, &mut pairs, &[*key])?;
    }
    Ok(Seen { pairs })
}

// ---- pages

const fn make_options(limit: u32, mode: Mode) -> RangeOptions {
    RangeOptions {
        limit,
        reverse: false,
        mode,
    }
}

const TWENTY: &[u8] = b"abcdefghijklmnopqrst";

// How many pairs the page of twenty has, and whether more follow.
fn size_of_page(
    alloc: Global,
    limit: u32,
    mode: Mode,
    turn: u32,
) -> Result<(usize, bool), RangeFault> {
    let range = range_of(alloc, b"", b"\xFF")?;
    let view = seen_of(alloc, TWENTY)?;
    let options = make_options(limit, mode);
    let found = page(&view, &range, options, turn.max(1))?;
    Ok((found.pairs.len(), found.more))
}

#[test]
fn reads_pages(rt: HostRuntime) -> Result<(), Fail> {
    let alloc = rt.alloc();
    assert_eq!(rt; size_of_page(alloc, 0, Mode::Small, 1)?, (16, true));
    assert_eq!(rt; size_of_page(alloc, 0, Mode::Iterator, 1)?, (16, true));
    assert_eq!(rt; size_of_page(alloc, 0, Mode::Iterator, 2)?, (20, false));
    assert_eq!(rt; size_of_page(alloc, 16, Mode::Small, 1)?, (16, false));
    assert_eq!(rt; size_of_page(alloc, 7, Mode::Exact, 1)?, (7, false));
    Ok(())
}
