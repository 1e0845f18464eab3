//! The window out of which a number is granted.

ghost use Rattle.std.specs.Prelude.{◌≡◌, ◌≤◌, ◌+◌, [], ◌∷◌, ◌++◌, length, unwrap_or, IfOk, ⊤};
ghost use Rattle.model_database.specs.Histories.{Setting};
ghost use Rattle.model_database.specs.Transactions.{Transaction, view};
ghost use Rattle.model_allocator.specs.declared.TheConstants.{GREATEST_COUNTER};
ghost use Rattle.model_allocator.specs.Counters.{window, counter_in, counts_half, greatest_counter};
ghost use Rattle.model_allocator.specs.Granting.{asks_greatest, counts, clears_below};
ghost use Rattle.prefix_allocator.specs.Doing.{Done, first_key, fills_half, opens_behind, start_behind};

use crate::keys::AllocatorKeys;
use byteorder::{ByteOrder, LittleEndian};
use fdb_calls::{Tr, TrFault};
use key_bytes::{Bytes, Key, Pairs};
use model_database::AtomicOp;

// 1 as 8 bytes, the lowest first.
const ONE_MORE: [u8; 8] = [1, 0, 0, 0, 0, 0, 0, 0];

// The least number of 64 bits that is negative where it is read as a signed one.
const LEAST_NEGATIVE: u64 = 1 << 63;

/// How many numbers the window has that begins at a number.
pub(crate) fn window(start: u64) -> u64
    ensures { result ≡ window start }
{
    if start < 255 {
        64
    } else if start < 65_535 {
        1024
    } else {
        8192
    }
}

/// The greatest key of the counters, where there is one.
pub(crate) fn greatest_key<T: Tr>(tr: &mut T, keys: &AllocatorKeys) -> Result<Option<Key>, TrFault>
    ensures read { (setting : Setting) (t : Transaction) → T.Tr.stands tr.old setting t
        → Done (λ key. key ≡ first_key (greatest_counter keys.now.space (view setting t))) result setting (T.Tr.stands tr.new setting)
        (asks_greatest keys.now.space ∷ []) t }
    ensures same { T.Tr.same tr.old tr.new }
{
    let pairs = tr.range(&keys.all_counters()?, 1, true, true)?;
    Ok(first_of(pairs))
}

// The key of the first pair.
fn first_of(pairs: Pairs) -> Option<Key>
    ensures { result ≡ first_key pairs }
{
    pairs.into_vec().into_iter().next().map(|pair| pair.key)
}

/// The start of the window out of which a number is granted: that of the greatest counter, or of the window behind it where
/// that counter, with 1 more, is half of its window or more.
pub(crate) fn open_window<T: Tr>(
    tr: &mut T,
    keys: &AllocatorKeys,
    first: u64,
) -> Result<u64, TrFault>
    requires { first ≤ GREATEST_COUNTER }
    ensures opened { (setting : Setting) (t : Transaction) → T.Tr.stands tr.old setting t
        → Done (λ start. start ≡ start_behind (fills_half keys.now.space (view setting t) first) first)
        result setting (T.Tr.stands tr.new setting)
        (counts keys.now.space first ++ opens_behind (fills_half keys.now.space (view setting t) first) keys.now.space first) t }
    ensures small { IfOk result (λ start. start ≤ GREATEST_COUNTER + 8192) }
    ensures same { T.Tr.same tr.old tr.new }
{
    if !count_one(tr, keys, first)? {
        return Ok(first);
    }
    let start = first + window(first);
    clear_below(tr, keys, start)?;
    // No counter stood at `start`, above the greatest, so this one counts 1 and never opens a window.
    count_one(tr, keys, start)?;
    Ok(start)
}

// Adds 1 to the counter of a window, and says whether it is half of the window then, or more.
fn count_one<T: Tr>(tr: &mut T, keys: &AllocatorKeys, start: u64) -> Result<bool, TrFault>
    ensures counted { (setting : Setting) (t : Transaction) → T.Tr.stands tr.old setting t
        → Done (λ is_half. is_half ≡ fills_half keys.now.space (view setting t) start) result setting (T.Tr.stands tr.new setting)
        (counts keys.now.space start) t }
    ensures same { T.Tr.same tr.old tr.new }
{
    let counter = keys.counter(start)?;
    tr.atomic(AtomicOp::Add, counter.as_slice(), &ONE_MORE)?;
    let count = tr.get(counter.as_slice(), true)?;
    Ok(is_half_read(start, &count))
}

fn is_half_read(start: u64, count: &Option<Bytes>) -> bool
    ensures { length (unwrap_or count.now []) ≡ 8 → result ≡ counts_half start (unwrap_or count.now []) }
{
    match count {
        None => false,
        Some(count) => is_half(start, count.as_slice()),
    }
}

// Whether 8 bytes, read as a signed number the lowest first, are half of the window or more.
fn is_half(start: u64, count: &[u8]) -> bool
    ensures { length count.now ≡ 8 → result ≡ counts_half start count.now }
{
    if count.len() < 8 {
        return false;
    }
    let count = LittleEndian::read_u64(count);
    count < LEAST_NEGATIVE && window(start) <= 2 * count
}

// Clears the counters below a start, and the numbers below it that were tried, those without a write conflict range.
fn clear_below<T: Tr>(tr: &mut T, keys: &AllocatorKeys, start: u64) -> Result<(), TrFault>
    ensures cleared { (setting : Setting) (t : Transaction) → T.Tr.stands tr.old setting t
        → Done (λ _. ⊤) result setting (T.Tr.stands tr.new setting) (clears_below keys.now.space start) t }
    ensures same { T.Tr.same tr.old tr.new }
{
    tr.clear_range(&keys.counters_below(start)?)?;
    tr.no_write_conflict()?;
    tr.clear_range(&keys.recents_below(start)?)
}
