//! Trying numbers of a window, until one is absent.

ghost use Rattle.std.specs.Prelude.{◌≡◌, ◌≤◌, ℕ, ◌+◌, ◌-◌, not, false, Some, IfOk, ⊤};
ghost use Rattle.model_database.specs.Histories.{Setting};
ghost use Rattle.model_database.specs.Transactions.{Transaction, view};
ghost use Rattle.model_allocator.specs.declared.TheConstants.{RANDOM_TRIES, GREATEST_COUNTER};
ghost use Rattle.model_allocator.specs.Acts.{all_acted};
ghost use Rattle.model_allocator.specs.Counters.{window, is_recent};
ghost use Rattle.model_allocator.specs.Granting.{tries, claims, drawn};
ghost use Rattle.prefix_allocator.specs.Doing.{Done, Draws, draws, scans, window_candidates, tries_of, found_in, IsLast};

use crate::keys::AllocatorKeys;
use crate::windows::window;
use fdb_calls::{Tr, TrFault};
use model_allocator::RANDOM_TRIES;
use outside::Words;

// The last number that was drawn.
#[derive(Clone, Copy)]
struct Drawn {
    number: u64,
    // It was absent, so it is the one to grant.
    is_absent: bool,
}

/// The number of the window that is granted, where one is absent: the first that is, of so many random numbers, and then of the
/// whole window, upward from the last random one and going round.
pub(crate) fn find_number<T: Tr, W: Words>(
    tr: &mut T,
    keys: &AllocatorKeys,
    start: u64,
    words: &mut W,
) -> Result<Option<u64>, TrFault>
    requires { start ≤ GREATEST_COUNTER + 8192 }
    ensures found { (setting : Setting) (t : Transaction) → T.Tr.stands tr.old setting t
        → Done (λ found. found ≡ found_in keys.now.space (view setting t) (window_candidates start (W.Words.words words.old)))
        result setting (T.Tr.stands tr.new setting)
        (tries_of keys.now.space (view setting t) (window_candidates start (W.Words.words words.old))) t }
    ensures drew { (setting : Setting) (t : Transaction) → T.Tr.stands tr.old setting t
        → Draws result (W.Words.words words.old) (W.Words.words words.new)
        (all_acted setting (tries_of keys.now.space (view setting t) (window_candidates start (W.Words.words words.old))) t).words }
    ensures same { T.Tr.same tr.old tr.new }
{
    let drawn = draw_number(tr, keys, start, words)?;
    if drawn.is_absent {
        return Ok(Some(drawn.number));
    }
    scan_window(tr, keys, start, drawn.number)
}

// Tries random numbers of the window, up to the first that is absent: the last of those that were tried.
fn draw_number<T: Tr, W: Words>(
    tr: &mut T,
    keys: &AllocatorKeys,
    start: u64,
    words: &mut W,
) -> Result<Drawn, TrFault>
    requires { start ≤ GREATEST_COUNTER + 8192 }
    ensures tried { (setting : Setting) (t : Transaction) → T.Tr.stands tr.old setting t
        → Done (λ last. IsLast (found_in keys.now.space (view setting t) (draws start (W.Words.words words.old) 0 RANDOM_TRIES))
        (drawn start (W.Words.words words.old) (RANDOM_TRIES - 1)) last.number last.is_absent)
        result setting (T.Tr.stands tr.new setting)
        (tries_of keys.now.space (view setting t) (draws start (W.Words.words words.old) 0 RANDOM_TRIES)) t }
    ensures drew { (setting : Setting) (t : Transaction) → T.Tr.stands tr.old setting t
        → Draws result (W.Words.words words.old) (W.Words.words words.new)
        (all_acted setting (tries_of keys.now.space (view setting t) (draws start (W.Words.words words.old) 0 RANDOM_TRIES)) t).words }
    ensures low { IfOk result (λ last. start ≤ last.number) }
    ensures high { IfOk result (λ last. last.number ≤ start + 8192) }
    ensures same { T.Tr.same tr.old tr.new }
{
    let mut last = Drawn {
        number: start,
        is_absent: false,
    };
    for _ in 0..RANDOM_TRIES {
        last = draw_one(tr, keys, start, words)?;
        if last.is_absent {
            return Ok(last);
        }
    }
    Ok(last)
}

// Tries the number of the window that the next random word chooses.
fn draw_one<T: Tr, W: Words>(
    tr: &mut T,
    keys: &AllocatorKeys,
    start: u64,
    words: &mut W,
) -> Result<Drawn, TrFault>
    requires { start ≤ GREATEST_COUNTER + 8192 }
    ensures tried { (setting : Setting) (t : Transaction) → T.Tr.stands tr.old setting t
        → Done (λ last. IsLast (found_in keys.now.space (view setting t) (draws start (W.Words.words words.old) 0 1))
        (drawn start (W.Words.words words.old) 0) last.number last.is_absent)
        result setting (T.Tr.stands tr.new setting)
        (tries_of keys.now.space (view setting t) (draws start (W.Words.words words.old) 0 1)) t }
    ensures number { IfOk result (λ last. last.number ≡ drawn start (W.Words.words words.old) 0) }
    ensures low { IfOk result (λ last. start ≤ last.number) }
    ensures high { IfOk result (λ last. last.number ≤ start + 8192) }
    ensures word { (place : ℕ) → W.Words.words words.new place ≡ W.Words.words words.old (place + 1) }
    ensures same { T.Tr.same tr.old tr.new }
{
    let number = start + u64::from(words.next()) % window(start);
    let is_absent = try_number(tr, keys, number)?;
    Ok(Drawn { number, is_absent })
}

// The first number of the window that is absent, upward from a number and going round; each is tried at most once.
fn scan_window<T: Tr>(
    tr: &mut T,
    keys: &AllocatorKeys,
    start: u64,
    last: u64,
) -> Result<Option<u64>, TrFault>
    requires low { start ≤ last }
    requires small { last ≤ GREATEST_COUNTER + 16384 }
    ensures tried { (setting : Setting) (t : Transaction) → T.Tr.stands tr.old setting t
        → Done (λ found. found ≡ found_in keys.now.space (view setting t) (scans start last 1 (window start)))
        result setting (T.Tr.stands tr.new setting)
        (tries_of keys.now.space (view setting t) (scans start last 1 (window start))) t }
    ensures same { T.Tr.same tr.old tr.new }
{
    let size = window(start);
    for distance in 1..=size {
        let number = start + (last - start + distance) % size;
        if try_number(tr, keys, number)? {
            return Ok(Some(number));
        }
    }
    Ok(None)
}

// Whether a number is absent. It is present from now on, without a write conflict range.
fn try_number<T: Tr>(tr: &mut T, keys: &AllocatorKeys, number: u64) -> Result<bool, TrFault>
    ensures tried { (setting : Setting) (t : Transaction) → T.Tr.stands tr.old setting t
        → Done (λ absent. absent ≡ not (is_recent keys.now.space (view setting t) number)) result setting (T.Tr.stands tr.new setting)
        (tries keys.now.space (record { number = number; is_drawn = false })) t }
    ensures same { T.Tr.same tr.old tr.new }
{
    let key = keys.recent(number)?;
    let value = tr.get(key.as_slice(), false)?;
    tr.no_write_conflict()?;
    tr.set(key.as_slice(), &[])?;
    Ok(value.is_none())
}

/// Adds a write conflict range for a number that is granted, so that no transaction beside this one gets it too.
pub(crate) fn claim_number<T: Tr>(
    tr: &mut T,
    keys: &AllocatorKeys,
    number: u64,
) -> Result<(), TrFault>
    ensures claimed { (setting : Setting) (t : Transaction) → T.Tr.stands tr.old setting t
        → Done (λ _. ⊤) result setting (T.Tr.stands tr.new setting) (claims keys.now.space (Some number)) t }
    ensures same { T.Tr.same tr.old tr.new }
{
    let key = keys.recent(number)?;
    tr.write_conflict_key(key.as_slice())
}
