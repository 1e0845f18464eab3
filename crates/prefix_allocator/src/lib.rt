//! The high-contention allocator (directory layer's documentation, "High-contention allocator"): short numbers that
//! transactions which commit side by side do not both get.
//!
//! `allocate` grants the number that its definition grants (`model_allocator`, `specs/Granting.antt`), by the reads, writes
//! and write conflict ranges that are listed there, in that order, and by no other that a transaction keeps, over any transaction that
//! answers as the definitions say (`Tr`).
#![tactic(auto)]

ghost use Rattle.model_database.specs.Histories.{Setting};
ghost use Rattle.model_database.specs.Transactions.{Transaction};
ghost use Rattle.prefix_allocator.specs.Allocates.{IsAllocated};

mod fault;
mod keys;
mod starts;
mod tries;
mod windows;

use crate::keys::AllocatorKeys;
use crate::starts::start_of;
use crate::tries::{claim_number, find_number};
use crate::windows::{greatest_key, open_window};
pub use fault::AllocFault;
use fdb_calls::Tr;
use fdb_subspace::Subspace;
use outside::Words;
use std::alloc::Global;

/// Returns the number that is granted to a transaction on a subspace, by the random words still to come.
///
/// It is none of the numbers that were tried, as the transaction sees them before the call. `WindowFull`, `BadCounter` and
/// `Tr` come exactly as the definition says; what the calls before a refusal did stays in the transaction, and the words that
/// were drawn are drawn. After NoMemory it stands for the transaction after some first of the calls.
pub fn allocate<T: Tr, W: Words>(
    alloc: Global,
    tr: &mut T,
    space: &Subspace,
    words: &mut W,
) -> Result<u64, AllocFault>
    ensures allocates { (setting : Setting) (t : Transaction) → T.Tr.stands tr.old setting t
        → IsAllocated result setting (T.Tr.stands tr.new setting) (W.Words.words words.old) (W.Words.words words.new) space.now.prefix t }
    ensures same { T.Tr.same tr.old tr.new }
{
    let keys = AllocatorKeys::new(alloc, space)?;
    let greatest = greatest_key(tr, &keys)?;
    let first = start_of(&keys, greatest)?;
    let start = open_window(tr, &keys, first)?;
    let Some(number) = find_number(tr, &keys, start, words)? else {
        return Err(AllocFault::WindowFull { start });
    };
    claim_number(tr, &keys, number)?;
    Ok(number)
}
