//! The calls of a transaction by their names, for layers that work over any transaction.

ghost use Rattle.std.specs.Prelude.{◌≡◌, ℕ, Bool, true, false, List};
ghost use Rattle.model_database.specs.Histories.{Setting};
ghost use Rattle.model_database.specs.Reads as read;
ghost use Rattle.model_database.specs.Transactions.{Transaction, with_granted};
ghost use Rattle.model_database.specs.declared.AtomicOp.{AtomicOp as AnyOp};
ghost use Rattle.model_database.specs.declared.AtomicOp.TheVariants as atomic;
ghost use Rattle.fdb_calls.specs.declared.Reply.TheVariants as reply;
ghost use Rattle.fdb_calls.specs.Answers.{Answered};
ghost use Rattle.fdb_calls.specs.Calling.{read_called, set_called, clear_called, clear_range_called, atomic_called};
ghost use Rattle.fdb_calls.specs.Calling.{no_write_conflict_called, write_conflict_called};
ghost use Rattle.model_database.specs.Intervals.{one};

use crate::fault::TrFault;
use key_bytes::{Bytes, KeyRange, Pairs};
use model_database::AtomicOp;

/// A transaction in a setting, by its calls (API reference, "Transaction"). For every setting and every transaction for
/// which it stands before a call, the call is answered as the definitions say (`specs/Calling.antt`), and it stands for
/// the transaction after the call. After NoMemory it stands for the transaction before.
pub trait Tr {
    // it stands for a transaction in a setting
    ghost stands: { Self → Setting → Transaction → Type 0 };

    // the atomic operations that it takes
    ghost takes: { AnyOp → Bool };

    // it is still over the same transaction, and the same of whatever else it reads and is judged by
    ghost same: { Self → Self → Type 0 };

    /// Returns the value of `key` that the transaction sees (`fdb_transaction_get`). A read by snapshot has the same answer, and
    /// adds no read conflict range.
    fn get(&mut self, key: &[u8], snapshot: bool) -> Result<Option<Bytes>, TrFault>
        ensures answer { (setting : Setting) (t : Transaction) → stands self.old setting t
            → Answered reply.Value result (stands self.new setting) t (read_called setting t false snapshot (read.Get key.now)) }
        ensures same { same self.old self.new };

    /// Returns the pairs of `range` that the transaction sees, up to `limit`, or all where it is 0, in the
    /// order of their keys, or in the other order where `reverse` holds (`fdb_transaction_get_range`, streaming
    /// mode `WANT_ALL`).
    fn range(
        &mut self,
        range: &KeyRange,
        limit: u32,
        reverse: bool,
        snapshot: bool,
    ) -> Result<Pairs, TrFault>
        ensures answer { (setting : Setting) (t : Transaction) → stands self.old setting t
            → Answered reply.PairsAre result (stands self.new setting) t
            (read_called setting t false snapshot (read.GetKeyRange range.now.begin range.now.end limit reverse)) }
        ensures same { same self.old self.new };

    /// Writes `value` under `key` (`fdb_transaction_set`).
    fn set(&mut self, key: &[u8], value: &[u8]) -> Result<(), TrFault>
        ensures answer { (setting : Setting) (t : Transaction) → stands self.old setting t
            → Answered (λ _. reply.Done) result (stands self.new setting) t (set_called t key.now value.now) }
        ensures same { same self.old self.new };

    /// Clears `key` (`fdb_transaction_clear`).
    fn clear(&mut self, key: &[u8]) -> Result<(), TrFault>
        ensures answer { (setting : Setting) (t : Transaction) → stands self.old setting t
            → Answered (λ _. reply.Done) result (stands self.new setting) t (clear_called t key.now) }
        ensures same { same self.old self.new };

    /// Clears the keys of `range` (`fdb_transaction_clear_range`).
    fn clear_range(&mut self, range: &KeyRange) -> Result<(), TrFault>
        ensures answer { (setting : Setting) (t : Transaction) → stands self.old setting t
            → Answered (λ _. reply.Done) result (stands self.new setting) t (clear_range_called t range.now.begin range.now.end) }
        ensures same { same self.old self.new };

    /// Does an atomic operation on the value of `key` (`fdb_transaction_atomic_op`). The operation is one that this
    /// transaction takes.
    fn atomic(&mut self, op: AtomicOp, key: &[u8], operand: &[u8]) -> Result<(), TrFault>
        requires { takes op ≡ true }
        ensures answer { (setting : Setting) (t : Transaction) → stands self.old setting t
            → Answered (λ _. reply.Done) result (stands self.new setting) t (atomic_called t op key.now operand.now) }
        ensures same { same self.old self.new };

    /// Lets the next write add no write conflict range (`FDB_TR_OPTION_NEXT_WRITE_NO_WRITE_CONFLICT_RANGE`).
    fn no_write_conflict(&mut self) -> Result<(), TrFault>
        ensures answer { (setting : Setting) (t : Transaction) → stands self.old setting t
            → Answered (λ _. reply.Done) result (stands self.new setting) t (no_write_conflict_called t) }
        ensures same { same self.old self.new };

    /// Declares `key`, as if it were written (`fdb_transaction_add_conflict_range`).
    fn write_conflict_key(&mut self, key: &[u8]) -> Result<(), TrFault>
        ensures answer { (setting : Setting) (t : Transaction) → stands self.old setting t
            → Answered (λ _. reply.Done) result (stands self.new setting) t (write_conflict_called t (one key.now)) }
        ensures same { same self.old self.new };

    // each takes ADD
    ghost takes_add: { takes atomic.Add ≡ true };

    ghost same_itself: { (one : Self) → same one one };

    ghost same_still: { (one two three : Self) → same one two → same two three → same one three };

    // nothing that it keeps tells that the prefix allocator granted a number
    ghost granted_still: { (one : Self) (setting : Setting) (t : Transaction) (space : List ℕ) (number from : ℕ)
        → stands one setting t → stands one setting (with_granted t space number from) };
}
