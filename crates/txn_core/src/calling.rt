//! A call of a request on a transaction.

ghost use Rattle.std.specs.Prelude.{◌≡◌, ◌+◌, ◌^◌, ◌<◌, ℕ, true, IfOk, OnErr};
ghost use Rattle.model_database.specs.Histories.{Setting};
ghost use Rattle.model_database.specs.Transactions as rules;
ghost use Rattle.conflict_ranges.specs.Writes.{Index};
ghost use Rattle.fdb_calls.specs.Calling.{called, on_error_called, cancel_called, reset, committed_version_called, read_version_called, versionstamp_called};
ghost use Rattle.version_store.specs.Versions.{Versions, last_of};
ghost use Rattle.txn_core.specs.Answering.{is_read};
ghost use Rattle.txn_core.specs.Stands.{Answers};
ghost use Rattle.txn_calls.specs.Stands.{StandsFor, StandsStill, Keeps};

use crate::answer::Answer;
use crate::committing::commit;
use conflict_ranges::WriteIndex;
use fdb_calls::TxnCall;
use model_database::{Code, DatabaseOptions};
use std::alloc::AllocError;
use txn_calls::Txn;
use version_store::Store;

/// Makes one call on a transaction, over a store and the index of its writes, in a database that was opened with these
/// options; `life` is the number of the life that a call draws which begins anew. A commit adds one version to both. It is
/// refused for want of memory alone: then the transaction stands as before, but that its version may be taken, and the store
/// and the index keep the same history.
pub fn call(
    txn: &mut Txn,
    store: &mut Store,
    index: &mut WriteIndex,
    options: DatabaseOptions,
    call: &TxnCall,
    life: u64,
) -> Result<Answer, AllocError>
    requires { last_of store.old + 1 < 2 ^ 63 }
    ensures ok { IfOk result (λ answer. (t : rules.Transaction) (setting : Setting) → StandsFor txn.old t
        → Keeps store.old index.old setting → setting.options ≡ options
        → Answers answer txn.new store.new index.new setting (called setting life t call.now)) }
    ensures err { OnErr result ((t : rules.Transaction) (setting : Setting) → StandsFor txn.old t → Keeps store.old index.old setting
        → StandsStill (StandsFor txn.new) setting t × Keeps store.new index.new setting) }
{
    match call {
        TxnCall::Get { .. }
        | TxnCall::GetKey { .. }
        | TxnCall::GetRange { .. }
        | TxnCall::GetKeyRange { .. } => answer_read(txn, store, call),
        TxnCall::Set { key, value } => Answer::of_write(txn.set(key.as_slice(), value.as_slice())),
        TxnCall::Clear { key } => Answer::of_write(txn.clear(key.as_slice())),
        TxnCall::ClearRange { range } => Answer::of_write(txn.clear_range(range)),
        TxnCall::Atomic { name, key, operand } => Answer::of_write(txn.named_atomic(
            options.api,
            name.as_slice(),
            key.as_slice(),
            operand.as_slice(),
        )),
        TxnCall::ReadConflict { range } => Answer::of_write(txn.read_conflict(range)),
        TxnCall::WriteConflict { range } => Answer::of_write(txn.write_conflict(range)),
        TxnCall::NoWriteConflict => Answer::of_write(txn.no_write_conflict()),
        TxnCall::ReadVersion => answer_read_version(txn, store),
        TxnCall::SetReadVersion { version } => Answer::of_write(txn.set_read_version(*version)),
        TxnCall::CommittedVersion => Ok(answer_committed_version(txn)),
        TxnCall::Versionstamp => Ok(answer_promise(txn)),
        TxnCall::Commit => commit(txn, store, index, options),
        TxnCall::OnError { code } => Ok(answer_error(txn, *code, life)),
        TxnCall::Reset => Ok(answer_reset(txn, life)),
        TxnCall::Cancel => Ok(answer_cancel(txn)),
    }
}

// A call that is a read.
fn answer_read(txn: &mut Txn, store: &Store, call: &TxnCall) -> Result<Answer, AllocError>
    requires { is_read call.now ≡ true }
    ensures ok { IfOk result (λ answer. (t : rules.Transaction) (index : Index) (setting : Setting) (life : ℕ) → StandsFor txn.old t
        → Keeps store.now index setting → Answers answer txn.new store.now index setting (called setting life t call.now)) }
    ensures err { OnErr result ((t : rules.Transaction) (index : Index) (setting : Setting) → StandsFor txn.old t
        → Keeps store.now index setting → StandsStill (StandsFor txn.new) setting t) }
{
    match call {
        TxnCall::Get { key, snapshot } => Answer::of_value(txn.get(store, key, *snapshot)),
        TxnCall::GetKey { selector, snapshot } => {
            Answer::of_key(txn.get_key(store, selector, *snapshot))
        }
        TxnCall::GetRange {
            begin,
            end,
            options,
            snapshot,
        } => Answer::of_pairs(txn.get_range(store, begin, end, *options, *snapshot)),
        TxnCall::GetKeyRange {
            range,
            options,
            snapshot,
        } => Answer::of_pairs(txn.get_key_range(store, range, *options, *snapshot)),
        _ => unreachable!(),
    }
}

fn answer_read_version(txn: &mut Txn, store: &Store) -> Result<Answer, AllocError>
    ensures ok { IfOk result (λ answer. (t : rules.Transaction) (index : Index) (setting : Setting) → StandsFor txn.old t
        → Keeps store.now index setting → Answers answer txn.new store.now index setting (read_version_called setting t)) }
    ensures err { OnErr result ((t : rules.Transaction) (index : Index) (setting : Setting) → StandsFor txn.old t
        → Keeps store.now index setting → StandsStill (StandsFor txn.new) setting t) }
{
    Answer::of_version(txn.read_version(store))
}

fn answer_committed_version(txn: &Txn) -> Answer
    ensures { (t : rules.Transaction) (store : Versions) (index : Index) (setting : Setting) → StandsFor txn.now t
        → Keeps store index setting → Answers result txn.now store index setting (committed_version_called t) }
{
    Answer::version(txn.committed_version())
}

fn answer_promise(txn: &Txn) -> Answer
    ensures { (t : rules.Transaction) (store : Versions) (index : Index) (setting : Setting) → StandsFor txn.now t
        → Keeps store index setting → Answers result txn.now store index setting (versionstamp_called t) }
{
    Answer::of_promise(txn.promise())
}

fn answer_error(txn: &mut Txn, code: Code, life: u64) -> Answer
    ensures { (t : rules.Transaction) (store : Versions) (index : Index) (setting : Setting) → StandsFor txn.old t
        → Keeps store index setting → Answers result txn.new store index setting (on_error_called life t code) }
{
    match txn.on_error(code, life) {
        Ok(()) => Answer::begun_anew(),
        Err(code) => Answer::refused(code),
    }
}

fn answer_reset(txn: &mut Txn, life: u64) -> Answer
    ensures { (store : Versions) (index : Index) (setting : Setting) → Keeps store index setting
        → Answers result txn.new store index setting (reset life) }
{
    txn.reset(life);
    Answer::begun_anew()
}

fn answer_cancel(txn: &mut Txn) -> Answer
    ensures { (t : rules.Transaction) (store : Versions) (index : Index) (setting : Setting) → StandsFor txn.old t
        → Keeps store index setting → Answers result txn.new store index setting (cancel_called t) }
{
    txn.cancel();
    Answer::done()
}
