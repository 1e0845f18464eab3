//! Commits: the checks, and the version that is made where none fails.

ghost use Rattle.std.specs.Prelude.{◌≡◌, ◌+◌, ◌^◌, ◌<◌, Ok, Err, IfOk, OnErr};
ghost use Rattle.model_database.specs.Histories.{Setting};
ghost use Rattle.model_database.specs.Transactions as rules;
ghost use Rattle.conflict_ranges.specs.Writes.{Index};
ghost use Rattle.fdb_calls.specs.declared.fault.TrFault.TheVariants as fault;
ghost use Rattle.fdb_calls.specs.Calling.{commit_called};
ghost use Rattle.version_store.specs.Versions.{Versions, last_of};
ghost use Rattle.txn_calls.specs.Judging.{Judged};
ghost use Rattle.txn_calls.specs.Stands.{Keeps, StandsFor, StandsStill};
ghost use Rattle.txn_core.specs.Stands.{Answers};

use crate::answer::Answer;
use conflict_ranges::WriteIndex;
use fdb_calls::TrFault;
use model_database::{Code, DatabaseOptions, Tried};
use std::alloc::AllocError;
use txn_calls::{Txn, Verdict};
use version_store::Store;

// A commit that no check refuses: where there is something to write, it makes the next version.
fn commit_judged(
    txn: &mut Txn,
    store: &mut Store,
    index: &mut WriteIndex,
    options: DatabaseOptions,
    verdict: Verdict,
) -> Result<Answer, AllocError>
    requires { last_of store.old + 1 < 2 ^ 63 }
    ensures ok { IfOk result (λ answer. (t : rules.Transaction) (setting : Setting) → Judged (Ok verdict) (StandsFor txn.old) setting t
        → Keeps store.old index.old setting → setting.options ≡ options → Answers answer txn.new store.new index.new setting (commit_called setting t)) }
    ensures err { OnErr result ((t : rules.Transaction) (setting : Setting) → Judged (Ok verdict) (StandsFor txn.old) setting t
        → Keeps store.old index.old setting → StandsStill (StandsFor txn.new) setting t × Keeps store.new index.new setting) }
{
    match verdict {
        Verdict::ReadOnly => {
            txn.tried(Tried::ReadOnly);
            Ok(Answer::done())
        }
        Verdict::Commits => {
            txn.make_version(store, index, options)?;
            Ok(Answer::done())
        }
    }
}

// A commit that a check refuses.
fn answer_refusal(txn: &mut Txn, code: Code) -> Answer
    ensures { (t : rules.Transaction) (store : Versions) (index : Index) (setting : Setting)
        → Judged (Err (fault.Code code)) (StandsFor txn.old) setting t
        → Keeps store index setting → Answers result txn.new store index setting (commit_called setting t) }
{
    txn.refuse(code);
    Answer::refused(code)
}

// A commit: what the transaction wrote makes the next version, where it wrote anything, or has a write conflict range. After
// want of memory it stands as before but that its version may be taken, and the store and the index keep what they kept.
pub(crate) fn commit(
    txn: &mut Txn,
    store: &mut Store,
    index: &mut WriteIndex,
    options: DatabaseOptions,
) -> Result<Answer, AllocError>
    requires { last_of store.old + 1 < 2 ^ 63 }
    ensures ok { IfOk result (λ answer. (t : rules.Transaction) (setting : Setting) → StandsFor txn.old t → Keeps store.old index.old setting
        → setting.options ≡ options → Answers answer txn.new store.new index.new setting (commit_called setting t)) }
    ensures err { OnErr result ((t : rules.Transaction) (setting : Setting) → StandsFor txn.old t → Keeps store.old index.old setting
        → StandsStill (StandsFor txn.new) setting t × Keeps store.new index.new setting) }
{
    match txn.judge(store, index) {
        Ok(verdict) => commit_judged(txn, store, index, options, verdict),
        Err(TrFault::Code(code)) => Ok(answer_refusal(txn, code)),
        Err(TrFault::NoMemory) => Err(AllocError),
    }
}
