//! The checks of a commit, and what became of it.

ghost use Rattle.std.specs.Prelude.{◌≡◌, ◌≤◌, option_map, OnOk};
ghost use Rattle.model_database.specs.declared.Phase.TheVariants as phase;
ghost use Rattle.model_database.specs.Histories.{Setting, conflicts, low};
ghost use Rattle.model_database.specs.Transactions as rules;
ghost use Rattle.fdb_calls.specs.Calling.{commit_refused};
ghost use Rattle.version_store.specs.Versions.{Versions};
ghost use Rattle.txn_calls.specs.Judging.{Judged, IsLow, conflict_refusal};
ghost use Rattle.txn_calls.specs.Stands.{Keeps, StandsFor, is_bare};

use crate::txn::Txn;
use crate::verdict::Verdict;
use conflict_ranges::WriteIndex;
use fdb_calls::TrFault;
use model_database::{Code, NOT_COMMITTED, Phase, Tried};
use txn_parts::commit_code;
use version_store::Store;

impl Txn {
    // Whether its commit makes no version: it has no mutation, and no write conflict range was added.
    fn is_read_only(&self) -> bool
        ensures { result ≡ is_bare self.now }
    {
        self.edits.is_empty() && self.write_ranges.is_empty()
    }

    // Whether a commit after a version wrote a key of the transaction's read conflict ranges. It takes no search where no commit
    // came after that version.
    fn has_conflict(&self, index: &WriteIndex, version: u64) -> bool
        ensures { (store : Versions) (setting : Setting) → Keeps store index.now setting → low setting ≤ version
            → result ≡ conflicts setting.history version self.now.read_ranges }
    {
        if index.newest() <= version {
            return false;
        }
        for (begin, end) in self.read_ranges.ranges() {
            if version < index.newest_between(begin, end) {
                return true;
            }
        }
        false
    }

    // The code of the first check of a commit at its version that fails.
    fn conflict_code(&self, store: &Store, index: &WriteIndex) -> Option<Code>
        ensures { (setting : Setting) (t : rules.Transaction) → StandsFor self.now t → Keeps store.now index.now setting
            → option_map rules.number_of result ≡ conflict_refusal setting t }
    {
        if let Some(code) = self.version_code(store) {
            return Some(code);
        }
        if self.has_conflict(index, self.version_over(store)) {
            return Some(Code(NOT_COMMITTED));
        }
        None
    }

    /// Asks the checks of a commit, and answers the first that fails by its code; then whether there is anything to write. A
    /// transaction that goes on to its version takes it.
    pub fn judge(&mut self, store: &Store, index: &WriteIndex) -> Result<Verdict, TrFault>
        ensures verdict { (setting : Setting) (t : rules.Transaction) → StandsFor self.old t → Keeps store.now index.now setting
            → Judged result (StandsFor self.new) setting t }
        ensures active { OnOk result (self.new.phase ≡ phase.Active) }
    {
        if let Some(code) = commit_code(self.phase, self.is_read_only(), self.size) {
            return Err(TrFault::Code(code));
        }
        if self.is_read_only() {
            return Ok(Verdict::ReadOnly);
        }
        let code = self.conflict_code(store, index);
        self.version = Some(self.version_over(store));
        if let Some(code) = code {
            return Err(TrFault::Code(code));
        }
        Ok(Verdict::Commits)
    }

    /// Notes what became of a commit.
    pub fn tried(&mut self, tried: Tried)
        requires { IsLow tried }
        ensures { (t : rules.Transaction) → StandsFor self.old t → StandsFor self.new (rules.with_phase t (phase.Tried tried)) }
    {
        self.phase = Phase::Tried(tried);
    }

    /// Notes that the commit of an active life was refused by this code; another life stays as it is.
    pub fn refuse(&mut self, code: Code)
        ensures { (t : rules.Transaction) → StandsFor self.old t → StandsFor self.new (commit_refused t.phase code.0 t).transaction }
    {
        if self.phase == Phase::Active {
            self.tried(Tried::Refused(code));
        }
    }
}
