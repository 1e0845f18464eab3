//! The versions of a transaction: that of its reads, that of its commit, and the versionstamp that is promised.

ghost use Rattle.std.specs.Prelude.{◌≡◌, ◌^◌, ◌<◌, ℕ, pos, IfOk};
ghost use Rattle.model_database.specs.Histories.{Setting};
ghost use Rattle.model_database.specs.Transactions as rules;
ghost use Rattle.conflict_ranges.specs.Writes.{Index};
ghost use Rattle.fdb_calls.specs.declared.Reply.TheVariants as reply;
ghost use Rattle.fdb_calls.specs.Outcomes.{outcome_of};
ghost use Rattle.fdb_calls.specs.Calling.{read_version_called, set_read_version_called};
ghost use Rattle.txn_calls.specs.Accesses.{Calls};
ghost use Rattle.txn_calls.specs.Judging.{Promises};
ghost use Rattle.txn_calls.specs.Stands.{Keeps};

use crate::txn::Txn;
use fdb_calls::{Outcome, TrFault};
use model_database::{Code, NO_COMMIT_VERSION, Phase, TRANSACTION_CANCELLED, Tried};
use txn_parts::{phase_code, set_version_code, stamp_of};
use version_store::Store;

impl Txn {
    /// Takes the read version, and answers it, also where it is above the last one.
    #[tactic(auto, unfolding(model_database::specs::Transactions::phase_code))]
    pub fn read_version(&mut self, store: &Store) -> Result<u64, TrFault>
        ensures answer { (index : Index) (setting : Setting) → Keeps store.now index setting
            → Calls (λ version. reply.Version (pos version)) result self.old self.new (read_version_called setting) }
        ensures low { IfOk result (λ version. version < 2 ^ 63) }
    {
        if let Some(code) = phase_code(self.phase) {
            return Err(TrFault::Code(code));
        }
        let version = self.version_over(store);
        self.version = Some(version);
        Ok(version)
    }

    /// Sets the read version.
    pub fn set_read_version(&mut self, version: i64) -> Result<(), TrFault>
        ensures { Calls (λ _. reply.Done) result self.old self.new (λ t. set_read_version_called t version) }
    {
        if let Some(code) = set_version_code(self.phase, self.version, version) {
            return Err(TrFault::Code(code));
        }
        self.version = Some(version.unsigned_abs());
        Ok(())
    }

    /// Returns the version that the commit of this life made, or -1 (`fdb_transaction_get_committed_version`).
    pub fn committed_version(&self) -> i64
        ensures { result ≡ rules.version_made self.now.phase }
    {
        match self.phase {
            Phase::Tried(Tried::Version(version)) => version as i64,
            _ => -1,
        }
    }

    /// Returns the life whose commit's versionstamp is promised (`fdb_transaction_get_versionstamp`); 1025
    /// exactly where it was cancelled, and 2017 exactly where a commit of it was tried.
    #[tactic(auto, unfolding(model_database::specs::Transactions::phase_code))]
    pub fn promise(&self) -> Result<u64, Code>
        ensures { Promises result self.now }
    {
        match phase_code(self.phase) {
            Some(code) => Err(code),
            None => Ok(self.life),
        }
    }

    /// Returns the number of its life.
    pub fn life(&self) -> u64
        ensures { result ≡ self.now.life }
    {
        self.life
    }

    /// Returns what became of its life: the versionstamp of its commit, or the code of why it has none; None
    /// where that isn't decided yet.
    pub fn outcome(&self) -> Option<Outcome>
        ensures { result ≡ outcome_of self.now.phase }
    {
        match self.phase {
            Phase::Active => None,
            Phase::Cancelled => Some(Outcome::Lacks(Code(TRANSACTION_CANCELLED))),
            Phase::Tried(Tried::ReadOnly) => Some(Outcome::Lacks(Code(NO_COMMIT_VERSION))),
            Phase::Tried(Tried::Version(version)) => Some(Outcome::HasStamp(stamp_of(version))),
            Phase::Tried(Tried::Refused(code)) => Some(Outcome::Lacks(code)),
        }
    }
}
