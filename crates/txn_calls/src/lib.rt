//! A transaction over a store of versions: each of its calls as a function.
//!
//! A `Txn` keeps its pending mutations (`write_map`) and the fields of a transaction of the definitions (`model_database`,
//! `specs/Transactions.antt`) but for what its reads were answered, and stands for each transaction that these agree with
//! (`specs/Stands.antt`). For every transaction for which it stands before a call, and every history that the store and the
//! index of its writes keep, the call is answered as `fdb_calls` says (`specs/Calling.antt`), and it stands for the
//! transaction after the call. Reads are answered from a view (`ryw_view`) of the store under the pending mutations, and
//! commits are judged by the index (`conflict_ranges`): `judge` has the checks of a commit, and `make_version` the version that it
//! makes. `txn_parts` has what needs no transaction, and `txn_core` above joins the parts of a commit, and has all calls as requests
//! and as a `Tr`.
//!
//! # Choices
//!
//! - What the code keeps of a transaction stands for one of the definitions by a relation: under their mutations the same
//!   keys are unreadable and each key has the same state. That mutations act alike on every map would not do: adding an empty
//!   operand leaves the empty value on every map, as a set of it does, and yet it decides nothing.
//! - A read is answered before it is asked whether it may be: an unreadable key has no value then, and the answer is dropped
//!   where the interval that it gives has an unreadable key. So one walk along the mutations tells that and finds the undecided
//!   keys. A read by snapshot asks `hides` alone, which looks at nothing where no mutation has a versionstamp; an ordinary read
//!   between two boundaries of the mutations takes one search (`lies_open` in `txn_parts`).
//! - Whether a mutation adds a write conflict range stands beside the mutations, in a list of its own of the same length, so that
//!   `write_map` knows nothing of conflicts.
//! - That a commit is read-only is compared as one fact, and not apart whether there is a mutation and whether a
//!   write conflict range was added: no check asks for more. `judge` says beside its verdict that the life is active where no check fails, which
//!   `tried` asks for.
//! - A version is below 2^63, since a client sees it as an `i64`: a store keeps its last version below that, and a transaction
//!   its read version (`IsLowVersion`), which is the last version of a store or was set from an `i64` above 0. So the answer to
//!   a call for the read version never lacks a number.
//! - A commit with a versionstamp makes a second map of its mutations, each filled in (`WriteMap::filled`), since a key that
//!   is filled in has its place among the others only then.
//! - A commit takes all its memory before any answer changes (`Txn::make_version`). The changes are made apart;
//!   `Store::reserve` takes what `install` needs; the last call that can be refused is `WriteIndex::install_all` or
//!   `install_key`. What follows takes no memory. So after a refusal the transaction stands as before, and the store and the
//!   index keep what they kept (clause `err`).
//! - A commit makes a list of its write conflict ranges, those of its mutations and then those that were added to it, and
//!   gives it to the index. The ranges may meet: no answer of the index is another where a key is given the same version
//!   twice. A commit with one key alone among them makes no list (`only_write_conflicts`).
//! - A reset keeps the room of up to sixteen mutations for the next life, and gives back that of more (`Txn::reset`). No
//!   clause says what room is kept.
#![tactic(auto)]

mod commit_checks;
mod committing;
mod conflicts;
mod lives;
mod logging;
mod reading;
mod resting;
mod txn;
mod verdict;
mod versions;
mod writing;

pub use txn::Txn;
pub use verdict::Verdict;
