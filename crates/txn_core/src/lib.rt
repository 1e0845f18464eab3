//! The calls of a transaction over a store of versions, as requests have them and as layers have them.
//!
//! `txn_calls` has the transaction, `Txn`, and each of its calls as a function. `call` takes a call of a request, commits included:
//! it joins the checks of a commit (`Txn::judge`) and the version that it makes (`Txn::make_version`). `TxnOn` has the calls by their
//! names, for layers over any `Tr`, and the parts of a commit. For every transaction for which a `Txn` stands before a call, and
//! every history that the store and the index of its writes keep, the call is answered as `fdb_calls` says (`specs/Calling.antt`),
//! and the `Txn` stands for the transaction after the call.
//!
//! # Choices
//!
//! - A transaction's calls stand twice: `call` takes a call as a request has it and commits, and `TxnOn` has the calls
//!   by their names. Both use the same functions of `txn_calls`.
#![tactic(auto)]

mod answer;
mod calling;
mod committing;
mod txn_on;

pub use answer::Answer;
pub use calling::call;
pub use txn_calls::{Txn, Verdict};
pub use txn_on::TxnOn;
