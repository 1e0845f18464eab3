//! The requests that a machine asks of the database, the replies that it gets, and the calls of a transaction.
//!
//! A request is taken whole: it acts in one step, and its reply is fixed there. `specs/Calling.antt` says what each call on
//! a transaction answers and leaves, by these very types; what a request does is stated above it in `model_machine`.
//! `Tr` has the calls of a transaction by their names, for layers that work over any transaction that answers so.
#![tactic(auto)]

mod fault;
mod shared_request;
mod tr;

use directory_types::{Boxed, DirArgs, DirFault, DirKind, DirReply, Layer};
pub use fault::TrFault;
use key_bytes::{Bytes, Key, KeyRange, Pairs};
pub use model_database::Code;
use model_database::{RangeOptions, Selector};
pub use shared_request::SharedRequest;
pub use tr::Tr;

/// A call on a transaction (API reference, "Transaction").
#[derive(Debug, Drop)]
pub enum TxnCall {
    /// Reads the value of a key (`fdb_transaction_get`). A read by snapshot has the same answer, and no commit is refused
    /// for it.
    Get {
        key: Key,
        snapshot: bool,
    },
    /// Reads the key that a selector means (`fdb_transaction_get_key`).
    GetKey {
        selector: Selector,
        snapshot: bool,
    },
    /// Reads the pairs between the keys that two selectors mean, up to the limit of the options, or all where it is 0, in
    /// the order of their keys or reversed (`fdb_transaction_get_range`). An instruction GET_RANGE_SELECTOR makes this call.
    GetRange {
        begin: Selector,
        end: Selector,
        options: RangeOptions,
        snapshot: bool,
    },
    /// Reads the pairs between two keys, up to the limit of the options, or all where it is 0, in the order of their keys or
    /// reversed (`fdb_transaction_get_range`). An instruction GET_RANGE makes this call.
    GetKeyRange {
        range: KeyRange,
        options: RangeOptions,
        snapshot: bool,
    },
    /// Writes a value under a key (`fdb_transaction_set`).
    Set {
        key: Key,
        value: Bytes,
    },
    /// Clears a key (`fdb_transaction_clear`).
    Clear {
        key: Key,
    },
    /// Clears the keys of a range (`fdb_transaction_clear_range`).
    ClearRange {
        range: KeyRange,
    },
    /// Does the atomic operation of this name (`fdb_transaction_atomic_op`).
    Atomic {
        name: Bytes,
        key: Key,
        operand: Bytes,
    },
    /// Adds a read conflict range, as if its keys had been read (`fdb_transaction_add_conflict_range`).
    ReadConflict {
        range: KeyRange,
    },
    /// Adds a write conflict range, as if its keys were written (`fdb_transaction_add_conflict_range`).
    WriteConflict {
        range: KeyRange,
    },
    /// Lets the next write add no write conflict range (`FDB_TR_OPTION_NEXT_WRITE_NO_WRITE_CONFLICT_RANGE`).
    NoWriteConflict,
    /// Takes the read version (`fdb_transaction_get_read_version`).
    ReadVersion,
    /// Sets the read version (`fdb_transaction_set_read_version`).
    SetReadVersion {
        version: i64,
    },
    /// The version that the transaction's commit made, or -1 (`fdb_transaction_get_committed_version`).
    CommittedVersion,
    /// The life whose commit's versionstamp is promised (`fdb_transaction_get_versionstamp`).
    Versionstamp,
    /// Commits what the transaction wrote (`fdb_transaction_commit`).
    Commit,
    /// Begins anew after an error that allows it (`fdb_transaction_on_error`).
    OnError {
        code: Code,
    },
    /// Begins anew (`fdb_transaction_reset`).
    Reset,
    /// Lets each further call of this life fail (`fdb_transaction_cancel`).
    Cancel,
}

/// What a machine asks of the database.
#[derive(Debug, Drop)]
pub enum Request {
    /// A new transaction under a name, in place of the one that is there.
    New {
        name: Bytes,
    },
    /// A call on the transaction of a name. One is made where the name has none.
    On {
        name: Bytes,
        call: TxnCall,
    },
    /// A call on a transaction of its own at the last version, which is then committed.
    Database {
        call: TxnCall,
    },
    /// A call of a directory layer on the transaction of a name, or, without one, on a transaction of its own at the last
    /// version, which is then committed where the call isn't refused (directory layer's documentation).
    Directory {
        name: Option<Bytes>,
        layer: Boxed<Layer>,
        kind: DirKind,
        args: Boxed<DirArgs>,
    },
    /// Writes each entry under the prefix followed by its key, on a transaction of its own, which is then committed. The
    /// first write that is refused refuses all.
    Log {
        prefix: Bytes,
        entries: Pairs,
    },
    /// What was promised of a life: the versionstamp of its commit.
    PollStamp {
        life: u64,
    },
    /// Whether no key begins with a prefix, at the last version.
    PollEmpty {
        prefix: Key,
    },
    /// One more machine, whose instructions are in the range of a prefix at the last version.
    Start {
        prefix: Bytes,
    },
}

/// What became of a life of a transaction (`fdb_transaction_get_versionstamp`).
#[derive(Clone, Copy, Debug, PartialEq, Eq)]
pub enum Outcome {
    /// Its commit made a version, and has this versionstamp.
    HasStamp([u8; 10]),
    /// It has no versionstamp; the code says why.
    Lacks(Code),
}

/// What a request was answered.
#[derive(Debug, Drop)]
pub enum Reply {
    /// The call was accepted, and has nothing to tell.
    Done,
    /// The value of a key; None where the key has none.
    Value(Option<Bytes>),
    /// The key that a selector means.
    KeyIs(Key),
    /// The pairs of a range.
    PairsAre(Pairs),
    /// A version, or -1.
    Version(i64),
    /// The number of a life.
    Life(u64),
    /// The versionstamp of a life's commit.
    Stamp([u8; 10]),
    /// What is asked for isn't decided yet, or isn't so yet.
    NotYet,
    /// No key begins with the prefix.
    Empty,
    /// A machine was started. It has this number, and the values of these pairs are its instructions.
    Started { machine: u16, instructions: Pairs },
    /// None was started: there are as many as may be.
    NoMachine,
    /// A call of a directory layer was answered so.
    Dir(Boxed<DirReply>),
    /// A call of a directory layer was refused, or the commit behind it.
    DirFault(DirFault),
    /// The first check that failed has this code.
    Fault(Code),
    /// Memory ran out.
    NoMemory,
}
