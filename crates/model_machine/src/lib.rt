//! The serial stack machine in definitions: what each request does to the world, what each instruction does to
//! a machine, and what a run over an order of requests leaves and dumps.
//!
//! Contracts above cite these definitions: `specs/Worlds.antt` has the world and the step of a request, `specs/Operands.antt` and
//! `specs/StackOperations.antt` what the operations on a stack do, `specs/Calls.antt` what an operation asks of the database and
//! makes of the reply, `specs/Waits.antt` what waits and for what, `specs/Instructions.antt` how a value is an instruction,
//! `specs/Machines.antt` a machine, and `specs/Runs.antt` a run and its dump. `specs/WaitLaws.antt` and `specs/Laws.antt` show that
//! a machine comes to rest and that waits end. `proofs/` has the induction that each law over all worlds uses: what each change of
//! an open transaction keeps (`Keeping.antt`), each call (`Calls.antt`), each request (`Requests.antt`) and each run keep
//! (`Runs.antt`). `src/` has the types that the machine and its definitions share: operations by kind, what a machine awaits, its
//! ends.
#![tactic(auto)]

mod directories;

pub use directories::{DirectoryOperation, Object};
use directory_types::{Boxed, Layer};
use fdb_tuple::Elem;
use key_bytes::Bytes;
use model_commands::RunArgs;
use model_database::{Api, DatabaseOptions};

/// What an item of a machine's stack is.
#[derive(Debug, Drop)]
pub enum ItemValue {
    /// An element.
    Known(Elem),
    /// It waits for the versionstamp of the commit of this life.
    Waits(u64),
}

/// An item of a machine's stack, and the number of the instruction that pushed it.
#[derive(Debug, Drop)]
pub struct Item {
    pub value: ItemValue,
    pub instruction: u64,
}

/// What the arguments of a run say of every machine of the run: a machine has them from its starter.
#[derive(Clone, Copy, Debug, PartialEq, Eq)]
pub struct MachineOptions {
    /// The API version, by which operations have their names.
    pub api: Api,
    /// How often the polls of one wait may be answered that it isn't decided yet.
    pub polls: u32,
}

ghost use Rattle.std.specs.Prelude.{◌≡◌};
ghost use Rattle.model_machine.specs.Worlds.{database_options};
ghost use Rattle.model_machine.specs.Runs.{machine_options};

/// Returns the options that the arguments of a run give to each of its machines.
pub fn machine_options(arguments: &RunArgs) -> MachineOptions
    ensures { result ≡ machine_options arguments.now }
{
    MachineOptions {
        api: arguments.api,
        polls: arguments.polls,
    }
}

/// Returns the options with which a run opens its database.
pub fn database_options(arguments: &RunArgs) -> DatabaseOptions
    ensures { result ≡ database_options arguments.now }
{
    DatabaseOptions {
        api: arguments.api,
        window: arguments.window,
    }
}

/// How a machine has ended.
#[derive(Clone, Copy, Debug, PartialEq, Eq)]
pub enum End {
    /// All instructions were run.
    Ended,
    /// The instruction of this number is none that the machine knows, or has an operand of a wrong kind or range.
    BadInstruction(u64),
    /// The instruction of this number pops an item where the stack has none.
    Underflow(u64),
    /// The instruction of this number waits, and all polls of its wait were answered that it isn't so yet.
    WaitBound(u64),
    /// The instruction of this number starts a machine, where as many were started as may be.
    MachineLimit(u64),
}

/// An error that a machine noted: the number of the instruction that was run, and the digits of the code or the name of the fault.
#[derive(Debug, Drop)]
pub struct ErrorNote {
    pub instruction: u64,
    pub word: Bytes,
}

/// How many machines a run starts, at most, the first one included.
pub const MACHINES: usize = 64;

/// How many items LOG_STACK writes in one request, at most.
pub const LOG_BATCH: usize = 100;

/// How many bytes of a packed item LOG_STACK writes, at most.
pub const LOGGED_BYTES: usize = 40_000;

/// The uppermost item of a stack that waits is polled for: the life that it waits for, and how many polls were answered that it
/// isn't decided yet.
#[derive(Clone, Copy, Debug)]
pub struct Wait {
    pub life: u64,
    pub polled: u32,
}

/// What the reply to a request is used for.
#[derive(Debug, Drop)]
pub enum Awaits {
    /// Nothing is pushed, and no code is awaited: a new transaction was made.
    NewTransaction,
    /// Nothing is pushed.
    Nothing,
    /// The fixed text `RESULT_NOT_PRESENT` is pushed.
    NotPresent,
    /// The value is pushed, or the fixed text `RESULT_NOT_PRESENT` where there is none.
    Value,
    /// The key is pushed where it begins with the prefix; else the prefix where the key is less, and the least key above
    /// all that begin with the prefix where it is greater.
    Key { prefix: Bytes },
    /// The keys and values of the pairs in turn are pushed, as one packed tuple.
    Pairs,
    /// The same of the pairs with keys that begin with the prefix.
    PairsWithin { prefix: Bytes },
    /// The next items are logged under the prefix, until none is left.
    Logged { prefix: Bytes },
    /// The version is kept as the last one seen, and the fixed text `GOT_READ_VERSION` is pushed.
    ReadVersion,
    /// The version is kept as the last one seen, and the fixed text `GOT_COMMITTED_VERSION` is pushed.
    CommittedVersion,
    /// The fixed text `SET_CONFLICT_RANGE` is pushed.
    ConflictRange,
    /// The fixed text `SET_CONFLICT_KEY` is pushed.
    ConflictKey,
    /// An item is pushed that waits for the life.
    Promise,
    /// The item that waits becomes known, and the instruction is run again.
    Stamp(Wait),
    /// The same within the next items that are logged under the prefix.
    LoggedStamp { prefix: Bytes, wait: Wait },
    /// Nothing is pushed, and no code is awaited; where no machine was started, the machine ends.
    Start,
    /// The fixed text `WAITED_FOR_EMPTY` is pushed once no key begins with the prefix. So many polls were answered that it
    /// isn't so yet.
    Empty { prefix: Bytes, polled: u32 },
    /// The directory of this layer that was opened is appended to the list of directories, or null where the call is refused.
    Opened { layer: Boxed<Layer> },
    /// Nothing is pushed of a call on a directory that has nothing to tell.
    DirectoryDone,
    /// The names of the directories are pushed, as one packed tuple.
    Names,
    /// 1 is pushed where there is such a directory, and else 0.
    Existence,
    /// Nothing is pushed; the prefix of a subspace was logged.
    SubspaceLogged,
}

/// What a machine is about to do.
#[derive(Debug, Drop)]
pub enum State {
    /// To run its next instruction.
    Running,
    /// To use the reply to the request that it asked.
    Awaiting(Awaits),
    /// Nothing more.
    Stopped(End),
}

/// An operation on a machine's stack alone (bindingApiTester.md, "Data Operations" and "Tuple Operations").
#[derive(Clone, Copy, Debug, PartialEq, Eq)]
pub enum StackOperation {
    /// Pushes a copy of the top item.
    Dup,
    /// Drops all items.
    EmptyStack,
    /// Pops a depth, and swaps the top item with the one at that depth.
    Swap,
    /// Drops the top item.
    Pop,
    /// Pops two integers, and pushes the first less the second.
    Sub,
    /// Pops two strings of one kind, and pushes the first followed by the second.
    Concat,
    /// Waits for the top item, which stays.
    WaitFuture,
    /// Pops a tuple, and pushes its packed bytes.
    TuplePack,
    /// Pops a prefix and a tuple, and pushes them packed with the place of the incomplete versionstamp.
    TuplePackWithVersionstamp,
    /// Pops packed bytes, and pushes each element packed alone.
    TupleUnpack,
    /// Pops a tuple, and pushes the two ends of its range.
    TupleRange,
    /// Pops packed tuples, and pushes them in their order, the greatest last.
    TupleSort,
    /// Pushes its fixed text.
    GetApproximateSize,
    /// Pops the two ends of a range, and pushes its fixed text.
    GetEstimatedRangeSize,
    /// Does nothing.
    UnitTests,
}

/// A call on the database that has more forms than one (bindingApiTester.md): on the current transaction, with `_DATABASE`,
/// and, where it reads, with `_SNAPSHOT`.
#[derive(Clone, Copy, Debug, PartialEq, Eq)]
pub enum DatabaseOperation {
    /// Pops a key, and pushes its value.
    Get,
    /// Pops a selector and a prefix, and pushes the key that the selector means as the prefix lets it.
    GetKey,
    /// Pops two keys, a limit, whether reversed and a mode, and pushes the pairs of the range.
    GetRange,
    /// Pops a prefix, a limit, whether reversed and a mode, and pushes the pairs with keys that begin with the prefix.
    GetRangeStartsWith,
    /// Pops two selectors, a limit, whether reversed, a mode and a prefix, and pushes the pairs between the selectors' keys
    /// with keys that begin with the prefix.
    GetRangeSelector,
    /// Pops a key and a value, and writes the value under the key.
    Set,
    /// Pops a key, and clears it.
    Clear,
    /// Pops two keys, and clears the range between them.
    ClearRange,
    /// Pops a prefix, and clears the keys that begin with it.
    ClearRangeStartsWith,
    /// Pops a name, a key and an operand, and does the atomic operation of the name.
    AtomicOp,
}

/// Where a call is made that has more forms than one.
#[derive(Clone, Copy, Debug, PartialEq, Eq)]
pub enum Scope {
    /// On the current transaction.
    Transaction,
    /// On the current transaction, by snapshot.
    Snapshot,
    /// On a transaction of its own, which is then committed.
    Database,
}

/// An operation on the current transaction alone (bindingApiTester.md).
#[derive(Clone, Copy, Debug, PartialEq, Eq)]
pub enum TransactionOperation {
    /// A new transaction under the current name.
    NewTransaction,
    /// Pops a code, and begins anew where it may be retried.
    OnError,
    /// Begins anew.
    Reset,
    /// Cancels.
    Cancel,
    /// Commits.
    Commit,
    /// Takes the read version, which is the last one seen from then on.
    GetReadVersion,
    /// Sets the read version to the last one seen.
    SetReadVersion,
    /// The version that the commit made is the last one seen from then on, or -1.
    GetCommittedVersion,
    /// Pops two keys, and adds the range between them to the read conflict ranges.
    ReadConflictRange,
    /// Pops two keys, and adds the range between them to the write conflict ranges.
    WriteConflictRange,
    /// Pops a key, and adds it to the read conflict ranges.
    ReadConflictKey,
    /// Pops a key, and adds it to the write conflict ranges.
    WriteConflictKey,
    /// Lets the next write add no write conflict range.
    DisableWriteConflict,
    /// Pushes an item that waits for the versionstamp of the commit.
    GetVersionstamp,
}

/// An instruction that the machine knows.
#[derive(Debug, Drop)]
pub enum Instruction {
    /// Pushes an element.
    Push(Elem),
    /// Works on the stack alone.
    OnStack(StackOperation),
    /// Pops a name, which is the current one from then on.
    UseTransaction,
    /// Works on the current transaction.
    OnTransaction(TransactionOperation),
    /// Calls the database in one of its forms.
    OnDatabase(DatabaseOperation, Scope),
    /// Works on the directories, in one of its forms where it asks a layer.
    OnDirectories(DirectoryOperation, Scope),
    /// Pops a prefix, and writes all items of the stack under it, at most `LOG_BATCH` in one commit.
    LogStack,
    /// Pops a prefix, and starts a machine under it.
    StartThread,
    /// Pops a prefix, and waits until no key begins with it.
    WaitEmpty,
}
