//! The database in definitions: what a finite map is after mutations, what commits and histories are, what a transaction is, and
//! which check of a call fails first.
//!
//! `src/` has the types that definitions and code share, error codes and limits among them. The crates above state their contracts
//! by these definitions: `specs/Databases.antt` has the database and the mutations, `specs/Atomics.antt` the atomic operations,
//! `specs/Reads.antt` the reads and their answers, by `specs/Selecting.antt` and `specs/Slices.antt`, `specs/Intervals.antt` the
//! read conflict range of a read, `specs/Histories.antt` scripts, commits, conflicts and the history, `specs/States.antt` what
//! mutations say of one key, and `specs/Transactions.antt` a transaction and the checks of its calls.
#![tactic(auto)]

ghost use Rattle.std.specs.Prelude.{◌≡◌};

mod mode;
mod options;
mod selector;

pub use mode::Mode;
pub use options::{DatabaseOptions, RangeOptions};
pub use selector::Selector;

/// The longest key of a write, in bytes.
pub const KEY_LIMIT: usize = 10_000;

/// The longest value of a write, in bytes.
pub const VALUE_LIMIT: usize = 100_000;

/// The greatest size of a transaction that may commit, in bytes.
pub const SIZE_LIMIT: u64 = 10_000_000;

/// A read version is above the last version.
pub const FUTURE_VERSION: u16 = 1009;

/// A commit after the read version wrote a key of the transaction's read conflict ranges.
pub const NOT_COMMITTED: u16 = 1020;

/// The life of the transaction was cancelled.
pub const TRANSACTION_CANCELLED: u16 = 1025;

/// A read needs a key whose value isn't known until the commit.
pub const ACCESSED_UNREADABLE: u16 = 1036;

/// Stamped bytes have no room for a versionstamp.
pub const CLIENT_INVALID_OPERATION: u16 = 2000;

/// A key isn't less than `FF`, or an end of a range is greater.
pub const KEY_OUTSIDE_LEGAL_RANGE: u16 = 2004;

/// The begin of a range is greater than its end.
pub const INVERTED_RANGE: u16 = 2005;

/// The read version is set, or taken, already.
pub const READ_VERSION_ALREADY_SET: u16 = 2010;

/// A read version isn't above 0.
pub const VERSION_INVALID: u16 = 2011;

/// A commit of this life was tried.
pub const USED_DURING_COMMIT: u16 = 2017;

/// The commit of the life was read-only, so there is no versionstamp.
pub const NO_COMMIT_VERSION: u16 = 2021;

/// The version of a transaction is lower than those that can still be read.
pub const TRANSACTION_TOO_OLD: u16 = 1007;

/// No atomic operation has this name.
pub const INVALID_MUTATION_TYPE: u16 = 2018;

/// The mutations of a transaction have more bytes than may be committed.
pub const TRANSACTION_TOO_LARGE: u16 = 2101;

/// A read of a range has the streaming mode that wants a limit, and no limit.
pub const EXACT_MODE_WITHOUT_LIMITS: u16 = 2210;

/// A key of a write has more bytes than a key may have.
pub const KEY_TOO_LARGE: u16 = 2102;

/// A value of a write, or an operand, has more bytes than a value may have.
pub const VALUE_TOO_LARGE: u16 = 2103;

/// An error code of the API reference ("Error Codes").
#[derive(Clone, Copy, Debug, PartialEq, Eq)]
pub struct Code(pub u16);

/// What became of a commit that was tried.
#[derive(Clone, Copy, Debug, PartialEq, Eq)]
pub enum Tried {
    /// It had nothing to write, and succeeded without a version.
    ReadOnly,
    /// It made this version.
    Version(u64),
    /// It was refused with this code.
    Refused(Code),
}

/// How a life of a transaction stands.
#[derive(Clone, Copy, Debug, PartialEq, Eq)]
pub enum Phase {
    /// It takes calls.
    Active,
    /// It was cancelled, and takes no further call but a reset.
    Cancelled,
    /// A commit was tried, and it takes no further call but a reset and the handling of an error.
    Tried(Tried),
}

/// The version of the API that a client asks for (API reference, "API versioning").
///
/// Under 500 five names of atomic operations mean the older form of theirs: `atomic_named` in `specs/Atomics.antt`.
#[derive(Clone, Copy, Debug, PartialEq, Eq)]
pub enum Api {
    /// API version 630, that of release 6.3.
    V630,
    /// API version 500.
    V500,
}

/// What an atomic operation does to the value of a key: the mutation is named, and has an operand.
///
/// What each makes of an old value and its operand is `atom` in `specs/Atomics.antt` (API reference of release 6.3,
/// "fdb_transaction_atomic_op"). The last four are those of API version 500 alone; they differ from the operation of the same
/// name in what an absent value counts as, or in how the place of a versionstamp is given.
#[derive(Clone, Copy, Debug, PartialEq, Eq)]
pub enum AtomicOp {
    /// The sum of the two as little-endian numbers, in as many bytes as the operand has.
    Add,
    /// Each byte of the value "and" that of the operand.
    BitAnd,
    /// Each byte of the value "or" that of the operand.
    BitOr,
    /// Each byte of the value "exclusive or" that of the operand.
    BitXor,
    /// The operand behind the value, where the two fit a value.
    AppendIfFits,
    /// The greater of the two as little-endian numbers, in as many bytes as the operand has.
    Max,
    /// The lesser of the two as little-endian numbers, in as many bytes as the operand has.
    Min,
    /// The lesser of the two in the order of keys.
    ByteMin,
    /// The greater of the two in the order of keys.
    ByteMax,
    /// No value where the value is the operand; else the value stays.
    CompareAndClear,
    /// Sets a key that has the commit's versionstamp in it.
    SetVersionstampedKey,
    /// Sets a value that has the commit's versionstamp in it.
    SetVersionstampedValue,
    /// Each byte of the value "and" that of the operand; an absent value counts as bytes of 00.
    OldAnd,
    /// The lesser of the two as little-endian numbers, in as many bytes as the operand has; an absent value counts as 0.
    OldMin,
    /// Sets a key that has the commit's versionstamp in it, at an offset of 2 bytes.
    OldStampedKey,
    /// Sets a value that begins with the commit's versionstamp.
    OldStampedValue,
}

/// How stamped bytes say where the versionstamp goes: what stands before their offset is the template, in which ten bytes from
/// the offset on are replaced.
#[derive(Clone, Copy, Debug, PartialEq, Eq)]
pub enum StampForm {
    /// They end in an offset of 4 bytes, the lowest first.
    Last4,
    /// They end in an offset of 2 bytes, the lowest first.
    Last2,
    /// They have no offset: all of them are the template, and the versionstamp goes to the front.
    Front,
}

impl AtomicOp {
    ghost use Rattle.model_database.specs.Atomics.{is_versionstamped, stamp_form};

    /// Tells whether a commit fills its versionstamp into the key or the value.
    pub fn is_versionstamped(self) -> bool
        ensures { result ≡ is_versionstamped self }
    {
        matches!(
            self,
            AtomicOp::SetVersionstampedKey
                | AtomicOp::SetVersionstampedValue
                | AtomicOp::OldStampedKey
                | AtomicOp::OldStampedValue
        )
    }

    /// Returns how the operation's stamped bytes say where its versionstamp goes; `Last4` of an operation without one.
    pub fn stamp_form(self) -> StampForm
        ensures { result ≡ stamp_form self }
    {
        match self {
            AtomicOp::OldStampedKey => StampForm::Last2,
            AtomicOp::OldStampedValue => StampForm::Front,
            _ => StampForm::Last4,
        }
    }
}

impl StampForm {
    ghost use Rattle.model_database.specs.Atomics.{offset_size};

    /// Returns how many bytes the offset has.
    pub fn offset_size(self) -> usize
        ensures { result ≡ offset_size self }
    {
        match self {
            StampForm::Last4 => 4,
            StampForm::Last2 => 2,
            StampForm::Front => 0,
        }
    }
}
