//! A request by its words.

use crate::directing::{directory_kind, directory_request};
use crate::spell_fault::SpellFault;
use crate::spelling::number;
use directory_types::Layer;
use fdb_calls::{Request, TxnCall};
use key_bytes::{Bytes, KeyRange, Pair, Pairs};
use model_database::{Code, Mode, RangeOptions, Selector};
use std::alloc::Global;

/// Returns the word at a place.
pub fn word(words: &[Bytes], place: usize) -> Result<&[u8], SpellFault> {
    match words.get(place) {
        Some(word) => Ok(word.as_slice()),
        None => Err(SpellFault::Missing),
    }
}

/// Returns a copy of the word at a place.
pub fn bytes(words: &[Bytes], place: usize) -> Result<Bytes, SpellFault> {
    match words.get(place) {
        Some(word) => Ok(word.copy()?),
        None => Err(SpellFault::Missing),
    }
}

// Whether the word at a place is this one; else it must be the other.
fn is_first(words: &[Bytes], place: usize, first: &[u8], other: &[u8]) -> Result<bool, SpellFault> {
    let found = word(words, place)?;
    match () {
        _ if found == first => Ok(true),
        _ if found == other => Ok(false),
        _ => Err(SpellFault::Unknown),
    }
}

// Whether `snapshot` stands behind the words of a read, so many.
fn is_snapshot(words: &[Bytes], place: usize) -> bool {
    words
        .get(place)
        .is_some_and(|word| word.as_slice() == b"snapshot".as_slice())
}

// What a request begins with.
#[derive(Clone, Copy)]
enum Asks {
    New,
    On,
    Database,
    Log,
    PollStamp,
    PollEmpty,
    Start,
}

const REQUESTS: &[(&[u8], Asks)] = &[
    (b"new", Asks::New),
    (b"on", Asks::On),
    (b"database", Asks::Database),
    (b"log", Asks::Log),
    (b"poll_stamp", Asks::PollStamp),
    (b"poll_empty", Asks::PollEmpty),
    (b"start", Asks::Start),
];

fn request_named(word: &[u8]) -> Result<Asks, SpellFault> {
    for (known, asks) in REQUESTS {
        if *known == word {
            return Ok(*asks);
        }
    }
    Err(SpellFault::Unknown)
}

/// Reads a request.
pub fn read_request(alloc: Global, layer: &Layer, words: &[Bytes]) -> Result<Request, SpellFault> {
    match request_named(word(words, 0)?)? {
        Asks::New => Ok(Request::New {
            name: bytes(words, 1)?,
        }),
        Asks::On => on(alloc, layer, words),
        Asks::Database => on_database(alloc, layer, words),
        Asks::Log => log(alloc, words),
        Asks::PollStamp => Ok(Request::PollStamp {
            life: number_at(words, 1)?,
        }),
        Asks::PollEmpty => Ok(Request::PollEmpty {
            prefix: bytes(words, 1)?,
        }),
        Asks::Start => Ok(Request::Start {
            prefix: bytes(words, 1)?,
        }),
    }
}

// The number at a place.
fn number_at(words: &[Bytes], place: usize) -> Result<u64, SpellFault> {
    number(word(words, place)?)
}

// A call on the transaction of a name.
fn on(alloc: Global, layer: &Layer, words: &[Bytes]) -> Result<Request, SpellFault> {
    let name = bytes(words, 1)?;
    let call = words.get(2..).unwrap_or(&[]);
    match directory_kind(word(call, 0)?) {
        Some(kind) => directory_request(alloc, Some(name), layer, kind, call),
        None => Ok(Request::On {
            name,
            call: read_call(call)?,
        }),
    }
}

// A call on a transaction of its own.
fn on_database(alloc: Global, layer: &Layer, words: &[Bytes]) -> Result<Request, SpellFault> {
    let call = words.get(1..).unwrap_or(&[]);
    match directory_kind(word(call, 0)?) {
        Some(kind) => directory_request(alloc, None, layer, kind, call),
        None => Ok(Request::Database {
            call: read_call(call)?,
        }),
    }
}

// A prefix, and keys and values in turn.
fn log(alloc: Global, words: &[Bytes]) -> Result<Request, SpellFault> {
    let mut entries = Pairs::new(alloc);
    for pair in words.get(2..).unwrap_or(&[]).chunks(2) {
        entries.push(pair_of(pair)?)?;
    }
    Ok(Request::Log {
        prefix: bytes(words, 1)?,
        entries,
    })
}

/// Reads a key and its value.
pub fn pair_of(words: &[Bytes]) -> Result<Pair, SpellFault> {
    let key = bytes(words, 0)?;
    let value = bytes(words, 1)?;
    Ok(Pair { key, value })
}

fn selector(words: &[Bytes], place: usize) -> Result<Selector, SpellFault> {
    let key = bytes(words, place)?;
    let or_equal = is_first(words, place.saturating_add(1), b"true", b"false")?;
    let offset = number(word(words, place.saturating_add(2))?)?;
    Ok(Selector {
        key,
        or_equal,
        offset,
    })
}

fn range(words: &[Bytes]) -> Result<KeyRange, SpellFault> {
    let begin = bytes(words, 1)?;
    let end = bytes(words, 2)?;
    Ok(KeyRange { begin, end })
}

const MODES: &[(&[u8], Mode)] = &[
    (b"want_all", Mode::WantAll),
    (b"iterator", Mode::Iterator),
    (b"exact", Mode::Exact),
    (b"small", Mode::Small),
    (b"medium", Mode::Medium),
    (b"large", Mode::Large),
    (b"serial", Mode::Serial),
];

fn mode(word: &[u8]) -> Result<Mode, SpellFault> {
    for (known, mode) in MODES {
        if *known == word {
            return Ok(*mode);
        }
    }
    Err(SpellFault::Unknown)
}

// A limit, `reverse` or `forward`, and a mode, from a place on.
fn options(words: &[Bytes], place: usize) -> Result<RangeOptions, SpellFault> {
    Ok(RangeOptions {
        limit: number(word(words, place)?)?,
        reverse: is_first(words, place.saturating_add(1), b"reverse", b"forward")?,
        mode: mode(word(words, place.saturating_add(2))?)?,
    })
}

fn get_range(words: &[Bytes]) -> Result<TxnCall, SpellFault> {
    let begin = selector(words, 1)?;
    let end = selector(words, 4)?;
    Ok(TxnCall::GetRange {
        begin,
        end,
        options: options(words, 7)?,
        snapshot: is_snapshot(words, 10),
    })
}

fn get_key_range(words: &[Bytes]) -> Result<TxnCall, SpellFault> {
    let range = range(words)?;
    Ok(TxnCall::GetKeyRange {
        range,
        options: options(words, 3)?,
        snapshot: is_snapshot(words, 6),
    })
}

// The name of a call.
#[derive(Clone, Copy)]
enum Name {
    Get,
    GetKey,
    GetRange,
    GetKeyRange,
    Set,
    Clear,
    ClearRange,
    Atomic,
    ReadConflict,
    WriteConflict,
    NoWriteConflict,
    ReadVersion,
    SetReadVersion,
    CommittedVersion,
    Versionstamp,
    Commit,
    OnError,
    Reset,
    Cancel,
}

const CALLS: &[(&[u8], Name)] = &[
    (b"get", Name::Get),
    (b"get_key", Name::GetKey),
    (b"get_range", Name::GetRange),
    (b"get_key_range", Name::GetKeyRange),
    (b"set", Name::Set),
    (b"clear", Name::Clear),
    (b"clear_range", Name::ClearRange),
    (b"atomic", Name::Atomic),
    (b"read_conflict", Name::ReadConflict),
    (b"write_conflict", Name::WriteConflict),
    (b"no_write_conflict", Name::NoWriteConflict),
    (b"read_version", Name::ReadVersion),
    (b"set_read_version", Name::SetReadVersion),
    (b"committed_version", Name::CommittedVersion),
    (b"versionstamp", Name::Versionstamp),
    (b"commit", Name::Commit),
    (b"on_error", Name::OnError),
    (b"reset", Name::Reset),
    (b"cancel", Name::Cancel),
];

fn call_named(word: &[u8]) -> Result<Name, SpellFault> {
    for (known, name) in CALLS {
        if *known == word {
            return Ok(*name);
        }
    }
    Err(SpellFault::Unknown)
}

fn get(words: &[Bytes]) -> Result<TxnCall, SpellFault> {
    Ok(TxnCall::Get {
        key: bytes(words, 1)?,
        snapshot: is_snapshot(words, 2),
    })
}

fn get_key(words: &[Bytes]) -> Result<TxnCall, SpellFault> {
    Ok(TxnCall::GetKey {
        selector: selector(words, 1)?,
        snapshot: is_snapshot(words, 4),
    })
}

fn set(words: &[Bytes]) -> Result<TxnCall, SpellFault> {
    let key = bytes(words, 1)?;
    let value = bytes(words, 2)?;
    Ok(TxnCall::Set { key, value })
}

fn clear(words: &[Bytes]) -> Result<TxnCall, SpellFault> {
    Ok(TxnCall::Clear {
        key: bytes(words, 1)?,
    })
}

fn atomic(words: &[Bytes]) -> Result<TxnCall, SpellFault> {
    let name = bytes(words, 1)?;
    let key = bytes(words, 2)?;
    let operand = bytes(words, 3)?;
    Ok(TxnCall::Atomic { name, key, operand })
}

fn set_read_version(words: &[Bytes]) -> Result<TxnCall, SpellFault> {
    Ok(TxnCall::SetReadVersion {
        version: number(word(words, 1)?)?,
    })
}

fn on_error(words: &[Bytes]) -> Result<TxnCall, SpellFault> {
    Ok(TxnCall::OnError {
        code: Code(number(word(words, 1)?)?),
    })
}

fn read_call(words: &[Bytes]) -> Result<TxnCall, SpellFault> {
    match call_named(word(words, 0)?)? {
        Name::Get => get(words),
        Name::GetKey => get_key(words),
        Name::GetRange => get_range(words),
        Name::GetKeyRange => get_key_range(words),
        Name::Set => set(words),
        Name::Clear => clear(words),
        Name::Atomic => atomic(words),
        Name::SetReadVersion => set_read_version(words),
        Name::OnError => on_error(words),
        Name::ClearRange => Ok(TxnCall::ClearRange {
            range: range(words)?,
        }),
        Name::ReadConflict => Ok(TxnCall::ReadConflict {
            range: range(words)?,
        }),
        Name::WriteConflict => Ok(TxnCall::WriteConflict {
            range: range(words)?,
        }),
        Name::NoWriteConflict => Ok(TxnCall::NoWriteConflict),
        Name::ReadVersion => Ok(TxnCall::ReadVersion),
        Name::CommittedVersion => Ok(TxnCall::CommittedVersion),
        Name::Versionstamp => Ok(TxnCall::Versionstamp),
        Name::Commit => Ok(TxnCall::Commit),
        Name::Reset => Ok(TxnCall::Reset),
        Name::Cancel => Ok(TxnCall::Cancel),
    }
}
