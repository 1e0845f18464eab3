//! Replies as bytes.

ghost use Rattle.std.specs.Prelude.{◌≡◌, [], ◌∷◌, ◌++◌, map, codes, OnOk};
ghost use Rattle.fdb_tuple.specs.declared.tuple.Elem.TheVariants as elem;
ghost use Rattle.fdb_wire.specs.Elements.{packed, count, pair_elements};
ghost use Rattle.fdb_wire.specs.Requests.{spelled_by};
ghost use Rattle.fdb_wire.specs.Replies.{directory_row, fault_row, reply_bytes};

use crate::packing::{
    add_bytes, add_count, add_counts, add_flag, add_i64, add_pairs, add_path, add_slice, add_u16,
};
use directory_types::{DirFault, DirReply};
use fdb_calls::{Code, Reply};
use key_bytes::{Bytes, Pairs};
use std::alloc::AllocError;

// Adds a name and bytes behind it.
fn add_named(to: &mut Vec<u8>, name: &[u8], bytes: &Bytes) -> Result<(), AllocError>
    ensures { OnOk result (to.new.items ≡ to.old.items ++ packed (elem.Bytes name.now ∷ elem.Bytes bytes.now ∷ [])) }
{
    add_slice(to, name)?;
    add_bytes(to, bytes)
}

// Adds a name and a count behind it.
fn add_counted(to: &mut Vec<u8>, name: &[u8], number: u64) -> Result<(), AllocError>
    ensures { OnOk result (to.new.items ≡ to.old.items ++ packed (elem.Bytes name.now ∷ count number ∷ [])) }
{
    add_slice(to, name)?;
    add_count(to, number)
}

// Adds a name and a code behind it.
fn add_coded(to: &mut Vec<u8>, name: &[u8], code: Code) -> Result<(), AllocError>
    ensures { OnOk result (to.new.items ≡ to.old.items ++ packed (elem.Bytes name.now ∷ count code.0 ∷ [])) }
{
    add_slice(to, name)?;
    add_u16(to, code.0)
}

fn add_version(to: &mut Vec<u8>, version: &i64) -> Result<(), AllocError>
    ensures { OnOk result (to.new.items ≡ to.old.items ++ packed (elem.Bytes (codes "VERSION") ∷ elem.Int version.now ∷ [])) }
{
    add_slice(to, b"VERSION")?;
    add_i64(to, version)
}

// Adds a name and pairs behind it.
fn add_listed(to: &mut Vec<u8>, name: &[u8], pairs: &Pairs) -> Result<(), AllocError>
    ensures { OnOk result (to.new.items ≡ to.old.items ++ packed (elem.Bytes name.now ∷ pair_elements pairs.now)) }
{
    add_slice(to, name)?;
    add_pairs(to, pairs)
}

fn add_started(to: &mut Vec<u8>, machine: u16, instructions: &Pairs) -> Result<(), AllocError>
    ensures { OnOk result (to.new.items ≡ to.old.items ++ packed (elem.Bytes (codes "STARTED") ∷ count machine ∷ pair_elements instructions.now)) }
{
    add_slice(to, b"STARTED")?;
    add_u16(to, machine)?;
    add_pairs(to, instructions)
}

#[tactic(auto, unfolding(crate::specs::Replies::directory_row))]
fn add_directory(to: &mut Vec<u8>, answer: &DirReply) -> Result<(), AllocError>
    ensures { OnOk result (to.new.items ≡ to.old.items ++ packed (spelled_by (directory_row answer.now))) }
{
    match answer {
        DirReply::Opened {
            prefix,
            path,
            layer,
        } => {
            add_named(to, b"DIRECTORY", prefix)?;
            add_bytes(to, layer)?;
            add_path(to, path)
        }
        DirReply::Names(names) => {
            add_slice(to, b"DIRECTORY_NAMES")?;
            add_path(to, names)
        }
        DirReply::Is(exists) => {
            add_slice(to, b"DIRECTORY_IS")?;
            add_flag(to, *exists)
        }
        DirReply::Done => add_slice(to, b"DIRECTORY_DONE"),
    }
}

fn add_newer(to: &mut Vec<u8>, version: &[u32]) -> Result<(), AllocError>
    ensures { OnOk result (to.new.items ≡ to.old.items ++ packed (elem.Bytes (codes "VERSION_NEWER") ∷ map count version.now)) }
{
    add_slice(to, b"VERSION_NEWER")?;
    add_counts(to, version)
}

#[tactic(auto, unfolding(crate::specs::Replies::fault_row))]
fn add_fault(to: &mut Vec<u8>, fault: &DirFault) -> Result<(), AllocError>
    ensures { OnOk result (to.new.items ≡ to.old.items ++ packed (spelled_by (fault_row fault.now))) }
{
    match fault {
        DirFault::EmptyPath => add_slice(to, b"EMPTY_PATH"),
        DirFault::Exists => add_slice(to, b"EXISTS"),
        DirFault::Missing => add_slice(to, b"MISSING"),
        DirFault::LayerDiffers => add_slice(to, b"LAYER_DIFFERS"),
        DirFault::ParentMissing => add_slice(to, b"PARENT_MISSING"),
        DirFault::IntoItself => add_slice(to, b"INTO_ITSELF"),
        DirFault::ManualNotAllowed => add_slice(to, b"MANUAL_NOT_ALLOWED"),
        DirFault::PrefixInUse => add_slice(to, b"PREFIX_IN_USE"),
        DirFault::KeysAtPrefix => add_slice(to, b"KEYS_AT_PREFIX"),
        DirFault::VersionNewer { version } => add_newer(to, version),
        DirFault::NoSuccessor => add_slice(to, b"NO_SUCCESSOR"),
        DirFault::BadNode { key } => add_named(to, b"BAD_NODE", key),
        DirFault::BadCounter { key } => add_named(to, b"BAD_COUNTER", key),
        DirFault::WindowFull { start } => add_counted(to, b"WINDOW_FULL", *start),
        DirFault::AcrossPartitions => add_slice(to, b"ACROSS_PARTITIONS"),
        DirFault::Tr(code) => add_coded(to, b"CODE", *code),
        DirFault::NoMemory => add_slice(to, b"NO_MEMORY"),
    }
}

fn add_refused(to: &mut Vec<u8>, fault: &DirFault) -> Result<(), AllocError>
    ensures { OnOk result (to.new.items ≡ to.old.items ++ packed (elem.Bytes (codes "DIRECTORY_FAULT") ∷ spelled_by (fault_row fault.now))) }
{
    add_slice(to, b"DIRECTORY_FAULT")?;
    add_fault(to, fault)
}

/// Adds the bytes that spell a reply behind these bytes. After a refusal a part of them may stand there.
#[tactic(auto, unfolding(crate::specs::Replies::reply_row))]
pub fn write_reply(to: &mut Vec<u8>, reply: &Reply) -> Result<(), AllocError>
    ensures { OnOk result (to.new.items ≡ to.old.items ++ reply_bytes reply.now) }
{
    match reply {
        Reply::Done => add_slice(to, b"DONE"),
        Reply::Value(None) => add_slice(to, b"NOT_PRESENT"),
        Reply::Value(Some(value)) => add_named(to, b"VALUE", value),
        Reply::KeyIs(key) => add_named(to, b"KEY", key),
        Reply::PairsAre(pairs) => add_listed(to, b"PAIRS", pairs),
        Reply::Version(version) => add_version(to, version),
        Reply::Life(life) => add_counted(to, b"LIFE", *life),
        Reply::Stamp(stamp) => add_stamp(to, stamp),
        Reply::NotYet => add_slice(to, b"NOT_YET"),
        Reply::Empty => add_slice(to, b"EMPTY"),
        Reply::Started {
            machine,
            instructions,
        } => add_started(to, *machine, instructions),
        Reply::NoMachine => add_slice(to, b"NO_MACHINE"),
        Reply::Dir(answer) => add_directory(to, answer.get()),
        Reply::DirFault(fault) => add_refused(to, fault),
        Reply::Fault(code) => add_coded(to, b"FAULT", *code),
        Reply::NoMemory => add_slice(to, b"NO_MEMORY"),
    }
}

fn add_stamp(to: &mut Vec<u8>, stamp: &[u8; 10]) -> Result<(), AllocError>
    ensures { OnOk result (to.new.items ≡ to.old.items ++ packed (elem.Bytes (codes "STAMP") ∷ elem.Bytes stamp.now ∷ [])) }
{
    add_slice(to, b"STAMP")?;
    add_slice(to, stamp)
}
