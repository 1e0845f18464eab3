//! A reply in words.

use crate::spelling::{spell, spell_pairs};
use directory_types::{DirFault, DirReply, Path};
use fdb_calls::Reply;
use key_bytes::{Bytes, Pairs};
use std::alloc::{AllocError, Global};
use std::fmt::Write;

/// Returns a reply in words.
pub fn tell(alloc: Global, reply: &Reply) -> Result<String, AllocError> {
    let mut told = String::new(alloc);
    add_reply(&mut told, reply)?;
    Ok(told)
}

fn add_reply(to: &mut String, reply: &Reply) -> Result<(), AllocError> {
    match reply {
        Reply::Done => to.push_str("done"),
        Reply::Value(None) => to.push_str("no value"),
        Reply::Value(Some(value)) => add_bytes(to, "value ", value),
        Reply::KeyIs(key) => add_bytes(to, "key ", key),
        Reply::PairsAre(pairs) => add_pairs(to, pairs),
        Reply::Version(version) => write!(to, "version {version}"),
        Reply::Life(life) => write!(to, "life {life}"),
        Reply::Stamp(stamp) => add_stamp(to, stamp),
        Reply::NotYet => to.push_str("not yet"),
        Reply::Empty => to.push_str("empty"),
        Reply::Started {
            machine,
            instructions,
        } => add_started(to, *machine, instructions),
        Reply::NoMachine => to.push_str("no machine"),
        Reply::Dir(reply) => add_directory(to, reply.get()),
        Reply::DirFault(fault) => add_fault(to, fault),
        Reply::Fault(code) => add_number(to, "code ", u64::from(code.0)),
        Reply::NoMemory => to.push_str("out of memory"),
    }
}

fn add_bytes(to: &mut String, before: &str, bytes: &Bytes) -> Result<(), AllocError> {
    to.push_str(before)?;
    spell(to, bytes.as_slice())
}

fn add_number(to: &mut String, before: &str, number: u64) -> Result<(), AllocError> {
    write!(to, "{before}{number}")
}

fn add_pairs(to: &mut String, pairs: &Pairs) -> Result<(), AllocError> {
    to.push_str("pairs")?;
    spell_pairs(to, pairs)
}

fn add_started(to: &mut String, machine: u16, instructions: &Pairs) -> Result<(), AllocError> {
    write!(to, "machine {machine}")?;
    spell_pairs(to, instructions)
}

fn add_stamp(to: &mut String, stamp: &[u8; 10]) -> Result<(), AllocError> {
    to.push_str("stamp ")?;
    for byte in stamp {
        write!(to, "{byte:02x}")?;
    }
    Ok(())
}

fn add_directory(to: &mut String, reply: &DirReply) -> Result<(), AllocError> {
    match reply {
        DirReply::Opened {
            prefix,
            path,
            layer,
        } => add_opened(to, prefix, path, layer),
        DirReply::Names(names) => add_names(to, names),
        DirReply::Is(is) => write!(to, "{is}"),
        DirReply::Done => to.push_str("done"),
    }
}

fn add_opened(
    to: &mut String,
    prefix: &Bytes,
    path: &Path,
    layer: &Bytes,
) -> Result<(), AllocError> {
    add_bytes(to, "directory ", prefix)?;
    to.push(' ')?;
    add_path(to, path)?;
    add_bytes(to, " ", layer)
}

fn add_path(to: &mut String, path: &Path) -> Result<(), AllocError> {
    for name in path.as_slice() {
        to.push('/')?;
        to.push_str(name.as_str())?;
    }
    Ok(())
}

fn add_names(to: &mut String, names: &Path) -> Result<(), AllocError> {
    to.push_str("names")?;
    for name in names.as_slice() {
        to.push(' ')?;
        to.push_str(name.as_str())?;
    }
    Ok(())
}

fn add_fault(to: &mut String, fault: &DirFault) -> Result<(), AllocError> {
    match fault {
        DirFault::VersionNewer { version } => add_version(to, version),
        DirFault::BadNode { key } => add_bytes(to, "BadNode ", key),
        DirFault::BadCounter { key } => add_bytes(to, "BadCounter ", key),
        DirFault::WindowFull { start } => add_number(to, "WindowFull ", *start),
        DirFault::Tr(code) => add_number(to, "code ", u64::from(code.0)),
        _ => to.push_str(fault_name(fault)),
    }
}

fn add_version(to: &mut String, version: &[u32; 3]) -> Result<(), AllocError> {
    to.push_str("VersionNewer")?;
    for number in version {
        write!(to, " {number}")?;
    }
    Ok(())
}

// The name of a fault that tells no more.
fn fault_name(fault: &DirFault) -> &'static str {
    match fault {
        DirFault::EmptyPath => "EmptyPath",
        DirFault::Exists => "Exists",
        DirFault::Missing => "Missing",
        DirFault::LayerDiffers => "LayerDiffers",
        DirFault::ParentMissing => "ParentMissing",
        DirFault::IntoItself => "IntoItself",
        DirFault::ManualNotAllowed => "ManualNotAllowed",
        DirFault::PrefixInUse => "PrefixInUse",
        DirFault::KeysAtPrefix => "KeysAtPrefix",
        DirFault::NoSuccessor => "NoSuccessor",
        DirFault::AcrossPartitions => "AcrossPartitions",
        _ => "out of memory",
    }
}
