//! A call of a directory layer by its words.

use crate::asking::{bytes, word};
use crate::spell_fault::SpellFault;
use crate::spelling::number;
use directory_types::{Boxed, DirArgs, DirKind, Layer, Path};
use fdb_calls::Request;
use fdb_tuple::Text;
use key_bytes::Bytes;
use lists::List;
use std::alloc::{AllocError, Global};

const KINDS: &[(&[u8], DirKind)] = &[
    (b"create", DirKind::Create),
    (b"create_or_open", DirKind::CreateOrOpen),
    (b"open", DirKind::Open),
    (b"move_to", DirKind::MoveTo),
    (b"remove", DirKind::Remove),
    (b"remove_if_exists", DirKind::RemoveIfExists),
    (b"list", DirKind::List),
    (b"exists", DirKind::Exists),
    (b"log_directory", DirKind::Log),
];

/// Returns the call of this name.
pub fn directory_kind(name: &[u8]) -> Option<DirKind> {
    for (known, kind) in KINDS {
        if *known == name {
            return Some(*kind);
        }
    }
    None
}

/// Reads a call: its name, a path, and in any order `layer` or `prefix` with its bytes, `to` with a path, `raw` with the prefix and the
/// number of a log, and `snapshot`.
pub fn directory_request(
    alloc: Global,
    name: Option<Bytes>,
    layer: &Layer,
    kind: DirKind,
    words: &[Bytes],
) -> Result<Request, SpellFault> {
    let args = read_args(alloc, words)?;
    let layer = Boxed::new(alloc, layer_copy(layer)?)?;
    let args = Boxed::new(alloc, args)?;
    Ok(Request::Directory {
        name,
        layer,
        kind,
        args,
    })
}

fn layer_copy(layer: &Layer) -> Result<Layer, AllocError> {
    let node = layer.node.copy()?;
    let content = layer.content.copy()?;
    Ok(Layer {
        node,
        content,
        manual: layer.manual,
    })
}

// Reads the path of a call, and what stands behind it.
fn read_args(alloc: Global, words: &[Bytes]) -> Result<DirArgs, SpellFault> {
    let path = read_path(alloc, word(words, 1)?)?;
    let mut args = DirArgs {
        path,
        new_path: List::new(alloc),
        layer: None,
        prefix: None,
        snapshot: false,
        raw: Bytes::new(alloc),
        index: 0,
    };
    let mut rest = words.get(2..).unwrap_or(&[]);
    for _ in 0..words.len() {
        let taken = read_option(alloc, &mut args, rest)?;
        rest = rest.get(taken..).unwrap_or(&[]);
    }
    Ok(args)
}

// Reads an option, and returns how many words it has.
fn read_option(alloc: Global, args: &mut DirArgs, words: &[Bytes]) -> Result<usize, SpellFault> {
    if words.is_empty() {
        return Ok(0);
    }
    match word(words, 0)? {
        b"layer" => args.layer = Some(bytes(words, 1)?),
        b"prefix" => args.prefix = Some(bytes(words, 1)?),
        b"to" => args.new_path = read_path(alloc, word(words, 1)?)?,
        b"raw" => return read_raw(args, words),
        b"snapshot" => {
            args.snapshot = true;
            return Ok(1);
        }
        _ => return Err(SpellFault::Unknown),
    }
    Ok(2)
}

fn read_raw(args: &mut DirArgs, words: &[Bytes]) -> Result<usize, SpellFault> {
    args.raw = bytes(words, 1)?;
    args.index = number(word(words, 2)?)?;
    Ok(3)
}

// Reads a path: each name has a slash before it, and the root is a slash alone.
fn read_path(alloc: Global, text: &[u8]) -> Result<Path, SpellFault> {
    let mut path = List::new(alloc);
    if text == b"/".as_slice() {
        return Ok(path);
    }
    for name in text
        .strip_prefix(b"/")
        .unwrap_or(b"")
        .split(|byte| *byte == b'/')
    {
        path.push(read_name(alloc, name)?)?;
    }
    Ok(path)
}

fn read_name(alloc: Global, name: &[u8]) -> Result<Text, SpellFault> {
    match str::from_utf8(name) {
        Ok(name) => Ok(Text::from_str(alloc, name)?),
        Err(_) => Err(SpellFault::Spelling),
    }
}
