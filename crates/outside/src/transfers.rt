//! Whole inputs and outputs.

ghost use Rattle.std.specs.Prelude.{◌≡◌, ◌-◌, ◌<◌, ◌≤◌, length, take, drop, IfOk, OnOk, OnErr, vec_len};
ghost use Rattle.std.specs.Bool.{OnTrue, OnFalse};
ghost use Rattle.std.specs.Io.KnownBytes.{Appends};
ghost use Rattle.outside.specs.Counts.{Rose};
ghost use Rattle.outside.specs.Streams.{AppendsFront, GotWithin, IsReadOutcome, Reads};

use crate::sink::{Put, Sink};
use crate::source::{Source, Taken};
use std::alloc::{AllocError, Global};

/// What `read_all` came to.
#[derive(Debug, Drop)]
pub enum ReadOutcome {
    /// All the bytes that were left, fewer than the limit.
    Whole(Vec<u8>),
    /// As many bytes as the limit says. There may be more.
    Full(Vec<u8>),
    /// A read failed.
    Failed,
    /// There was no memory for the bytes.
    NoMemory,
}

/// Reads `source` to its end, or until `limit` bytes were read, and no further. Where a read fails or
/// memory runs out it stops, and the bytes that it took before, fewer than `limit`, are lost.
pub fn read_all<S: Source>(alloc: Global, source: &mut S, limit: usize) -> ReadOutcome
    ensures outcome { IsReadOutcome result limit (S.left source.old) (S.left source.new) }
    ensures later { S.faults source.old ≤ S.faults source.new }
    ensures cause { result ≡ ReadOutcome.Failed → Rose (S.faults source.old) (S.faults source.new) }
{
    let mut bytes = Vec::new(alloc);
    let mut filled = 0;
    while filled < limit {
        match read_chunk(source, &mut bytes, filled, limit) {
            Ok(Taken::Got(n)) => filled += n,
            Ok(Taken::End) => {
                bytes.truncate(filled);
                return ReadOutcome::Whole(bytes);
            }
            Ok(Taken::Failed) => return ReadOutcome::Failed,
            Err(AllocError) => return ReadOutcome::NoMemory,
        }
    }
    bytes.truncate(filled);
    ReadOutcome::Full(bytes)
}

/// The least room of a read, while the limit allows it.
const CHUNK: usize = 64 * 1024;

/// Reads once into `bytes`, behind its first `filled` items. Room is made first, so that nothing is read where
/// there is no memory for it.
fn read_chunk<S: Source>(
    source: &mut S,
    bytes: &mut Vec<u8>,
    filled: usize,
    limit: usize,
) -> Result<Taken, AllocError>
    requires below { filled < limit }
    requires within { filled ≤ vec_len bytes.old }
    requires clipped { vec_len bytes.old ≤ limit }
    ensures within { filled ≤ vec_len bytes.new }
    ensures clipped { vec_len bytes.new ≤ limit }
    ensures front { take filled bytes.new.items ≡ take filled bytes.old.items }
    ensures bound { IfOk result (λ taken. GotWithin taken (vec_len bytes.new - filled)) }
    ensures bytes { IfOk result
        (λ taken. Reads taken (S.left source.old) (S.left source.new) (drop filled bytes.new.items)) }
    ensures later { S.faults source.old ≤ S.faults source.new }
    ensures cause { IfOk result
        (λ taken. taken ≡ Taken.Failed → Rose (S.faults source.old) (S.faults source.new)) }
    ensures err { OnErr result (source.new ≡ source.old) }
{
    make_room(bytes, filled, limit)?;
    Ok(read_at(source, bytes.as_mut_slice(), filled))
}

/// Makes `bytes` longer than `filled`, so that a chunk fits behind that, or up to the limit.
fn make_room(bytes: &mut Vec<u8>, filled: usize, limit: usize) -> Result<(), AllocError>
    requires below { filled < limit }
    requires within { filled ≤ vec_len bytes.old }
    requires clipped { vec_len bytes.old ≤ limit }
    ensures within { filled ≤ vec_len bytes.new }
    ensures clipped { vec_len bytes.new ≤ limit }
    ensures front { take filled bytes.new.items ≡ take filled bytes.old.items }
    ensures room { OnOk result (filled < vec_len bytes.new) }
{
    let end = filled + CHUNK.min(limit - filled);
    if bytes.len() < end {
        bytes.resize(end, 0)?;
    }
    Ok(())
}

/// Reads once into the part of `buf` from `at` on.
fn read_at<S: Source>(source: &mut S, buf: &mut [u8], at: usize) -> Taken
    requires { at < length buf.old }
    ensures front { take at buf.new ≡ take at buf.old }
    ensures bound { GotWithin result (length buf.new - at) }
    ensures bytes { Reads result (S.left source.old) (S.left source.new) (drop at buf.new) }
    ensures later { S.faults source.old ≤ S.faults source.new }
    ensures cause { result ≡ Taken.Failed → Rose (S.faults source.old) (S.faults source.new) }
{
    source.read(&mut buf[at..])
}

/// Writes all of `bytes`, piece by piece, and answers whether that was done. After a failed write a front of
/// them was written, and the count of faults rose.
pub fn write_all<K: Sink>(sink: &mut K, bytes: &[u8]) -> bool
    ensures whole { OnTrue result (Appends (K.written sink.old) (K.written sink.new) bytes.now) }
    ensures front { OnFalse result (AppendsFront (K.written sink.old) (K.written sink.new) bytes.now) }
    ensures later { K.faults sink.old ≤ K.faults sink.new }
    ensures cause { OnFalse result (Rose (K.faults sink.old) (K.faults sink.new)) }
{
    let mut done = 0;
    while done < bytes.len() {
        match sink.write(&bytes[done..]) {
            Put::Took(n) => done += n,
            Put::Failed => return false,
        }
    }
    true
}
