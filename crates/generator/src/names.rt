//! Prefixes and keys of a worker.

ghost use Rattle.std.specs.Prelude.{◌≡◌, ◌++◌, codes, decimal, IfOk};
ghost use Rattle.generator.specs.Generated.{worker_prefix, busy_key, data_prefix, two_digits, round_key};

use fdb_tuple::Text;
use itoa::Buffer;
use key_bytes::Bytes;
use std::alloc::{AllocError, Global};

// A text, and behind it the digits of a number.
fn numbered(alloc: Global, begin: &str, number: u32) -> Result<Text, AllocError>
    ensures { IfOk result (λ text. text ≡ begin.now ++ decimal number) }
{
    let mut buffer = Buffer::new();
    let mut text = Text::from_str(alloc, begin)?;
    text.append(&Text::from_str(alloc, buffer.format(number))?)?;
    Ok(text)
}

// The prefix of a worker's instructions.
pub(crate) fn worker_prefix(alloc: Global, worker: u32) -> Result<Text, AllocError>
    ensures { IfOk result (λ prefix. prefix ≡ worker_prefix worker) }
{
    numbered(alloc, "w", worker)
}

// The key that is there while a worker goes on.
pub(crate) fn busy_key(alloc: Global, worker: u32) -> Result<Bytes, AllocError>
    ensures { IfOk result (λ key. key ≡ busy_key worker) }
{
    Ok(numbered(alloc, "busy", worker)?.into_bytes())
}

// What the keys that a worker sets begin with.
pub(crate) fn data_prefix(alloc: Global, worker: u32) -> Result<Bytes, AllocError>
    ensures { IfOk result (λ prefix. prefix ≡ data_prefix worker) }
{
    let mut prefix = numbered(alloc, "d", worker)?.into_bytes();
    prefix.extend(b"/")?;
    Ok(prefix)
}

// The key that a worker sets in a round.
pub(crate) fn round_key(alloc: Global, worker: u32, round: u32) -> Result<Bytes, AllocError>
    ensures { IfOk result (λ key. key ≡ round_key worker round) }
{
    let mut key = data_prefix(alloc, worker)?;
    let digits = numbered(alloc, if round < 10 { "0" } else { "" }, round)?;
    key.extend(digits.as_bytes())?;
    Ok(key)
}
