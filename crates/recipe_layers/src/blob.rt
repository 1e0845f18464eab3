//! The byte string in chunks.

ghost use Rattle.std.specs.Prelude.{◌≡◌, ◌+◌, ◌-◌, ◌≤◌, ◌&&◌, length, drop, nat_lt, bytes_eq, IfOk};
ghost use Rattle.key_bytes.specs.Entries.{entry_of};
ghost use Rattle.model_database.specs.Histories.{Setting};
ghost use Rattle.model_database.specs.Transactions.{Transaction};
ghost use Rattle.model_recipes.specs.declared.TheConstants.{CHUNK_LIMIT, SIZE_LIMIT};
ghost use Rattle.model_recipes.specs.Queues.{index_key};
ghost use Rattle.model_recipes.specs.Blobs.{has_size, bytes_in, part, overwritten, put_over, chunk, first_chunk, chunk_end, sets_chunks};
ghost use Rattle.model_recipes.specs.Blobs.{IsSized, ArePart, IsOverwritten};
ghost use Rattle.recipe_layers.specs.Steps.{Tells, IsWritten};

use crate::keys::index_key;
use crate::reading::read_pairs;
use fdb_calls::Tr;
use fdb_subspace::Subspace;
use key_bytes::{Bytes, Pair, Pairs};
use model_recipes::{CHUNK_BYTES, CHUNK_LIMIT, RecipeFault, SIZE_LIMIT};
use std::alloc::AllocError;

/// Returns how many bytes the byte string in the subspace has.
///
/// It reads all chunks. BadKey comes exactly where a pair of the subspace isn't the chunk of its place, at the first one. Tr comes
/// exactly where the read is refused. It changes nothing.
pub fn size<T: Tr>(tr: &mut T, s: &Subspace) -> Result<u64, RecipeFault>
    ensures sized { (setting : Setting) (t : Transaction) → T.Tr.stands tr.old setting t
        → IsSized result setting (T.Tr.stands tr.new setting) s.now.prefix t }
    ensures same { T.Tr.same tr.old tr.new }
{
    let pairs = read_pairs(tr, s, 0, false)?;
    let bytes = bytes_in(s, &pairs)?;
    Ok(bytes.len() as u64)
}

/// Returns the bytes of the byte string in the subspace from the place `from` on, `n` of them at most.
///
/// It reads all chunks. BadKey comes exactly where a pair of the subspace isn't the chunk of its place, at the first one. Tr comes
/// exactly where the read is refused. It changes nothing.
pub fn read<T: Tr>(tr: &mut T, s: &Subspace, from: u64, n: u32) -> Result<Bytes, RecipeFault>
    ensures part { (setting : Setting) (t : Transaction) → T.Tr.stands tr.old setting t
        → ArePart result setting (T.Tr.stands tr.new setting) s.now.prefix from n t }
    ensures same { T.Tr.same tr.old tr.new }
{
    let pairs = read_pairs(tr, s, 0, false)?;
    let bytes = bytes_in(s, &pairs)?;
    let part = part(bytes.as_slice(), from, n);
    Ok(Bytes::from_slice(s.prefix.allocator(), part)?)
}

/// Replaces the bytes of the byte string in the subspace from the place `at` on by `piece`, and extends it where the piece goes
/// past its end.
///
/// It reads all chunks, and sets each that has a byte of the piece. BadKey comes exactly where a pair of the subspace isn't the
/// chunk of its place, at the first one; else PastEnd exactly where `at` is above the size; else IndexEnd exactly where the piece
/// ends behind 10^12 bytes. None of them changes anything. Tr comes exactly where the read or a set is refused; the sets before
/// it stay in the transaction.
pub fn write<T: Tr>(tr: &mut T, s: &Subspace, at: u64, piece: &[u8]) -> Result<(), RecipeFault>
    ensures overwritten { (setting : Setting) (t : Transaction) → T.Tr.stands tr.old setting t
        → IsOverwritten result setting (T.Tr.stands tr.new setting) s.now.prefix at piece.now t }
    ensures same { T.Tr.same tr.old tr.new }
{
    let pairs = read_pairs(tr, s, 0, false)?;
    let bytes = bytes_in(s, &pairs)?;
    let new = put_over(&bytes, at, piece)?;
    set_chunks(tr, s, &new, at, piece.len())
}

// The bytes of pairs, which must be chunks.
fn bytes_in(s: &Subspace, pairs: &Pairs) -> Result<Bytes, RecipeFault>
    ensures { Tells result (bytes_in s.now.prefix pairs.now) }
{
    let mut bytes = Vec::new(s.prefix.allocator());
    let pairs = pairs.as_slice();
    for (place, pair) in pairs.iter().enumerate() {
        if !is_chunk(s, place, pair, place + 1 == pairs.len())? {
            return Err(RecipeFault::BadKey {
                key: pair.key.copy()?,
            });
        }
        bytes.extend_from_slice(pair.value.as_slice())?;
    }
    Ok(Bytes::from_vec(bytes)?)
}

// Whether a pair is the chunk of a place.
fn is_chunk(s: &Subspace, place: usize, pair: &Pair, is_last: bool) -> Result<bool, AllocError>
    ensures { IfOk result (λ is. is ≡ (nat_lt place CHUNK_LIMIT && bytes_eq pair.now.key (index_key s.now.prefix place)
        && has_size is_last (length pair.now.value))) }
{
    if place >= CHUNK_LIMIT {
        return Ok(false);
    }
    if pair.key != index_key(s, place as u64)? {
        return Ok(false);
    }
    Ok(has_size(is_last, pair.value.len()))
}

// Whether a chunk may have so many bytes.
fn has_size(is_last: bool, size: usize) -> bool
    ensures { result ≡ has_size is_last size }
{
    if is_last {
        0 < size && size <= CHUNK_BYTES
    } else {
        size == CHUNK_BYTES
    }
}

// The bytes from a place on, so many at most.
fn part(bytes: &[u8], from: u64, most: u32) -> &[u8]
    ensures { result.now ≡ part from most bytes.now }
{
    if from >= bytes.len() as u64 {
        return &[];
    }
    let rest = &bytes[from as usize..];
    let most = most as usize;
    if rest.len() <= most {
        return rest;
    }
    &rest[..most]
}

// The bytes with a piece from a place on.
fn put_over(bytes: &Bytes, at: u64, piece: &[u8]) -> Result<Bytes, RecipeFault>
    ensures { Tells result (put_over at piece.now bytes.now) }
{
    let size = bytes.len() as u64;
    if size < at {
        return Err(RecipeFault::PastEnd { size });
    }
    let end = u128::from(at) + piece.len() as u128;
    if u128::from(SIZE_LIMIT) < end {
        return Err(RecipeFault::IndexEnd);
    }
    Ok(spliced(bytes, at as usize, piece)?)
}

fn spliced(bytes: &Bytes, at: usize, piece: &[u8]) -> Result<Bytes, AllocError>
    requires within { at ≤ length bytes.now }
    requires fits { at + length piece.now ≤ SIZE_LIMIT }
    ensures { IfOk result (λ new. new ≡ overwritten bytes.now at piece.now) }
{
    let old = bytes.as_slice();
    let mut new = Vec::from_slice(bytes.allocator(), &old[..at])?;
    new.extend_from_slice(piece)?;
    new.extend_from_slice(behind(old, at + piece.len()))?;
    Bytes::from_vec(new)
}

// The bytes from a place on.
fn behind(bytes: &[u8], place: usize) -> &[u8]
    ensures { result.now ≡ drop place bytes.now }
{
    if bytes.len() < place {
        return &[];
    }
    &bytes[place..]
}

// Sets each chunk that has a byte of a piece of so many bytes.
fn set_chunks<T: Tr>(
    tr: &mut T,
    s: &Subspace,
    bytes: &Bytes,
    at: u64,
    size: usize,
) -> Result<(), RecipeFault>
    requires { at + size ≤ SIZE_LIMIT }
    ensures written { (setting : Setting) (t : Transaction) → T.Tr.stands tr.old setting t
        → IsWritten result setting (T.Tr.stands tr.new setting)
        (sets_chunks s.now.prefix bytes.now (first_chunk at) (chunk_end at size - first_chunk at)) t }
    ensures same { T.Tr.same tr.old tr.new }
{
    let first = first_chunk(at);
    let end = chunk_end(at, size);
    for place in first..end {
        let key = index_key(s, place)?;
        tr.set(key.as_slice(), chunk(bytes, place))?;
    }
    Ok(())
}

fn first_chunk(at: u64) -> u64
    ensures { result ≡ first_chunk at }
{
    at / CHUNK_BYTES as u64
}

fn chunk_end(at: u64, size: usize) -> u64
    requires { at + size ≤ SIZE_LIMIT }
    ensures end { result ≡ chunk_end at size }
    ensures within { result ≤ CHUNK_LIMIT }
{
    if size == 0 {
        return at / CHUNK_BYTES as u64;
    }
    (at + size as u64 - 1) / CHUNK_BYTES as u64 + 1
}

// The chunk of a place.
fn chunk(bytes: &Bytes, place: u64) -> &[u8]
    requires { place ≤ CHUNK_LIMIT }
    ensures { result.now ≡ chunk bytes.now place }
{
    part(
        bytes.as_slice(),
        CHUNK_BYTES as u64 * place,
        CHUNK_BYTES as u32,
    )
}
