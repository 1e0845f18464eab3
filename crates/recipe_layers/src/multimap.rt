//! The map from pairs to counts.

ghost use Rattle.std.specs.Prelude.{◌≡◌, IfOk, Ok};
ghost use Rattle.key_bytes.specs.Entries.{entry_of};
ghost use Rattle.key_bytes.specs.Keys.{IsByteString};
ghost use Rattle.fdb_subspace.specs.Inside.{key_read};
ghost use Rattle.model_database.specs.Histories.{Setting};
ghost use Rattle.model_database.specs.Transactions.{Transaction};
ghost use Rattle.model_recipes.specs.Multimaps.{pair_key, key_space, count_said, count_at, one_more, there, bytes_alone, counted, count_in, counts_in};
ghost use Rattle.model_recipes.specs.Multimaps.{IsAdded, IsSubtracted, AreValues};
ghost use Rattle.recipe_layers.specs.Steps.{Tells};

use crate::keys::packed_behind;
use crate::reading::{from_tr, read_pairs, read_value};
use fdb_calls::Tr;
use fdb_subspace::{SubFault, Subspace};
use fdb_tuple::{Elem, Tuple};
use key_bytes::{Bytes, Key, Pair, Pairs};
use lists::List;
use model_recipes::{Count, Counts, GREATEST_COUNT, RecipeFault};
use std::alloc::AllocError;

/// Adds one to the count of the pair of `k` and `v`.
///
/// It reads the count, and sets it one higher. BadKey comes exactly where the value of the pair's key isn't 8 bytes, or is 0, and
/// IndexEnd exactly where the count is the greatest; neither changes anything. Tr comes exactly where the read or the set is
/// refused, and then nothing is set.
pub fn add<T: Tr>(tr: &mut T, s: &Subspace, k: &[u8], v: &[u8]) -> Result<(), RecipeFault>
    ensures added { (setting : Setting) (t : Transaction) → T.Tr.stands tr.old setting t
        → IsAdded result setting (T.Tr.stands tr.new setting) s.now.prefix k.now v.now t }
    ensures same { T.Tr.same tr.old tr.new }
{
    shows_bytes(k, v);
    let at = pair_key(s, k, v)?;
    let value = read_value(tr, &at)?;
    let count = one_more(&at, count_at(&value))?;
    let bytes = count.to_le_bytes();
    from_tr(tr.set(at.as_slice(), &bytes))
}

/// Takes one from the count of the pair of `k` and `v`; a pair that isn't there stays so.
///
/// It reads the count, and sets it one lower, or clears the key where that is 0. BadKey comes exactly where the value of the pair's
/// key isn't 8 bytes, or is 0, and changes nothing. Tr comes exactly where the read or the write is refused, and then nothing is
/// written.
pub fn subtract<T: Tr>(tr: &mut T, s: &Subspace, k: &[u8], v: &[u8]) -> Result<(), RecipeFault>
    ensures subtracted { (setting : Setting) (t : Transaction) → T.Tr.stands tr.old setting t
        → IsSubtracted result setting (T.Tr.stands tr.new setting) s.now.prefix k.now v.now t }
    ensures same { T.Tr.same tr.old tr.new }
{
    shows_bytes(k, v);
    let at = pair_key(s, k, v)?;
    let value = read_value(tr, &at)?;
    let count = there(&at, count_at(&value))?;
    if count == 0 {
        return Ok(());
    }
    if count == 1 {
        return from_tr(tr.clear(at.as_slice()));
    }
    let bytes = (count - 1).to_le_bytes();
    from_tr(tr.set(at.as_slice(), &bytes))
}

/// Returns the values of `k` with their counts, in the order of the values.
///
/// It reads the pairs of `k`. BadKey comes exactly where a key of these has another form, or its value isn't 8 bytes, or is 0, at
/// the first one. Tr comes exactly where the read is refused. It changes nothing.
pub fn values<T: Tr>(tr: &mut T, s: &Subspace, k: &[u8]) -> Result<Counts, RecipeFault>
    ensures told { (setting : Setting) (t : Transaction) → T.Tr.stands tr.old setting t
        → AreValues result setting (T.Tr.stands tr.new setting) s.now.prefix k.now t }
    ensures same { T.Tr.same tr.old tr.new }
{
    let front = key_space(s, k)?;
    let pairs = read_pairs(tr, &front, 0, false)?;
    counts_in(&front, &pairs)
}

// For proofs: contracts see numbers from 0 to 255. It does nothing when it runs.
fn shows_bytes(k: &[u8], v: &[u8])
    ensures first { IsByteString k.now }
    ensures second { IsByteString v.now }
{}

// The key of a pair.
fn pair_key(s: &Subspace, k: &[u8], v: &[u8]) -> Result<Key, AllocError>
    ensures { IfOk result (λ key. key ≡ pair_key s.now.prefix k.now v.now) }
{
    let front = key_space(s, k)?;
    let value = Bytes::from_slice(s.prefix.allocator(), v)?;
    packed_behind(&front.prefix, &Elem::Bytes(value))
}

// The subspace of the pairs of a key.
fn key_space(s: &Subspace, k: &[u8]) -> Result<Subspace, AllocError>
    ensures { IfOk result (λ front. front.prefix ≡ key_space s.now.prefix k.now) }
{
    let key = Bytes::from_slice(s.prefix.allocator(), k)?;
    Ok(Subspace {
        prefix: packed_behind(&s.prefix, &Elem::Bytes(key))?,
    })
}

// The count that these bytes say.
fn count_said(bytes: &[u8]) -> Option<u64>
    ensures { result ≡ count_said bytes.now }
{
    if bytes.len() != 8 {
        return None;
    }
    let count = u64::from_le_bytes([
        bytes[0], bytes[1], bytes[2], bytes[3], bytes[4], bytes[5], bytes[6], bytes[7],
    ]);
    if count == 0 {
        return None;
    }
    Some(count)
}

// The count of a key that has this value, or none.
fn count_at(value: &Option<Bytes>) -> Option<u64>
    ensures { result ≡ count_at value.now }
{
    match value {
        None => Some(0),
        Some(bytes) => count_said(bytes.as_slice()),
    }
}

// One more than the count at a key.
fn one_more(at: &Key, count: Option<u64>) -> Result<u64, RecipeFault>
    ensures { Tells result (one_more at.now count) }
{
    match count {
        None => Err(RecipeFault::BadKey { key: at.copy()? }),
        Some(GREATEST_COUNT) => Err(RecipeFault::IndexEnd),
        Some(count) => Ok(count + 1),
    }
}

// The count at a key.
fn there(at: &Key, count: Option<u64>) -> Result<u64, RecipeFault>
    ensures { Tells result (there at.now count) }
{
    match count {
        None => Err(RecipeFault::BadKey { key: at.copy()? }),
        Some(count) => Ok(count),
    }
}

// The values and counts of pairs, in their order.
fn counts_in(front: &Subspace, pairs: &Pairs) -> Result<Counts, RecipeFault>
    ensures { Tells result (counts_in front.now.prefix pairs.now) }
{
    let mut counts = List::new(front.prefix.allocator());
    for pair in pairs.as_slice() {
        counts.push(count_in(front, pair)?)?;
    }
    Ok(counts)
}

// The value and the count of a pair.
fn count_in(front: &Subspace, pair: &Pair) -> Result<Count, RecipeFault>
    ensures { Tells result (count_in front.now.prefix (entry_of pair.now)) }
{
    match counted(front, pair)? {
        None => Err(RecipeFault::BadKey {
            key: pair.key.copy()?,
        }),
        Some(count) => Ok(count),
    }
}

// The same, where the pair has the form.
fn counted(front: &Subspace, pair: &Pair) -> Result<Option<Count>, AllocError>
    ensures { IfOk result (λ count. count ≡ counted front.now.prefix (entry_of pair.now)) }
{
    let Some(value) = value_in(front, &pair.key)? else {
        return Ok(None);
    };
    let Some(count) = count_said(pair.value.as_slice()) else {
        return Ok(None);
    };
    Ok(Some(Count { value, count }))
}

// The one byte string that stands in a key behind what it begins with.
fn value_in(front: &Subspace, key: &Key) -> Result<Option<Bytes>, AllocError>
    ensures { IfOk result (λ value. value ≡ bytes_alone (key_read front.now.prefix key.now)) }
{
    match front.unpack(key.allocator(), key.as_slice()) {
        Ok(tuple) => bytes_alone(&tuple),
        Err(SubFault::NoMemory) => Err(AllocError),
        Err(_) => Ok(None),
    }
}

// The byte string, where the tuple is one.
fn bytes_alone(tuple: &Tuple) -> Result<Option<Bytes>, AllocError>
    ensures { IfOk result (λ bytes. bytes ≡ bytes_alone (Ok tuple.now)) }
{
    match tuple.as_slice() {
        [Elem::Bytes(bytes)] => Ok(Some(bytes.copy()?)),
        _ => Ok(None),
    }
}
