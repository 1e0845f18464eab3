//! The queue.

ghost use Rattle.std.specs.Prelude.{◌≡◌};
ghost use Rattle.model_database.specs.Histories.{Setting};
ghost use Rattle.model_database.specs.Transactions.{Transaction};
ghost use Rattle.model_recipes.specs.Queues.{next_key, IsPushed, IsPopped};
ghost use Rattle.recipe_layers.specs.Steps.{Tells, pair_of};

use crate::keys::{index_in, index_key};
use crate::reading::{first_of, from_tr, read_pairs};
use fdb_calls::Tr;
use fdb_subspace::Subspace;
use key_bytes::{Bytes, Key, Pair};
use model_recipes::{GREATEST_INDEX, RecipeFault};

/// Adds `v` at the end of the queue in the subspace.
///
/// It reads the last pair of the subspace, and sets the key of the index behind that pair's, or of 0. BadKey comes exactly where
/// the last key is none of an index, and IndexEnd exactly where its index is the greatest; neither changes anything. Tr comes
/// exactly where the read or the set is refused, and then nothing is set.
pub fn push<T: Tr>(tr: &mut T, s: &Subspace, v: &[u8]) -> Result<(), RecipeFault>
    ensures pushed { (setting : Setting) (t : Transaction) → T.Tr.stands tr.old setting t
        → IsPushed result setting (T.Tr.stands tr.new setting) s.now.prefix v.now t }
    ensures same { T.Tr.same tr.old tr.new }
{
    let last = first_of(read_pairs(tr, s, 1, true)?);
    let key = next_key(s, &last)?;
    from_tr(tr.set(key.as_slice(), v))
}

/// Takes the first item from the queue in the subspace, and returns it; None exactly where the queue is empty.
///
/// It reads the first pair of the subspace, whatever its key is, and clears it. Tr comes exactly where the read or the clear is
/// refused, and then nothing is cleared.
pub fn pop<T: Tr>(tr: &mut T, s: &Subspace) -> Result<Option<Bytes>, RecipeFault>
    ensures popped { (setting : Setting) (t : Transaction) → T.Tr.stands tr.old setting t
        → IsPopped result setting (T.Tr.stands tr.new setting) s.now.prefix t }
    ensures same { T.Tr.same tr.old tr.new }
{
    let first = first_of(read_pairs(tr, s, 1, false)?);
    let Some(pair) = first else {
        return Ok(None);
    };
    tr.clear(pair.key.as_slice())?;
    Ok(Some(pair.value))
}

// The key of the next item, by the last pair, where there is one.
fn next_key(s: &Subspace, last: &Option<Pair>) -> Result<Key, RecipeFault>
    ensures { Tells result (next_key s.now.prefix (pair_of last.now)) }
{
    let Some(pair) = last else {
        return Ok(index_key(s, 0)?);
    };
    match index_in(s, &pair.key)? {
        None => Err(RecipeFault::BadKey {
            key: pair.key.copy()?,
        }),
        Some(GREATEST_INDEX) => Err(RecipeFault::IndexEnd),
        Some(index) => Ok(index_key(s, index + 1)?),
    }
}
