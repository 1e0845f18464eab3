//! The read of a call.

ghost use Rattle.std.specs.Prelude.{◌≡◌, true, false};
ghost use Rattle.std.specs.FinMap as finite;
ghost use Rattle.model_database.specs.Histories.{Setting};
ghost use Rattle.model_database.specs.Reads.{Get, GetKeyRange};
ghost use Rattle.model_database.specs.Slices.{slice};
ghost use Rattle.model_database.specs.Transactions.{Transaction, view};
ghost use Rattle.model_recipes.specs.Turns.{space_begin, space_end, first_pair};
ghost use Rattle.model_recipes.specs.Faults.{from_tr};
ghost use Rattle.recipe_layers.specs.Steps.{IsRead, pair_of};

use crate::keys::range_behind;
use fdb_calls::{Tr, TrFault};
use fdb_subspace::Subspace;
use key_bytes::{Bytes, Key, KeyRange, Pair, Pairs};
use model_recipes::RecipeFault;

/// What a call of the transaction answered, with the fault of a call of a layer.
pub(crate) fn from_tr<X>(answer: Result<X, TrFault>) -> Result<X, RecipeFault>
    ensures { result ≡ from_tr answer }
{
    match answer {
        Ok(value) => Ok(value),
        Err(TrFault::Code(code)) => Err(RecipeFault::Tr(code)),
        Err(TrFault::NoMemory) => Err(RecipeFault::NoMemory),
    }
}

/// Reads the pairs of a range, up to a limit, or all where it is 0, in the order of their keys, or in the other order.
pub(crate) fn read_range<T: Tr>(
    tr: &mut T,
    range: &KeyRange,
    limit: u32,
    reverse: bool,
) -> Result<Pairs, RecipeFault>
    ensures read { (setting : Setting) (t : Transaction) → T.Tr.stands tr.old setting t
        → IsRead (λ pairs. pairs ≡ slice (view setting t) range.now.begin range.now.end limit reverse) result setting (T.Tr.stands tr.new setting)
        (GetKeyRange range.now.begin range.now.end limit reverse) t }
    ensures same { T.Tr.same tr.old tr.new }
{
    from_tr(tr.range(range, limit, reverse, false))
}

/// Reads the pairs of a subspace, in the same way.
pub(crate) fn read_pairs<T: Tr>(
    tr: &mut T,
    s: &Subspace,
    limit: u32,
    reverse: bool,
) -> Result<Pairs, RecipeFault>
    ensures read { (setting : Setting) (t : Transaction) → T.Tr.stands tr.old setting t
        → IsRead (λ pairs. pairs ≡ slice (view setting t) (space_begin s.now.prefix) (space_end s.now.prefix) limit reverse) result setting
        (T.Tr.stands tr.new setting) (GetKeyRange (space_begin s.now.prefix) (space_end s.now.prefix) limit reverse) t }
    ensures same { T.Tr.same tr.old tr.new }
{
    let range = range_behind(&s.prefix)?;
    read_range(tr, &range, limit, reverse)
}

/// Reads the value of a key.
pub(crate) fn read_value<T: Tr>(tr: &mut T, key: &Key) -> Result<Option<Bytes>, RecipeFault>
    ensures read { (setting : Setting) (t : Transaction) → T.Tr.stands tr.old setting t
        → IsRead (λ value. value ≡ finite.get (view setting t) key.now) result setting (T.Tr.stands tr.new setting) (Get key.now) t }
    ensures same { T.Tr.same tr.old tr.new }
{
    from_tr(tr.get(key.as_slice(), false))
}

/// Returns the first of some pairs, where there is one.
pub(crate) fn first_of(pairs: Pairs) -> Option<Pair>
    ensures { pair_of result ≡ first_pair pairs }
{
    pairs.into_vec().into_iter().next()
}
