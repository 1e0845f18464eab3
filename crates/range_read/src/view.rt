//! Ordered views of a database.

ghost use Rattle.std.specs.Prelude.{◌≡◌, ◌<◌, ◌≤◌, ◌++◌, length, IfOk};
ghost use Rattle.std.specs.FinMap as finite;
ghost use Rattle.std.specs.List.{filter};
ghost use Rattle.std.specs.Option.{option_map};
ghost use Rattle.key_bytes.specs.Entries.{entry_of};
ghost use Rattle.key_bytes.specs.Keys.{key_le, key_lt};
ghost use Rattle.key_map.specs.Ends.{first, last};
ghost use Rattle.model_database.specs.Databases.{Database};
ghost use Rattle.model_database.specs.Slices.{span};

use crate::taken::Taken;
use key_bytes::{Key, KeyRange, Pair};
use std::alloc::AllocError;

/// What can be asked of a database for reads of more than one key: the neighbours of a key. It answers the same each
/// time, as one view of the database.
pub trait OrderedView {
    // the database that is seen
    ghost map: { Self → Database };

    /// Returns the first pair with a key that is at least `key`, copied. None exactly where there is none.
    fn next(&self, key: &Key) -> Result<Option<Pair>, AllocError>
        ensures { IfOk result (λ pair. option_map entry_of pair
            ≡ first (filter (λ e. key_le key.now e.0) (finite.entries (map self.now)))) };

    /// Returns the last pair with a key that is less than `key`, copied. None exactly where there is none.
    fn prev(&self, key: &Key) -> Result<Option<Pair>, AllocError>
        ensures { IfOk result (λ pair. option_map entry_of pair
            ≡ last (filter (λ e. key_lt e.0 key.now) (finite.entries (map self.now)))) };

    /// Returns first pairs of a range, copied, in the order of a walk through it, up to a limit, and what is
    /// left of the range behind them; a limit of 0 is none. Returns only pairs that the view reaches without a
    /// search of its own for each; it may return none.
    fn run(&self, range: &KeyRange, limit: u32, reverse: bool) -> Result<Taken, AllocError>
        ensures whole { IfOk result (λ taken. taken.pairs ++ span (map self.now) taken.left.begin taken.left.end reverse
            ≡ span (map self.now) range.now.begin range.now.end reverse) }
        ensures short { IfOk result (λ taken. 0 < limit → length taken.pairs ≤ limit) };
}
