//! Pairs of one key that stand one behind the other, of which the last one is what a load keeps.

ghost use Rattle.std.specs.Prelude.{◌≡◌, ◌≤◌, Bool, true, false, cond, length, map};
ghost use Rattle.key_bytes.specs.Entries.{entries_of};
ghost use Rattle.model_database.specs.Databases.{Database, do_all};
ghost use Rattle.model_database.specs.Histories.{loaded};

use key_bytes::Pair;
use std::mem;

// Of pairs of one key that stand one behind the other leaves the last one, so that a list of many lines of one key takes no more
// memory than its keys.
pub(crate) fn merge_runs(pairs: &mut Vec<Pair>)
    ensures len { length pairs.new.items ≤ length pairs.old.items }
    ensures same { (database : Database) → do_all (loaded (entries_of pairs.new.items)).mutations database
        ≡ do_all (loaded (entries_of pairs.old.items)).mutations database }
{
    pairs.dedup_by(replaces);
}

// Tells whether a pair has the key of the one that was kept last, and then puts it in that one's place.
fn replaces(next: &mut Pair, kept: &mut Pair) -> bool
    ensures key { result ≡ true → kept.old.key ≡ next.old.key }
    ensures kept { kept.new ≡ cond result next.old kept.old }
    ensures next { result ≡ false → next.new ≡ next.old }
{
    let has_its_key = next.key == kept.key;
    if has_its_key {
        mem::swap(next, kept);
    }
    has_its_key
}
