//! Changes of the levels.

ghost use Rattle.std.specs.Prelude.{◌≡◌, true, IsTrue, OnOk, OnErr};
ghost use Rattle.std.specs.BTreeMap.{is_at};
ghost use Rattle.std.specs.List.Sorted.{IsStrictlySortedBy};
ghost use Rattle.key_bytes.specs.Keys.{key_cmp};
ghost use Rattle.range_map.specs.Boundaries.{changed, boundaries_of, held, is_boundary, split_both};
ghost use Rattle.write_map.specs.Levels.{cleared, hidden, is_list, spread, with_state, IsEdited};

use crate::edits::AtomicEdit;
use crate::level::{Level, State};
use key_bytes::Key;
use range_map::{Change, RangeMap};
use std::alloc::AllocError;

// The keys have no value from then on.
pub(crate) struct ClearKeys;

impl Change<Level> for ClearKeys {
    ghost use Rattle.write_map.specs.Levels.{cleared};

    ghost changed = { λ _ level. cleared level };

    fn change(&self, level: &mut Level) {
        level.state = State::Decided(None);
    }
}

// The keys are unreadable from then on.
pub(crate) struct HideKeys;

impl Change<Level> for HideKeys {
    ghost use Rattle.write_map.specs.Levels.{hidden};

    ghost changed = { λ _ level. hidden level };

    fn change(&self, level: &mut Level) {
        level.is_unreadable = true;
    }
}

// Makes a key and the one above it boundaries, and gives the key another state: one call of `put`, and two searches more where the
// key is unreadable, and stays so. After a refusal the levels are as they were.
pub(crate) fn put_state(
    levels: &mut RangeMap<Level>,
    key: &Key,
    next: &Key,
    state: State,
) -> Result<(), AllocError>
    ensures ok { OnOk result (let split = split_both spread key.now next.now levels.old in
        levels.new ≡ changed (is_at (key_cmp key.now)) (λ _. with_state state (held split key.now)) split) }
    ensures err { OnErr result (levels.new ≡ levels.old) }
    ensures rising { OnOk result (IsStrictlySortedBy key_cmp (boundaries_of levels.new)) }
{
    let level = Level {
        state,
        is_unreadable: false,
    };
    let before = levels.put(key, next, level)?;
    levels.shows_rising();
    if before.is_unreadable {
        hide_again(levels, key, before);
    }
    Ok(())
}

// Makes a boundary unreadable again that was so before it got another state: `before` is what it had.
fn hide_again(levels: &mut RangeMap<Level>, key: &Key, before: Level)
    requires { IsTrue (is_boundary key.now levels.old) }
    ensures given { levels.new ≡ changed (is_at (key_cmp key.now)) (λ _. hidden (held levels.old key.now)) levels.old }
    ensures rising { IsStrictlySortedBy key_cmp (boundaries_of levels.new) }
{
    let mut taken = levels.replace(key, before);
    taken.is_unreadable = true;
    let _before = levels.replace(key, taken);
    levels.shows_rising();
}

// Adds an operation to the list of operations that a boundary has. After a refusal the levels are as they were.
pub(crate) fn push_edit(
    levels: &mut RangeMap<Level>,
    key: &Key,
    edit: AtomicEdit,
) -> Result<(), AllocError>
    requires boundary { IsTrue (is_boundary key.now levels.old) }
    requires list { is_list (held levels.old key.now).state ≡ true }
    ensures ok { OnOk result (IsEdited key.now edit.op edit.operand levels.old levels.new) }
    ensures err { OnErr result (levels.new ≡ levels.old) }
    ensures rising { IsStrictlySortedBy key_cmp (boundaries_of levels.old) }
{
    levels.shows_rising();
    let mut level = levels.replace(key, Level::bare());
    let result = level.push(edit);
    let _bare = levels.replace(key, level);
    result
}
