//! Which keys are in a set, by its boundaries.

ghost use Rattle.std.specs.Prelude.{◌≡◌, ◌+◌, ◌*◌, ◌≤◌, ◌↔◌, ℕ, length, List, true, if◌then◌else◌, IsTrue, OnOk, OnErr};
ghost use Rattle.std.specs.List.Sorted.{IsStrictlySortedBy};
ghost use Rattle.key_bytes.specs.Keys.{key_cmp, within};
ghost use Rattle.key_bytes.specs.Ranges.{has};
ghost use Rattle.model_database.specs.States.{covers};
ghost use Rattle.range_map.specs.Boundaries.{changed, boundaries_of, held};
ghost use Rattle.conflict_ranges.specs.Ends.{HasRoom, IsSplitAt};
ghost use Rattle.conflict_ranges.specs.Segments.{IsSound};

use crate::membership::Membership;
use crate::walking::around_within;
use key_bytes::KeyRange;
use range_map::RangeMap;
use std::alloc::AllocError;

// Makes the ends of a range boundaries, which changes what no key has. After a refusal the boundaries are as they were.
fn split(members: &mut RangeMap<Membership>, range: &KeyRange) -> Result<(), AllocError>
    ensures ok { OnOk result (IsSplitAt range.now.begin range.now.end members.old members.new) }
    ensures err { OnErr result (members.new ≡ members.old) }
    ensures rising { OnOk result (IsStrictlySortedBy key_cmp (boundaries_of members.new)) }
{
    members.split_both(&range.begin, &range.end)
}

// Gives each boundary of a range a membership.
fn give(members: &mut RangeMap<Membership>, range: &KeyRange, membership: Membership)
    ensures given { members.new
        ≡ changed (within range.now.begin range.now.end) (λ _. membership) members.old }
    ensures rising { IsStrictlySortedBy key_cmp (boundaries_of members.old) }
{
    members.shows_rising();
    members.change(&range.begin, &range.end, &membership);
}

// Gives the keys of a range a membership. After a refusal the boundaries are as they were.
pub(crate) fn put(
    members: &mut RangeMap<Membership>,
    range: &KeyRange,
    membership: Membership,
) -> Result<(), AllocError>
    ensures ok { OnOk result ((key : List ℕ) → held members.new key
        ≡ (if has range.now key then membership else held members.old key)) }
    ensures sound { OnOk result (IsSound members.old → IsSound members.new) }
    ensures err { OnErr result (members.new ≡ members.old) }
    ensures few { length members.new.entries ≤ length members.old.entries + 2 }
{
    if range.is_empty() {
        return Ok(());
    }
    split(members, range)?;
    give(members, range, membership);
    Ok(())
}

// Makes the ends of ranges boundaries, which changes what no key has, after a refusal too.
pub(crate) fn split_all(
    members: &mut RangeMap<Membership>,
    ranges: &[KeyRange],
) -> Result<(), AllocError>
    ensures same { (key : List ℕ) → held members.new key ≡ held members.old key }
    ensures sound { IsSound members.old → IsSound members.new }
    ensures few { length members.new.entries ≤ length members.old.entries + 2 * length ranges.now }
    ensures room { OnOk result (HasRoom members.new ranges.now) }
{
    for range in ranges {
        split(members, range)?;
    }
    Ok(())
}

// Gives the keys of ranges, whose ends are boundaries, a membership.
pub(crate) fn put_all(
    members: &mut RangeMap<Membership>,
    ranges: &[KeyRange],
    membership: Membership,
)
    requires { HasRoom members.old ranges.now }
    ensures put { (key : List ℕ) → held members.new key
        ≡ (if covers ranges.now key then membership else held members.old key) }
    ensures sound { IsSound members.old → IsSound members.new }
    ensures few { length members.new.entries ≡ length members.old.entries }
{
    for range in ranges {
        give(members, range, membership);
    }
}

// Whether a key of a range is in the set. It takes no memory.
pub(crate) fn any_in(members: &RangeMap<Membership>, range: &KeyRange) -> bool
    ensures { IsTrue result
        ↔ ((key : List ℕ) × (has range.now key ≡ true) × ((held members.now key).0 ≡ true)) }
{
    if range.is_empty() {
        return false;
    }
    members.shows_rising();
    let mut from = &range.begin;
    loop {
        let (membership, next) = around_within(members, from, &range.end);
        if membership.0 {
            return true;
        }
        let Some(boundary) = next else {
            return false;
        };
        from = boundary;
    }
}
