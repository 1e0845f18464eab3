//! What a life keeps of its end. Cases have how commits are judged.

use super::*;

// Whether a read conflict range that is added to a transaction is one of its own.
fn rests_when_told_in(world: &mut World) -> Result<bool, TrFault> {
    let range = range_of(world.alloc, (b"m", b"p"))?;
    world.first().read_conflict(&range)?;
    Ok(are_spans(world.first().read_ranges(), &[(b"m", b"p")]))
}

fn rests_when_told(alloc: Global) -> Result<bool, TrFault> {
    let mut world = world_over(alloc, &[])?;
    let rests = rests_when_told_in(&mut world);
    drop(world);
    rests
}

#[test]
fn a_transaction_rests_on_what_it_is_told_to(rt: HostRuntime) {
    assert_eq!(rt; rests_when_told(rt.alloc()), Ok(true));
}

// What a life promises, and what it tells of its commit.
type Life = (Result<u64, Code>, i64, Option<Outcome>);

fn life_of(on: &TxnOn<'_>) -> Life {
    (on.promise(), on.txn.committed_version(), on.txn.outcome())
}

// Begins life 7, and notes that a commit of it made version 5.
fn commit_in_life_7(on: &mut TxnOn<'_>) {
    on.txn.reset(7);
    on.tried(Tried::Version(5));
}

// What life 7 tells before and after, and what a call is answered then.
fn note(on: &mut TxnOn<'_>) -> (Life, Life, Result<(), TrFault>) {
    on.txn.reset(7);
    let begun = life_of(on);
    commit_in_life_7(on);
    (begun, life_of(on), on.set(b"k", b"v"))
}

fn noted(alloc: Global) -> Result<(Life, Life, Result<(), TrFault>), TrFault> {
    let mut world = world_over(alloc, &[])?;
    let noted = note(&mut world.first());
    drop(world);
    Ok(noted)
}

const BEGUN: Life = (Ok(7), -1, None);

const ENDED: Life = (
    Err(Code(2017)),
    5,
    Some(Outcome::HasStamp([0, 0, 0, 0, 0, 0, 0, 5, 0, 0])),
);

const TAKES_NO_CALL: Result<(), TrFault> = Err(TrFault::Code(Code(2017)));

#[test]
fn a_life_keeps_what_became_of_its_commit(rt: HostRuntime) {
    assert_eq!(rt; noted(rt.alloc()), Ok((BEGUN, ENDED, TAKES_NO_CALL)));
}

// The lives that a transaction at the last version goes through, and what it promises after a cancel.
fn lives_of(txn: &mut Txn) -> ([u64; 2], Result<u64, Code>, Result<(), Code>) {
    let begun = txn.life();
    let handled = txn.on_error(Code(1020), 4);
    let next = txn.life();
    txn.cancel();
    ([begun, next], txn.promise(), handled)
}

fn lives(alloc: Global) -> ([u64; 2], Result<u64, Code>, Result<(), Code>) {
    let store = Store::new(alloc);
    let mut txn = Txn::at_last(alloc, 3, &store);
    let lives = lives_of(&mut txn);
    drop(txn);
    drop(store);
    lives
}

#[test]
fn a_life_ends_by_an_error_and_a_cancel(rt: HostRuntime) {
    assert_eq!(rt; lives(rt.alloc()), ([3, 4], Err(Code(1025)), Ok(())));
}
