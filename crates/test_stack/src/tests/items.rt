//! The stack: each operation once, items that wait, operands and logs.

use super::*;
use Lying::{Int, Stamp, Str, Waits};
use StackOperation::{
    Concat, Dup, EmptyStack, GetApproximateSize, GetEstimatedRangeSize, Pop, Sub, Swap, TuplePack,
    TuplePackWithVersionstamp, TupleRange, TupleSort, TupleUnpack, UnitTests, WaitFuture,
};
use model_database::Mode;
use stack_items::{Operands, StackOperation, bytes_of};

// The items before an operation, and those that it leaves.
type Row = (StackOperation, &'static [Lying], &'static [Lying]);

const STAMPED: &[u8] = b"ab\x33\xFF\xFF\xFF\xFF\xFF\xFF\xFF\xFF\xFF\xFF\x00\x07\x03\x00\x00\x00";

const OPERATIONS: [Row; 16] = [
    (Dup, &[Int(1)], &[Int(1), Int(1)]),
    (EmptyStack, &[Int(1), Int(2)], &[]),
    (Swap, &[Int(5), Int(6), Int(1)], &[Int(6), Int(5)]),
    (Swap, &[Waits(5), Int(6), Int(1)], &[Int(6), Waits(5)]),
    (Pop, &[Int(1), Int(2)], &[Int(1)]),
    (Sub, &[Int(5), Int(7)], &[Int(2)]),
    (Concat, &[Str(b"b"), Str(b"a")], &[Str(b"ab")]),
    (WaitFuture, &[Int(1)], &[Int(1)]),
    (
        TuplePack,
        &[Int(2), Int(1), Int(2)],
        &[Str(b"\x15\x01\x15\x02")],
    ),
    (
        TuplePackWithVersionstamp,
        &[Stamp(7), Int(1), Str(b"ab")],
        &[Str(b"OK"), Str(STAMPED)],
    ),
    (
        TupleUnpack,
        &[Str(b"\x15\x01\x01a\x00")],
        &[Str(b"\x15\x01"), Str(b"\x01a\x00")],
    ),
    (
        TupleRange,
        &[Int(1), Int(1)],
        &[Str(b"\x15\x01\x00"), Str(b"\x15\x01\xFF")],
    ),
    (
        TupleSort,
        &[Str(b"\x15\x01"), Str(b"\x15\x02"), Str(b"\x15\x01"), Int(3)],
        &[Str(b"\x15\x01"), Str(b"\x15\x01"), Str(b"\x15\x02")],
    ),
    (GetApproximateSize, &[], &[Str(b"GOT_APPROXIMATE_SIZE")]),
    (
        GetEstimatedRangeSize,
        &[Str(b"b"), Str(b"a")],
        &[Str(b"GOT_ESTIMATED_RANGE_SIZE")],
    ),
    (UnitTests, &[Int(1)], &[Int(1)]),
];

// Does an operation by its own call.
fn call(stack: &mut Stack, operation: StackOperation) -> Result<(), StackFault> {
    match operation {
        Dup => stack.dup(90),
        EmptyStack => stack.empty_stack(90),
        Swap => stack.swap(90),
        Pop => stack.pop(90),
        Sub => stack.sub(90),
        Concat => stack.concat(90),
        WaitFuture => stack.wait_future(90),
        TuplePack => stack.tuple_pack(90),
        TuplePackWithVersionstamp => stack.tuple_pack_with_versionstamp(90),
        TupleUnpack => stack.tuple_unpack(90),
        TupleRange => stack.tuple_range(90),
        TupleSort => stack.tuple_sort(90),
        GetApproximateSize => stack.get_approximate_size(90),
        GetEstimatedRangeSize => stack.get_estimated_range_size(90),
        UnitTests => stack.unit_tests(90),
    }
}

// Whether an operation leaves these items, by `operate` and by its own call.
fn leaves_on(alloc: Global, stack: &mut Stack, row: Row) -> Result<bool, StackFault> {
    let (operation, items, left) = row;
    lay_all(alloc, stack, items)?;
    stack.operate(operation, 90)?;
    let are_left = are_items(stack, left);
    stack.empty_stack(90)?;
    lay_all(alloc, stack, items)?;
    call(stack, operation)?;
    Ok(are_left && are_items(stack, left))
}

fn leaves(alloc: Global, row: Row) -> Result<bool, StackFault> {
    let mut stack = Stack::new(alloc);
    let leaves = leaves_on(alloc, &mut stack, row);
    drop(stack);
    leaves
}

// The place of the first operation that leaves other items.
fn first_other_operation(alloc: Global) -> Result<Option<usize>, StackFault> {
    for (place, row) in OPERATIONS.iter().enumerate() {
        if !leaves(alloc, *row)? {
            return Ok(Some(place));
        }
    }
    Ok(None)
}

#[test]
fn operations_leave_their_items(rt: HostRuntime) {
    assert_eq!(rt; first_other_operation(rt.alloc()), Ok(None));
}

// Makes the uppermost item that waits an integer: its place.
fn decide_at(stack: &mut Stack, number: i128) -> Option<usize> {
    let place = stack.first_waiting();
    if let Some(place) = place {
        stack.decide(place, Elem::Int(number));
    }
    place
}

// The lives that batches wait for, and the places of items that become known, as items are decided from the top down.
fn decide_all(stack: &mut Stack) -> ([Option<u64>; 2], [Option<usize>; 2]) {
    let upper = (stack.batch_life(), decide_at(stack, 60));
    let lower = (stack.batch_life(), stack.first_waiting());
    stack.decide_first(Elem::Int(50));
    ([upper.0, lower.0], [upper.1, lower.1])
}

const BELOW: &[Lying] = &[Int(4), Waits(5), Waits(6)];

const DECIDED: &[Lying] = &[Int(4), Int(50), Int(60)];

// The same, whether the items are known then, and how many there are once the item that waits is dropped with all above.
type Told = ([Option<u64>; 2], [Option<usize>; 2], bool, usize);

fn wait_on(alloc: Global, stack: &mut Stack) -> Result<Told, StackFault> {
    lay_all(alloc, stack, BELOW)?;
    let (lives, places) = decide_all(stack);
    let are_known = are_items(stack, DECIDED);
    lay_all(alloc, stack, &[Waits(7), Int(8)])?;
    stack.drop_waiting();
    Ok((lives, places, are_known, stack.len()))
}

fn wait(alloc: Global) -> Result<Told, StackFault> {
    let mut stack = Stack::new(alloc);
    let told = wait_on(alloc, &mut stack);
    drop(stack);
    told
}

#[test]
fn items_that_wait_become_known(rt: HostRuntime) {
    let told = ([Some(6), Some(5)], [Some(2), Some(1)], true, 3);
    assert_eq!(rt; wait(rt.alloc()), Ok(told));
}

// Pushes an item that waits on one that is known: how many items there are then, and the place of the one that waits.
fn push_on(alloc: Global, stack: &mut Stack) -> Result<(usize, Option<usize>), StackFault> {
    lay_all(alloc, stack, &[Int(4)])?;
    stack.push_waiting(5, 0)?;
    Ok((stack.len(), stack.first_waiting()))
}

fn push(alloc: Global) -> Result<(usize, Option<usize>), StackFault> {
    let mut stack = Stack::new(alloc);
    let told = push_on(alloc, &mut stack);
    drop(stack);
    told
}

#[test]
fn an_item_that_waits_is_pushed(rt: HostRuntime) {
    assert_eq!(rt; push(rt.alloc()), Ok((2, Some(1))));
}

fn put_six(stack: &mut Stack) -> Result<(), AllocError> {
    stack.put(Item {
        value: ItemValue::Known(Elem::Int(6)),
        instruction: 4,
    })
}

// Whether the lower of two items is 5, and the number of the instruction that pushed the upper one.
fn take_of_two(stack: &mut Stack) -> Option<(bool, u64)> {
    if stack.len() != 2 {
        return None;
    }
    let is_five = is_item(stack.get(0), &Int(5));
    Some((is_five, stack.take().instruction))
}

fn put_on(alloc: Global, stack: &mut Stack) -> Result<(Option<(bool, u64)>, bool), StackFault> {
    lay_all(alloc, stack, &[Int(5)])?;
    put_six(stack)?;
    Ok((take_of_two(stack), stack.is_empty()))
}

fn put(alloc: Global) -> Result<(Option<(bool, u64)>, bool), StackFault> {
    let mut stack = Stack::new(alloc);
    let told = put_on(alloc, &mut stack);
    drop(stack);
    told
}

#[test]
fn the_item_that_was_put_is_taken(rt: HostRuntime) {
    assert_eq!(rt; put(rt.alloc()), Ok((Some((true, 4)), false)));
}

// What a look at operands finds, from the top down.
#[derive(Clone, Copy, Debug, PartialEq, Eq)]
struct Found {
    code: u16,
    flag: bool,
    offset: i32,
    limit: u32,
    mode: Mode,
    int: i128,
    count: u128,
    is_string: bool,
}

const OPERANDS: &[Lying] = &[
    Str(b"s"),
    Str(b"s"),
    Int(7),
    Int(-6),
    Int(-1),
    Int(2_147_483_647),
    Int(-2_147_483_648),
    Int(-1),
    Int(65_535),
];

const FOUND: Found = Found {
    code: 65_535,
    flag: true,
    offset: i32::MIN,
    limit: 2_147_483_647,
    mode: Mode::Iterator,
    int: -6,
    count: 7,
    is_string: true,
};

// Whether the next operand is this string; its bytes are looked at, or copied.
fn is_string(operands: &mut Operands<'_>) -> Result<bool, StackFault> {
    let element = operands.element()?;
    Ok(
        bytes_of(element) == Some(b"s".as_slice())
            && operands.copied_bytes()?.as_slice() == b"s".as_slice(),
    )
}

fn look(operands: &mut Operands<'_>) -> Result<Found, StackFault> {
    Ok(Found {
        code: operands.code()?,
        flag: operands.flag()?,
        offset: operands.offset()?,
        limit: operands.limit()?,
        mode: operands.mode()?,
        int: operands.int()?,
        count: operands.count()?,
        is_string: is_string(operands)?,
    })
}

// What a look at all operands finds, and how many items are left once it is settled.
fn look_on(alloc: Global, stack: &mut Stack) -> Result<(Found, usize), StackFault> {
    lay_all(alloc, stack, OPERANDS)?;
    let mut operands = stack.operands();
    let found = look(&mut operands);
    let popped = operands.popped();
    Ok((stack.settle(popped, found)?, stack.len()))
}

fn look_at_operands(alloc: Global) -> Result<(Found, usize), StackFault> {
    let mut stack = Stack::new(alloc);
    let found = look_on(alloc, &mut stack);
    drop(stack);
    found
}

#[test]
fn operands_are_looked_at_and_settled(rt: HostRuntime) {
    assert_eq!(rt; look_at_operands(rt.alloc()), Ok((FOUND, 0)));
}

// Whether the bytes of the top operand are these.
fn sees(stack: &Stack, bytes: &[u8]) -> bool {
    let mut operands = stack.operands();
    operands.bytes() == Ok(bytes)
}

fn pop_on(alloc: Global, stack: &mut Stack) -> Result<(bool, bool, usize), StackFault> {
    lay_all(alloc, stack, &[Int(1), Str(b"k")])?;
    let is_seen = sees(stack, b"k");
    let is_popped = stack.pop_bytes()?.as_slice() == b"k".as_slice();
    Ok((is_seen, is_popped, stack.len()))
}

fn pop(alloc: Global) -> Result<(bool, bool, usize), StackFault> {
    let mut stack = Stack::new(alloc);
    let told = pop_on(alloc, &mut stack);
    drop(stack);
    told
}

#[test]
fn a_string_is_popped(rt: HostRuntime) {
    assert_eq!(rt; pop(rt.alloc()), Ok((true, true, 1)));
}

fn is_entry(pair: &Pair, entry: &(&[u8], &[u8])) -> bool {
    pair.key.as_slice() == entry.0 && pair.value.as_slice() == entry.1
}

// Whether the batch of a log has these entries.
fn logs(stack: &mut Stack, entries: &[(&[u8], &[u8])]) -> Result<bool, AllocError> {
    let log = stack.take_log()?;
    let log = log.as_slice();
    Ok(
        log.len() == entries.len()
            && log
                .iter()
                .zip(entries)
                .all(|(pair, entry)| is_entry(pair, entry)),
    )
}

const LOGGED: &[(&[u8], &[u8])] = &[
    (b"\x14\x14", b"\x01a\x00"),
    (b"\x15\x01\x14", b"\x15\x01"),
    (b"\x15\x02\x14", b"*"),
];

fn log_on(alloc: Global, stack: &mut Stack) -> Result<(bool, usize), StackFault> {
    lay_all(alloc, stack, &[Str(b"a"), Int(1), Waits(7)])?;
    Ok((logs(stack, LOGGED)?, stack.len()))
}

fn log(alloc: Global) -> Result<(bool, usize), StackFault> {
    let mut stack = Stack::new(alloc);
    let told = log_on(alloc, &mut stack);
    drop(stack);
    told
}

#[test]
fn a_log_has_places_instructions_and_packed_items(rt: HostRuntime) {
    assert_eq!(rt; log(rt.alloc()), Ok((true, 0)));
}
