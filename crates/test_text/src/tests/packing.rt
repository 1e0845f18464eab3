//! Tuples and Unicode strings. Cases have each kind of element as it is packed and unpacked, whole tuples and their versionstamps.

use fdb_tuple::{Elem, PushFault, Text, Tuple};
use key_bytes::Bytes;
use std::alloc::{AllocError, Global};
use std::test::Fail;

fn bytes(alloc: Global, bytes: &[u8]) -> Option<Elem> {
    Some(Elem::Bytes(Bytes::from_slice(alloc, bytes).ok()?))
}

// The element that is a tuple.
fn inside(tuple: Option<Tuple>) -> Option<Elem> {
    match tuple {
        Some(tuple) => Some(Elem::Nested(tuple)),
        None => None,
    }
}

// A tuple with one element more; none where one of the two is none, or after a refusal.
fn longer(tuple: Option<Tuple>, element: Option<Elem>) -> Option<Tuple> {
    match (tuple, element) {
        (Some(mut tuple), Some(element)) => match tuple.push(element) {
            Ok(()) => Some(tuple),
            Err(_) => None,
        },
        _ => None,
    }
}

fn tuple_of(alloc: Global, element: Option<Elem>) -> Option<Tuple> {
    longer(Some(Tuple::new(alloc)), element)
}

// ---- whole tuples

// The byte string `foo 00 bar`, null and the empty tuple.
fn example(alloc: Global) -> Option<Tuple> {
    let two = longer(tuple_of(alloc, bytes(alloc, b"foo\0bar")), Some(Elem::Null));
    longer(two, Some(Elem::Nested(Tuple::new(alloc))))
}

// Whether the tuple is that of `example`, by each way of looking at it.
fn is_example(tuple: Tuple) -> bool {
    !tuple.is_empty()
        && tuple.len() == 3
        && tuple.depth() == 1
        && matches!(tuple.get(1), Elem::Null)
        && tuple.as_slice().len() == 3
        && tuple.into_vec().len() == 3
}

fn is_copied(tuple: &Tuple) -> bool {
    match tuple.copy() {
        Ok(copy) => is_example(copy),
        Err(_) => false,
    }
}

// Whether the element in the middle of the example is copied as null.
fn is_element_copied(tuple: &Tuple) -> bool {
    match tuple.as_slice() {
        [_, middle, _] => matches!(middle.copy(), Ok(Elem::Null)),
        _ => false,
    }
}

// Whether the example is copied, as a whole and its middle alone.
fn are_copied(alloc: Global) -> bool {
    match example(alloc) {
        Some(tuple) => is_element_copied(&tuple) && is_copied(&tuple),
        None => false,
    }
}

// Empty tuples in one another, so many of them in the outermost.
fn nested(alloc: Global, depth: usize) -> Option<Tuple> {
    let mut tuple = Some(Tuple::new(alloc));
    for _ in 0..depth {
        tuple = tuple_of(alloc, inside(tuple));
    }
    tuple
}

// Whether a new tuple takes no element of this depth.
fn is_too_deep(alloc: Global, depth: usize) -> Option<bool> {
    let deep = nested(alloc, depth)?;
    let pushed = Tuple::new(alloc).push(Elem::Nested(deep));
    Some(matches!(pushed, Err(PushFault::TooDeep)))
}

#[test]
fn tuples(rt: HostRuntime) {
    assert!(rt; are_copied(rt.alloc()));
    assert_eq!(rt; is_too_deep(rt.alloc(), 99), Some(false));
    assert_eq!(rt; is_too_deep(rt.alloc(), 100), Some(true));
}

// ---- Unicode strings

// Whether `é` with a copy of `t` behind it is `ét`, by each way of looking at it.
fn is_joined(alloc: Global) -> Result<bool, AllocError> {
    let mut text = Text::from_str(alloc, "\u{e9}")?;
    let end = Text::from_str(alloc, "t")?.copy()?;
    text.append(&end)?;
    Ok(
        text.as_str() == "\u{e9}t"
            && text.as_bytes() == b"\xC3\xA9t".as_slice()
            && text.into_bytes().as_slice() == b"\xC3\xA9t".as_slice(),
    )
}

#[test]
fn texts(rt: HostRuntime) -> Result<(), Fail> {
    assert!(rt; is_joined(rt.alloc())?);
    Ok(())
}
