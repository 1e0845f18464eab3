//! The order of tuples.

ghost use Rattle.std.specs.Prelude.{◌≡◌};
ghost use Rattle.std.specs.Ordering.{nat_cmp, ordering_then};
ghost use Rattle.key_bytes.specs.Keys.{key_cmp};
ghost use Rattle.fdb_tuple.specs.Tuples.{Empty};
ghost use Rattle.fdb_tuple.specs.Listed.{before};
ghost use Rattle.fdb_tuple.specs.Order.{tuple_cmp};
ghost use Rattle.fdb_tuple.specs.Ranks.{rank_of};
ghost use Rattle.fdb_tuple.specs.Spelling.{spelling};

use crate::tuple::{Elem, Tuple, Versionstamp};
use std::cmp::Ordering;

/// Compares two tuples: element by element, by kind and then by value, a tuple before what it begins
/// (tuple.md). It is the order of the packed bytes.
pub fn cmp(a: &Tuple, b: &Tuple) -> Ordering
    ensures order { result ≡ tuple_cmp a.now b.now }
    ensures bytes { result ≡ key_cmp (spelling a.now) (spelling b.now) }
{
    a.shows_tuple();
    b.shows_tuple();
    tuple_order(a, b)
}

// The first elements that differ decide.
#[cycle(order)]
fn tuple_order(a: &Tuple, b: &Tuple) -> Ordering
    ensures { result ≡ tuple_cmp a.now b.now }
{
    let (left, right) = (a.as_slice(), b.as_slice());
    for (x, y) in left.iter().zip(right) {
        let order = element_order(x, y);
        if order.is_ne() {
            return order;
        }
    }
    left.len().cmp(&right.len())
}

// The order of the tuples of these elements alone.
#[cycle(order)]
fn element_order(a: &Elem, b: &Elem) -> Ordering
    ensures { result ≡ tuple_cmp (before a.now Empty) (before b.now Empty) }
{
    let kinds = kind_rank(a).cmp(&kind_rank(b));
    if kinds.is_ne() {
        return kinds;
    }
    value_order(a, b)
}

// The place of an element's kind in the order of kinds.
fn kind_rank(element: &Elem) -> u8
    ensures { result ≡ rank_of element.now }
{
    match element {
        Elem::Null => 0,
        Elem::Bytes(_) => 1,
        Elem::Text(_) => 2,
        Elem::Nested(_) => 3,
        Elem::Int(_) => 4,
        Elem::Bool(false) => 5,
        Elem::Bool(true) => 6,
        Elem::Uuid(_) => 7,
        Elem::Stamp(_) => 8,
    }
}

// The order of two elements of one kind.
#[cycle(order)]
fn value_order(a: &Elem, b: &Elem) -> Ordering
    requires { rank_of a.now ≡ rank_of b.now }
    ensures { result ≡ tuple_cmp (before a.now Empty) (before b.now Empty) }
{
    match (a, b) {
        (Elem::Bytes(a), Elem::Bytes(b)) => a.as_slice().cmp(&b.as_slice()),
        (Elem::Text(a), Elem::Text(b)) => a.as_bytes().cmp(&b.as_bytes()),
        (Elem::Nested(a), Elem::Nested(b)) => tuple_order(a, b),
        (Elem::Int(a), Elem::Int(b)) => a.cmp(b),
        (Elem::Uuid(a), Elem::Uuid(b)) => a.cmp(b),
        (Elem::Stamp(a), Elem::Stamp(b)) => stamp_order(a, b),
        _ => Ordering::Equal,
    }
}

// The bytes of a commit decide before the user's order.
fn stamp_order(a: &Versionstamp, b: &Versionstamp) -> Ordering
    ensures { result ≡ ordering_then (key_cmp a.now.stamp b.now.stamp) (nat_cmp a.now.user b.now.user) }
{
    a.stamp.cmp(&b.stamp).then(a.user.cmp(&b.user))
}
