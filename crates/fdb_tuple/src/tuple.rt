//! A tuple and its elements.

ghost use Rattle.std.specs.Prelude.{◌≡◌, ◌^◌, ◌==◌, ◌<◌, ◌↔◌, [], ◌∷◌, ◌++◌, Some, Err, length, slice_get, IfOk, OnOk, OnErr};

use crate::fault::PushFault;
use crate::text::Text;
use key_bytes::Bytes;
use std::alloc::{AllocError, Global};
use std::marker::Model;

/// How deep tuples may be nested.
pub(crate) const MAX_DEPTH: u8 = 100;

/// A versionstamp of a tuple (tuple.md, "Versionstamp"): the 10 bytes that a commit gives, and the user's order
/// within the commit. Ten `FF` mark it as incomplete: a commit is to fill it in.
#[derive(Clone, Copy, Debug, PartialEq, Eq)]
pub struct Versionstamp {
    pub stamp: [u8; 10],
    pub user: u16,
}

/// An element of a tuple.
#[cycle(tuple)]
#[derive(Debug, Drop)]
pub enum Elem {
    /// Nothing.
    Null,
    /// A byte string.
    Bytes(Bytes),
    /// A Unicode string.
    Text(Text),
    /// A tuple as an element.
    Nested(Tuple),
    /// An integer.
    Int(i128),
    /// A boolean.
    Bool(bool),
    /// A UUID, by its bytes in the order in which it is written.
    Uuid([u8; 16]),
    /// A versionstamp.
    Stamp(Versionstamp),
}

/// A tuple of a depth of at most 100: the depth is 0 without nested tuples, else 1 more than the greatest depth of one.
/// Contracts see its elements in order (`specs/Tuples.antt`), or the list of them (`specs/Listed.antt`).
#[cycle(tuple)]
#[derive(Debug, Drop)]
pub struct Tuple {
    items: Vec<Elem>,
    depth: u8,
}

impl Model for Tuple {
    ghost use Rattle.std.specs.Prelude.{◌≡◌};
    ghost use Rattle.fdb_tuple.specs.Tuples.{Elements, depth_of, weight, IsTuple};
    ghost use Rattle.fdb_tuple.specs.Codes.{elements_code};

    ghost Value = { Elements };

    ghost coded = { elements_code };

    ghost use Rattle.fdb_tuple.specs.Listed.{tuple_of};

    ghost view = { λ t. tuple_of t.items.items };

    ghost invariant = { λ t. (t.depth ≡ depth_of (tuple_of t.items.items)) × IsTuple (tuple_of t.items.items) };

    ghost size = { weight };

    ghost use Rattle.std.proofs.Common.{arith};
    ghost use Rattle.fdb_tuple.specs.Falls.{most_below};

    ghost size_decreases = { λ t h. omega (arith, most_below t.items.items) };
}

ghost use Rattle.key_bytes.specs.Keys.{IsByteString};
ghost use Rattle.fdb_tuple.specs.Tuples.{Empty, depth_of, AreElements, IsTuple};
ghost use Rattle.fdb_tuple.specs.Listed.{before, tuple_of, elements_of, IsTooDeep};

impl Elem {
    /// Returns a copy of the element.
    #[cycle(copy)]
    pub fn copy(&self) -> Result<Elem, AllocError>
        ensures { IfOk result (λ copy. copy ≡ self.now) }
    {
        Ok(match self {
            Elem::Null => Elem::Null,
            Elem::Bytes(bytes) => Elem::Bytes(bytes.copy()?),
            Elem::Text(text) => Elem::Text(text.copy()?),
            Elem::Nested(tuple) => Elem::Nested(tuple.copy()?),
            Elem::Int(number) => Elem::Int(*number),
            Elem::Bool(value) => Elem::Bool(*value),
            Elem::Uuid(bytes) => Elem::Uuid(*bytes),
            Elem::Stamp(stamp) => Elem::Stamp(*stamp),
        })
    }

    // The depth of the tuple of this one element.
    fn depth(&self) -> u8
        ensures { result ≡ depth_of (before self.now Empty) }
    {
        match self {
            Elem::Nested(tuple) => {
                tuple.shows_tuple();
                tuple.depth() + 1
            }
            _ => 0,
        }
    }

    // For proofs: contracts see an element of a tuple. It does nothing when it runs.
    pub(crate) fn shows_element(&self)
        ensures { AreElements (before self.now Empty) }
    {
        match self {
            Elem::Null | Elem::Bool(_) => {}
            Elem::Bytes(bytes) => bytes.shows_bytes(),
            Elem::Text(text) => {
                let _bytes = text.as_bytes();
            }
            Elem::Nested(tuple) => tuple.shows_tuple(),
            Elem::Int(number) => {
                let _number = *number;
            }
            Elem::Uuid(bytes) => shows_bytes(bytes),
            Elem::Stamp(stamp) => stamp.shows_stamp(),
        }
    }
}

impl Versionstamp {
    // For proofs: contracts see the 10 bytes of a versionstamp, and a number of 16 bits. It does nothing when it runs.
    fn shows_stamp(&self)
        ensures bytes { IsByteString self.now.stamp }
        ensures count { length self.now.stamp ≡ 10 }
        ensures user { self.now.user < 2 ^ 16 }
    {
        shows_bytes(&self.stamp);
        let _user = self.user;
    }
}

// For proofs: contracts see numbers from 0 to 255. It does nothing when it runs.
fn shows_bytes(bytes: &[u8])
    ensures { IsByteString bytes.now }
{}

impl Tuple {
    /// Makes the empty tuple.
    pub fn new(alloc: Global) -> Tuple
        ensures { result ≡ Empty }
    {
        Tuple {
            items: Vec::new(alloc),
            depth: 0,
        }
    }

    /// Returns how many elements there are.
    pub fn len(&self) -> usize
        ensures { result ≡ length (elements_of self.now) }
    {
        self.as_slice().len()
    }

    /// Tells whether there is no element.
    pub fn is_empty(&self) -> bool
        ensures { result ≡ (length (elements_of self.now) == 0) }
    {
        self.as_slice().is_empty()
    }

    /// Returns the depth: 0 without nested tuples, else 1 more than the greatest depth of one.
    pub fn depth(&self) -> u8
        ensures { result ≡ depth_of self.now }
    {
        self.depth
    }

    /// Returns the element at place `i`, counted from 0.
    pub fn get(&self, i: usize) -> &Elem
        requires { i < length (elements_of self.now) }
        ensures { slice_get (elements_of self.now) i ≡ Some result.now }
    {
        &self.as_slice()[i]
    }

    /// Returns the elements in order.
    pub fn as_slice(&self) -> &[Elem]
        ensures elements { result.now ≡ elements_of self.now }
        ensures tuple { tuple_of result.now ≡ self.now }
    {
        self.items.as_slice()
    }

    /// Returns the elements themselves, in order.
    pub fn into_vec(self) -> Vec<Elem>
        ensures elements { result.items ≡ elements_of self }
        ensures tuple { tuple_of result.items ≡ self }
    {
        self.items
    }

    // For proofs: contracts see a tuple, whose elements are lawful, and whose depth is at most 100. It does nothing when it runs.
    pub(crate) fn shows_tuple(&self)
        ensures { IsTuple self.now }
    {
        let _items = &self.items;
    }

    /// Adds `element` at the end. TooDeep comes exactly where it is a nested tuple of depth 100. After a refusal the
    /// tuple is unchanged.
    #[inline(always)]
    pub fn push(&mut self, element: Elem) -> Result<(), PushFault>
        ensures ok { OnOk result (elements_of self.new ≡ elements_of self.old ++ element ∷ []) }
        ensures deep { (result ≡ Err PushFault.TooDeep) ↔ IsTooDeep element }
        ensures err { OnErr result (self.new ≡ self.old) }
    {
        let depth = element.depth();
        if depth > MAX_DEPTH {
            return Err(PushFault::TooDeep);
        }
        element.shows_element();
        self.items.push(element)?;
        self.depth = self.depth.max(depth);
        Ok(())
    }

    /// Returns a copy of the tuple.
    #[cycle(copy)]
    pub fn copy(&self) -> Result<Tuple, AllocError>
        ensures { IfOk result (λ copy. copy ≡ self.now) }
    {
        let mut items = Vec::with_capacity(*self.items.allocator(), self.items.len())?;
        for element in self.items.as_slice() {
            items.push(element.copy()?)?;
        }
        Ok(Tuple {
            items,
            depth: self.depth,
        })
    }
}
