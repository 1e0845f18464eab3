//! The keys of a layer, and what they say.

ghost use Rattle.std.specs.Prelude.{◌≡◌, [], ◌∷◌, ◌++◌, length, drop, Ok, IfOk};
ghost use Rattle.std.specs.Result.{result_ok};
ghost use Rattle.fdb_tuple.specs.Reading.{read_tuple};
ghost use Rattle.model_directory.specs.Nodes.{node_of, entries_of, entry_of, layer_key, version_key, allocator_of, packed_bytes};
ghost use Rattle.model_directory.specs.Nodes.{packed_number, name_in, prefix_in, one_text, first_bytes};

use directory_types::Layer;
use fdb_subspace::{Subspace, packed_behind, range_behind};
use fdb_tuple::{Elem, Text, Tuple, UnpackFault, unpack};
use key_bytes::{Bytes, Key, KeyRange};
use std::alloc::{AllocError, Global};

/// The node of a directory.
#[derive(Drop)]
pub struct Node {
    // What its keys begin with.
    key: Key,
}

impl Node {
    /// Makes the node of the directory with a prefix.
    pub fn of(layer: &Layer, prefix: &Bytes) -> Result<Node, AllocError>
        ensures { IfOk result (λ node. node.key ≡ node_of layer.now prefix.now) }
    {
        let key = packed_behind(&layer.node, &Elem::Bytes(prefix.copy()?))?;
        Ok(Node { key })
    }

    /// Makes the key under which the prefix of the directory right below stands that has this name.
    pub fn entry(&self, name: &Text) -> Result<Key, AllocError>
        ensures { IfOk result (λ key. key ≡ entry_of self.now.key name.now) }
    {
        packed_behind(&self.entries_key()?, &Elem::Text(name.copy()?))
    }

    /// Makes the key under which the layer name stands.
    pub fn layer_key(&self) -> Result<Key, AllocError>
        ensures { IfOk result (λ key. key ≡ layer_key self.now.key) }
    {
        named_behind(&self.key, b"layer")
    }

    /// Makes the range of the entries of the directories right below.
    pub fn entries(&self) -> Result<KeyRange, AllocError>
        ensures begin { IfOk result (λ range. range.begin ≡ entries_of self.now.key ++ 0 ∷ []) }
        ensures end { IfOk result (λ range. range.end ≡ entries_of self.now.key ++ 255 ∷ []) }
    {
        range_behind(&self.entries_key()?)
    }

    /// Makes the range of all its keys.
    pub fn into_range(self) -> Result<KeyRange, AllocError>
        ensures begin { IfOk result (λ range. range.begin ≡ self.key ++ 0 ∷ []) }
        ensures end { IfOk result (λ range. range.end ≡ self.key ++ 255 ∷ []) }
    {
        range_behind(&self.key)
    }

    /// Returns the name of an entry, where what stands behind in its key is one Unicode string.
    pub fn name_in(&self, key: &Key) -> Result<Option<Text>, AllocError>
        ensures { IfOk result (λ name. name ≡ name_in self.now.key key.now) }
    {
        let Some(tuple) = tuple_behind(key, &self.entries_key()?)? else {
            return Ok(None);
        };
        name_of_one(&tuple)
    }

    // What the keys of the entries begin with.
    fn entries_key(&self) -> Result<Key, AllocError>
        ensures { IfOk result (λ key. key ≡ entries_of self.now.key) }
    {
        packed_behind(&self.key, &Elem::Int(0))
    }
}

/// Makes the key under which the version of a layer stands.
pub(crate) fn version_key(layer: &Layer) -> Result<Key, AllocError>
    ensures { IfOk result (λ key. key ≡ version_key layer.now) }
{
    named_behind(&Node::of(layer, &layer.node)?.key, b"version")
}

/// Makes the subspace of a layer's allocator.
pub(crate) fn allocator_of(layer: &Layer) -> Result<Subspace, AllocError>
    ensures { IfOk result (λ space. space.prefix ≡ allocator_of layer.now) }
{
    Ok(Subspace {
        prefix: named_behind(&Node::of(layer, &layer.node)?.key, b"hca")?,
    })
}

/// Makes the range of the keys of nodes up to that of a prefix, itself included.
pub(crate) fn nodes_up_to(layer: &Layer, prefix: &Bytes) -> Result<KeyRange, AllocError>
    ensures begin { IfOk result (λ range. range.begin ≡ layer.now.node ++ 0 ∷ []) }
    ensures end { IfOk result (λ range. range.end ≡ node_of layer.now prefix.now ++ 0 ∷ []) }
{
    Ok(KeyRange {
        begin: layer.node.after()?,
        end: Node::of(layer, prefix)?.key.after()?,
    })
}

/// Makes the range of the nodes of prefixes from one up to another.
pub(crate) fn nodes_between(
    layer: &Layer,
    prefix: &Bytes,
    next: &Bytes,
) -> Result<KeyRange, AllocError>
    ensures begin { IfOk result (λ range. range.begin ≡ node_of layer.now prefix.now) }
    ensures end { IfOk result (λ range. range.end ≡ node_of layer.now next.now) }
{
    Ok(KeyRange {
        begin: Node::of(layer, prefix)?.key,
        end: Node::of(layer, next)?.key,
    })
}

/// Returns the prefix of the directory in whose node a key stands.
pub(crate) fn prefix_in(layer: &Layer, key: &Key) -> Result<Option<Bytes>, AllocError>
    ensures { IfOk result (λ prefix. prefix ≡ prefix_in layer.now key.now) }
{
    let Some(tuple) = tuple_behind(key, &layer.node)? else {
        return Ok(None);
    };
    bytes_of_first(&tuple)
}

/// Makes a key with the packed tuple of one number behind it.
pub(crate) fn numbered_behind(key: &Key, number: u64) -> Result<Key, AllocError>
    ensures { IfOk result (λ packed. packed ≡ key.now ++ packed_number number) }
{
    packed_behind(key, &Elem::Int(i128::from(number)))
}

// A key, and the packed tuple of one byte string behind it.
fn named_behind(key: &Key, name: &[u8]) -> Result<Key, AllocError>
    ensures { IfOk result (λ packed. packed ≡ key.now ++ packed_bytes name.now) }
{
    let name = Bytes::from_slice(key.allocator(), name)?;
    packed_behind(key, &Elem::Bytes(name))
}

// The tuple that stands in a key behind what keys begin with, where one stands there.
fn tuple_behind(key: &Key, front: &Key) -> Result<Option<Tuple>, AllocError>
    ensures { IfOk result (λ tuple. tuple ≡ result_ok (read_tuple (drop (length front.now) key.now))) }
{
    let behind = key.as_slice().get(front.len()..).unwrap_or(&[]);
    match unpack(key.allocator(), behind) {
        Ok(tuple) => Ok(Some(tuple)),
        Err(UnpackFault::NoMemory) => Err(AllocError),
        Err(_) => Ok(None),
    }
}

// The Unicode string, where the tuple is one.
fn name_of_one(tuple: &Tuple) -> Result<Option<Text>, AllocError>
    ensures { IfOk result (λ name. name ≡ one_text (Ok tuple.now)) }
{
    match tuple.as_slice() {
        [Elem::Text(name)] => Ok(Some(name.copy()?)),
        _ => Ok(None),
    }
}

// The byte string that a tuple begins with.
fn bytes_of_first(tuple: &Tuple) -> Result<Option<Bytes>, AllocError>
    ensures { IfOk result (λ bytes. bytes ≡ first_bytes (Ok tuple.now)) }
{
    match tuple.as_slice() {
        [Elem::Bytes(bytes), ..] => Ok(Some(bytes.copy()?)),
        _ => Ok(None),
    }
}
