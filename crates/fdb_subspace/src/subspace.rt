//! A subspace.

ghost use Rattle.std.specs.Prelude.{◌≡◌, ◌↔◌, false, [], ◌∷◌, ◌++◌, length, drop, Err, IfOk, IfErr};
ghost use Rattle.key_bytes.specs.Keys.{begins_with};
ghost use Rattle.fdb_tuple.specs.Tuples.{IsTuple};
ghost use Rattle.fdb_tuple.specs.Spelling.{spelling};

use crate::behind::range_behind;
use crate::fault::SubFault;
use fdb_tuple::{Tuple, UnpackFault, pack_into, unpack};
use key_bytes::{Bytes, KeyRange};
use std::alloc::{AllocError, Global};

/// A subspace: the keys that begin with a raw prefix.
#[derive(Debug, Drop)]
pub struct Subspace {
    pub prefix: Bytes,
}

impl Subspace {
    ghost use Rattle.fdb_subspace.specs.Inside.{key_read, Gives, IsBehind};

    /// Packs a tuple as a key: the prefix, and the spelling of the tuple behind it.
    pub fn pack(&self, tuple: &Tuple) -> Result<Bytes, AllocError>
        ensures { IfOk result (λ key. key ≡ self.now.prefix ++ spelling tuple.now) }
    {
        let mut key = Vec::from_slice(self.prefix.allocator(), self.prefix.as_slice())?;
        pack_into(&mut key, tuple)?;
        Bytes::from_vec(key)
    }

    /// Unpacks the tuple whose key this is. NotInside comes exactly where the key doesn't begin with the
    /// prefix; Unpack is the fault of what follows the prefix, with places counted from there.
    pub fn unpack(&self, alloc: Global, key: &[u8]) -> Result<Tuple, SubFault>
        ensures inside { (result ≡ Err SubFault.NotInside) ↔ (begins_with key.now self.now.prefix ≡ false) }
        ensures found { IfOk result (λ tuple. IsTuple tuple × (key.now ≡ self.now.prefix ++ spelling tuple)) }
        ensures stops { IfErr result (IsBehind (drop (length self.now.prefix) key.now)) }
        ensures exact { Gives result (key_read self.now.prefix key.now) }
    {
        if !key.starts_with(self.prefix.as_slice()) {
            return Err(SubFault::NotInside);
        }
        unpack_behind(alloc, &key[self.prefix.len()..])
    }

    /// Returns the range of the keys whose tuples begin with this one and have more elements.
    pub fn range(&self, tuple: &Tuple) -> Result<KeyRange, AllocError>
        ensures begin { IfOk result (λ range. range.begin ≡ self.now.prefix ++ spelling tuple.now ++ 0 ∷ []) }
        ensures end { IfOk result (λ range. range.end ≡ self.now.prefix ++ spelling tuple.now ++ 255 ∷ []) }
    {
        range_behind(&self.pack(tuple)?)
    }

    /// Tells whether a key begins with the prefix.
    pub fn contains(&self, key: &[u8]) -> bool
        ensures { result ≡ begins_with key.now self.now.prefix }
    {
        key.starts_with(self.prefix.as_slice())
    }
}

ghost use Rattle.fdb_subspace.specs.Inside.{behind_read, Gives, IsBehind};

// The tuple that these bytes pack.
fn unpack_behind(alloc: Global, bytes: &[u8]) -> Result<Tuple, SubFault>
    ensures found { IfOk result (λ tuple. IsTuple tuple × (bytes.now ≡ spelling tuple)) }
    ensures stops { IfErr result (IsBehind bytes.now) }
    ensures exact { Gives result (behind_read bytes.now) }
{
    match unpack(alloc, bytes) {
        Ok(tuple) => Ok(tuple),
        Err(UnpackFault::NoMemory) => Err(SubFault::NoMemory),
        Err(fault) => Err(SubFault::Unpack(fault)),
    }
}
