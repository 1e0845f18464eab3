//! Tuples as byte strings.

ghost use Rattle.std.specs.Prelude.{◌≡◌, ◌+◌, ◌^◌, ◌<◌, [], ◌∷◌, ◌++◌, length, take, IfOk, OnOk, OnErr};
ghost use Rattle.fdb_tuple.specs.Tuples.{Empty};
ghost use Rattle.fdb_tuple.specs.Listed.{before};
ghost use Rattle.fdb_tuple.specs.Spelling.{spelling};
ghost use Rattle.fdb_tuple.specs.Stamps.{stamp_packed, GivesPacked};

use crate::fault::StampPackFault;
use crate::lengths::{element_len, packed_len};
use crate::places::stamp_place;
use crate::putting::{put_element, put_tuple};
use crate::tuple::{Elem, Tuple};
use byteorder::{ByteOrder, LittleEndian};
use key_bytes::{Bytes, KeyRange};
use std::alloc::{AllocError, Global};

/// Packs the tuple: returns the spellings of its elements, one after the other.
pub fn pack(alloc: Global, tuple: &Tuple) -> Result<Bytes, AllocError>
    ensures { IfOk result (λ packed. packed ≡ spelling tuple.now) }
{
    let mut packed = Vec::with_capacity(alloc, packed_len(tuple))?;
    put_tuple(&mut packed, tuple, false)?;
    Bytes::from_vec(packed)
}

/// Packs the tuple of this one element.
pub fn pack_element(alloc: Global, element: &Elem) -> Result<Bytes, AllocError>
    ensures { IfOk result (λ packed. packed ≡ spelling (before element.now Empty)) }
{
    let mut packed = Vec::with_capacity(alloc, element_len(element, false))?;
    put_element(&mut packed, element, false)?;
    Bytes::from_vec(packed)
}

/// Adds the spelling of the tuple of this one element behind these bytes. After a refusal a part of it may stand behind
/// what `to` held.
pub fn pack_element_into(to: &mut Vec<u8>, element: &Elem) -> Result<(), AllocError>
    ensures ok { OnOk result (to.new.items ≡ to.old.items ++ spelling (before element.now Empty)) }
    ensures err { OnErr result (take (length to.old.items) to.new.items ≡ to.old.items) }
{
    put_element(to, element, false)
}

/// Adds the spelling of the tuple behind these bytes. After a refusal they are unchanged.
pub fn pack_into(to: &mut Vec<u8>, tuple: &Tuple) -> Result<(), AllocError>
    ensures ok { OnOk result (to.new.items ≡ to.old.items ++ spelling tuple.now) }
    ensures err { OnErr result (to.new.items ≡ to.old.items) }
{
    let len = to.len();
    let put = put_tuple(to, tuple, false);
    if put.is_err() {
        to.truncate(len);
    }
    put
}

/// Returns the range of the keys that pack a tuple which begins with this one and has more elements: from the
/// packed tuple followed by `00` to it followed by `FF` (tuple.md).
pub fn range(alloc: Global, tuple: &Tuple) -> Result<KeyRange, AllocError>
    ensures { IfOk result (λ range. (range.begin ≡ spelling tuple.now ++ 0 ∷ []) × (range.end ≡ spelling tuple.now ++ 255 ∷ [])) }
{
    let mut begin = pack(alloc, tuple)?;
    let mut end = begin.copy()?;
    begin.extend(&[0x00])?;
    end.extend(&[0xFF])?;
    Ok(KeyRange { begin, end })
}

/// Packs the prefix, the tuple behind it, and as 4 bytes little-endian the place in them of the 10 bytes of the
/// one incomplete versionstamp (tuple.md, "Versionstamp"). NoStamp comes exactly where the tuple holds none at
/// any depth, ManyStamps exactly where it holds more than one.
pub fn pack_with_stamp(alloc: Global, prefix: &[u8], tuple: &Tuple) -> Result<Bytes, StampPackFault>
    requires { length prefix.now + length (spelling tuple.now) + 4 < 2 ^ 32 }
    ensures { GivesPacked result (stamp_packed prefix.now tuple.now) }
{
    let place = stamp_place(prefix.len(), tuple)?;
    let mut packed = Vec::with_capacity(alloc, prefix.len() + packed_len(tuple) + 4)?;
    packed.extend_from_slice(prefix)?;
    put_tuple(&mut packed, tuple, false)?;
    let mut place_bytes = [0; 4];
    LittleEndian::write_u32(&mut place_bytes, place);
    packed.extend_from_slice(&place_bytes)?;
    Ok(Bytes::from_vec(packed)?)
}
