//! The spellings of elements, put behind other bytes. After a refusal the bytes begin with those that were there.

ghost use Rattle.std.specs.Prelude.{◌≡◌, ◌≤◌, true, [], ◌∷◌, ◌++◌, length, take, OnOk, OnErr};
ghost use Rattle.std.specs.Int.{w16, w128, to_be_bytes};
ghost use Rattle.fdb_tuple.specs.Tuples.{Empty};
ghost use Rattle.fdb_tuple.specs.Listed.{before};
ghost use Rattle.fdb_tuple.specs.Spelling.{escaped, string_spelled, least_bytes, with_sign, int_code, signed_spelled, null_spelled, spelled_in};

use crate::lengths::zero_bytes;
use crate::tuple::{Elem, Tuple, Versionstamp};
use crate::zeros::split_at_zero;
use byteorder::{BigEndian, ByteOrder};
use std::alloc::AllocError;

// The elements of the tuple, at the top or inside a nested tuple.
#[cycle(put)]
pub(crate) fn put_tuple(out: &mut Vec<u8>, tuple: &Tuple, nested: bool) -> Result<(), AllocError>
    ensures ok { OnOk result (out.new.items ≡ out.old.items ++ spelled_in nested tuple.now) }
    ensures err { OnErr result (take (length out.old.items) out.new.items ≡ out.old.items) }
{
    for element in tuple.as_slice() {
        put_element(out, element, nested)?;
    }
    Ok(())
}

// An element, at the top or inside a nested tuple.
#[cycle(put)]
pub(crate) fn put_element(out: &mut Vec<u8>, element: &Elem, nested: bool) -> Result<(), AllocError>
    ensures ok { OnOk result (out.new.items ≡ out.old.items ++ spelled_in nested (before element.now Empty)) }
    ensures err { OnErr result (take (length out.old.items) out.new.items ≡ out.old.items) }
{
    match element {
        Elem::Null => out.extend_from_slice(null_bytes(nested)),
        Elem::Bytes(bytes) => put_string(out, 0x01, bytes.as_slice()),
        Elem::Text(text) => put_string(out, 0x02, text.as_bytes()),
        Elem::Nested(tuple) => put_nested(out, tuple),
        Elem::Int(number) => put_int(out, number.is_negative(), number.unsigned_abs()),
        Elem::Bool(value) => out.extend_from_slice(&[if *value { 0x27 } else { 0x26 }]),
        Elem::Uuid(bytes) => put_uuid(out, bytes),
        Elem::Stamp(stamp) => put_stamp(out, stamp),
    }
}

#[cycle(put)]
fn put_nested(out: &mut Vec<u8>, tuple: &Tuple) -> Result<(), AllocError>
    ensures ok { OnOk result (out.new.items ≡ out.old.items ++ 0x05 ∷ spelled_in true tuple.now ++ 0 ∷ []) }
    ensures err { OnErr result (take (length out.old.items) out.new.items ≡ out.old.items) }
{
    out.push(0x05)?;
    put_tuple(out, tuple, true)?;
    out.push(0x00)?;
    Ok(())
}

// Null: inside a nested tuple a FF follows its 00.
fn null_bytes(nested: bool) -> &'static [u8]
    ensures { result.now ≡ null_spelled nested }
{
    if nested { &[0x00, 0xFF] } else { &[0x00] }
}

// A code, and a byte string or the bytes of a text.
fn put_string(out: &mut Vec<u8>, code: u8, bytes: &[u8]) -> Result<(), AllocError>
    ensures ok { OnOk result (out.new.items ≡ out.old.items ++ code ∷ string_spelled bytes.now) }
    ensures err { OnErr result (take (length out.old.items) out.new.items ≡ out.old.items) }
{
    out.push(code)?;
    put_escaped(out, bytes)?;
    out.push(0x00)?;
    Ok(())
}

// A FF is put after each 00.
fn put_escaped(out: &mut Vec<u8>, bytes: &[u8]) -> Result<(), AllocError>
    ensures ok { OnOk result (out.new.items ≡ out.old.items ++ escaped bytes.now) }
    ensures err { OnErr result (take (length out.old.items) out.new.items ≡ out.old.items) }
{
    let mut rest = bytes;
    while let Some((run, after)) = split_at_zero(rest) {
        out.extend_from_slice(run)?;
        out.extend_from_slice(&[0x00, 0xFF])?;
        rest = after;
    }
    out.extend_from_slice(rest)
}

fn put_int(out: &mut Vec<u8>, negative: bool, magnitude: u128) -> Result<(), AllocError>
    ensures ok { OnOk result (out.new.items ≡ out.old.items ++ signed_spelled negative (least_bytes magnitude)) }
    ensures err { OnErr result (take (length out.old.items) out.new.items ≡ out.old.items) }
{
    let zeros = zero_bytes(magnitude);
    let bytes = signed_bytes(negative, magnitude);
    put_code(out, negative, (16 - zeros) as u8)?;
    out.extend_from_slice(&bytes[zeros..])
}

// The code of an integer whose magnitude has so many bytes; from 9 bytes on, their number follows the code.
fn put_code(out: &mut Vec<u8>, negative: bool, size: u8) -> Result<(), AllocError>
    requires { size ≤ 16 }
    ensures ok { OnOk result (out.new.items ≡ out.old.items ++ int_code negative size) }
    ensures err { OnErr result (take (length out.old.items) out.new.items ≡ out.old.items) }
{
    match (size <= 8, negative) {
        (true, false) => out.extend_from_slice(&[0x14 + size]),
        (true, true) => out.extend_from_slice(&[0x14 - size]),
        (false, false) => out.extend_from_slice(&[0x1D, size]),
        (false, true) => out.extend_from_slice(&[0x0B, 0xFF - size]),
    }
}

// All 16 bytes of the magnitude, as they are spelled.
fn signed_bytes(negative: bool, magnitude: u128) -> [u8; 16]
    ensures { result ≡ with_sign negative (to_be_bytes w128 magnitude) }
{
    if negative {
        (!magnitude).to_be_bytes()
    } else {
        magnitude.to_be_bytes()
    }
}

fn put_uuid(out: &mut Vec<u8>, bytes: &[u8; 16]) -> Result<(), AllocError>
    ensures ok { OnOk result (out.new.items ≡ out.old.items ++ 0x30 ∷ bytes.now) }
    ensures err { OnErr result (take (length out.old.items) out.new.items ≡ out.old.items) }
{
    out.push(0x30)?;
    out.extend_from_slice(bytes)
}

fn put_stamp(out: &mut Vec<u8>, stamp: &Versionstamp) -> Result<(), AllocError>
    ensures ok { OnOk result (out.new.items ≡ out.old.items ++ 0x33 ∷ stamp.now.stamp ++ to_be_bytes w16 stamp.now.user) }
    ensures err { OnErr result (take (length out.old.items) out.new.items ≡ out.old.items) }
{
    let mut user = [0; 2];
    BigEndian::write_u16(&mut user, stamp.user);
    out.push(0x33)?;
    out.extend_from_slice(&stamp.stamp)?;
    out.extend_from_slice(&user)
}
