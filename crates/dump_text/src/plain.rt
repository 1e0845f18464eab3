//! Bytes that stand for themselves.

ghost use Rattle.std.specs.Prelude.{◌≡◌, ◌+◌, ◌≤◌, length, drop, map};
ghost use Rattle.std.specs.List.{prefix_len, take_while};
ghost use Rattle.std.specs.Simd.Lanes.{mask_l};
ghost use Rattle.model_lines.specs.Printing.{is_plain};
ghost use Rattle.dump_text.specs.Stops.{is_stop};

use std::simd::prelude::*;

/// Tells whether `byte` stands for itself.
#[inline(always)]
pub fn is_plain(byte: u8) -> bool
    ensures { result ≡ is_plain byte }
{
    byte >= 0x20 && byte < 0x7f && byte != b'\\'
}

// The bits of the places of the bytes that don't stand for themselves.
#[inline(always)]
fn stops_8(bytes: u8x8) -> u64
    ensures { result ≡ mask_l (map is_stop bytes) }
{
    ((bytes - u8x8::splat(0x20)).simd_ge(u8x8::splat(0x5f))
        | bytes.simd_eq(u8x8::splat(b'\\'))).to_bitmask()
}

// The same of sixteen bytes.
#[inline(always)]
fn stops_16(bytes: u8x16) -> u64
    ensures { result ≡ mask_l (map is_stop bytes) }
{
    ((bytes - u8x16::splat(0x20)).simd_ge(u8x16::splat(0x5f))
        | bytes.simd_eq(u8x16::splat(b'\\'))).to_bitmask()
}

/// Returns how many of the first sixteen bytes stand for themselves, up to the first that does not.
#[inline(always)]
pub fn plain_in_16(bytes: &[u8]) -> usize
    requires { 16 ≤ length bytes.now }
    ensures plain { result ≤ prefix_len is_plain bytes.now }
    ensures few { result ≤ 16 }
{
    let found = stops_16(u8x16::from_slice(bytes));
    if found == 0 {
        return 16;
    }
    found.trailing_zeros() as usize
}

/// Returns how many of the first eight bytes stand for themselves, up to the first that does not.
#[inline(always)]
pub fn plain_in_8(bytes: &[u8]) -> usize
    requires { 8 ≤ length bytes.now }
    ensures plain { result ≤ prefix_len is_plain bytes.now }
    ensures few { result ≤ 8 }
{
    let found = stops_8(u8x8::from_slice(bytes));
    if found == 0 {
        return 8;
    }
    found.trailing_zeros() as usize
}

// Where the run ends that goes on from `from`, one byte at a time.
#[inline(always)]
fn plain_end_slowly(bytes: &[u8], from: usize) -> usize
    requires { from ≤ length bytes.now }
    ensures { result ≡ from + prefix_len is_plain (drop from bytes.now) }
{
    let mut i = from;
    while i < bytes.len() && is_plain(bytes[i]) {
        i += 1;
    }
    i
}

// The same, where up to fifteen bytes are left.
#[inline(always)]
fn plain_end_8(bytes: &[u8], from: usize) -> usize
    requires { from ≤ length bytes.now }
    ensures { result ≡ from + prefix_len is_plain (drop from bytes.now) }
{
    if bytes.len() - from < 8 {
        return plain_end_slowly(bytes, from);
    }
    let found = stops_8(u8x8::from_slice(&bytes[from..]));
    if found != 0 {
        return from + found.trailing_zeros() as usize;
    }
    plain_end_slowly(bytes, from + 8)
}

// How many bytes at the front stand for themselves.
#[inline]
fn plain_len(bytes: &[u8]) -> usize
    ensures value { result ≡ prefix_len is_plain bytes.now }
    ensures within { result ≤ length bytes.now }
{
    let mut i = 0;
    while bytes.len() - i >= 16 {
        let found = stops_16(u8x16::from_slice(&bytes[i..]));
        if found != 0 {
            return i + found.trailing_zeros() as usize;
        }
        i += 16;
    }
    plain_end_8(bytes, i)
}

/// Returns the bytes at the front that stand for themselves, and all from the first that does not.
#[inline]
pub fn split_plain(bytes: &[u8]) -> (&[u8], &[u8])
    ensures front { result.0.now ≡ take_while is_plain bytes.now }
    ensures rest { result.1.now ≡ drop (prefix_len is_plain bytes.now) bytes.now }
{
    bytes.split_at(plain_len(bytes))
}
