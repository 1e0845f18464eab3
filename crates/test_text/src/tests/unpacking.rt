//! Bytes that are no tuple. The faults were worked out by hand from the table of the tuple layer (tuple.md).

use UnpackFault::{BadCode, BadUtf8, NotMinimal, TooBig, TooDeep, Truncated};
use fdb_tuple::{UnpackFault, unpack};
use std::alloc::Global;

// Bytes with a fault in their first faulty element, and the fault.
const FAULTY: &[(&[u8], UnpackFault)] = &[
    // A string with no end; a 00 before a FF is none.
    (b"\x01a", Truncated(2)),
    (b"\x01\x00\xFF", Truncated(3)),
    (b"\x02\xFF", Truncated(2)),
    // Fewer bytes than the element has.
    (b"\x16\x00", Truncated(2)),
    (b"\x0C\x01\x02\x03\x04\x05\x06\x07", Truncated(8)),
    (b"\x1D", Truncated(1)),
    (b"\x0B\xF6\x01\x01\x01\x01\x01\x01\x01\x01", Truncated(10)),
    (b"\x30123456789012345", Truncated(16)),
    (b"\x331234567890u", Truncated(12)),
    (b"\x05\x01a\x00", Truncated(4)),
    (b"\x05\x05\x05\x00\x00", Truncated(5)),
    // A byte that is no code.
    (b"\x21\x00", BadCode(0)),
    (b"\x14\x32", BadCode(1)),
    (b"\x05\x05\x05\x26\xFF\x00\x00\x00", BadCode(4)),
    // A zero in front of a magnitude, and a long form of fewer than 9 bytes.
    (b"\x16\x00\x05", NotMinimal(0)),
    (b"\x13\xFF", NotMinimal(0)),
    (b"\x1D\x08\x01\x01\x01\x01\x01\x01\x01\x01", NotMinimal(0)),
    (
        b"\x0B\xF6\xFF\x01\x01\x01\x01\x01\x01\x01\x01",
        NotMinimal(0),
    ),
    // 2^128, 2^127 and -(2^127 + 1).
    (
        b"\x1D\x11\x01\x00\x00\x00\x00\x00\x00\x00\x00\x00\x00\x00\x00\x00\x00\x00\x00",
        TooBig(0),
    ),
    (
        b"\x1D\x10\x80\x00\x00\x00\x00\x00\x00\x00\x00\x00\x00\x00\x00\x00\x00\x00",
        TooBig(0),
    ),
    (
        b"\x14\x0B\xEF\x7F\xFF\xFF\xFF\xFF\xFF\xFF\xFF\xFF\xFF\xFF\xFF\xFF\xFF\xFF\xFE",
        TooBig(1),
    ),
    // A lone byte, one that is too long for its character, a surrogate, one past 10FFFF.
    (b"\x02\xFF\x00", BadUtf8(0)),
    (b"\x14\x02\xC0\x80\x00", BadUtf8(1)),
    (b"\x02\xED\xA0\x80\x00", BadUtf8(0)),
    (b"\x02\xF4\x90\x80\x80\x00", BadUtf8(0)),
];

// The fault of bytes, if they have one.
fn fault_of(alloc: Global, bytes: &[u8]) -> Option<UnpackFault> {
    unpack(alloc, bytes).err()
}

// The first row whose bytes have another fault, or none.
fn first_other_fault(alloc: Global) -> Option<usize> {
    for (place, (bytes, fault)) in FAULTY.iter().enumerate() {
        if fault_of(alloc, bytes) != Some(*fault) {
            return Some(place);
        }
    }
    None
}

// So many bytes 05, and as many 00.
fn opened(alloc: Global, depth: usize) -> Option<Vec<u8>> {
    let mut bytes = vec![in alloc; 0x05u8; depth].ok()?;
    let closed = vec![in alloc; 0x00u8; depth].ok()?;
    bytes.extend_from_slice(closed.as_slice()).ok()?;
    Some(bytes)
}

// How deep the tuple of these bytes is, or why there is none.
fn depth_of_opened(alloc: Global, depth: usize) -> Option<Result<u8, UnpackFault>> {
    let bytes = opened(alloc, depth)?;
    Some(match unpack(alloc, bytes.as_slice()) {
        Ok(tuple) => Ok(tuple.depth()),
        Err(fault) => Err(fault),
    })
}

#[test]
fn faults(rt: HostRuntime) {
    let alloc = rt.alloc();
    assert_eq!(rt; first_other_fault(alloc), None);
    assert_eq!(rt; depth_of_opened(alloc, 100), Some(Ok(100)));
    assert_eq!(rt; depth_of_opened(alloc, 101), Some(Err(TooDeep(100))));
}
