//! The requests of a source, frame by frame.

ghost use Rattle.std.specs.Prelude.{◌≡◌, ◌≤◌, length, Err};
ghost use Rattle.std.specs.Int.{w32, to_be_bytes};
ghost use Rattle.outside.specs.Counts.{Rose};
ghost use Rattle.fdb_serve.specs.Endings.{IsNext, IsBody, IsRest, IsEnd};

use crate::asked::Asked;
use crate::halt::{Flaw, Halt};
use byteorder::{BigEndian, ByteOrder};
use fdb_calls::Request;
use fdb_wire::{WireFault, read_request};
use outside::{ReadOutcome, Source, read_all};
use std::alloc::Global;

/// How many bytes a request may have.
pub const FRAME_LIMIT: u32 = 16_777_216;

// The request that the bytes of a frame spell.
fn request_in(alloc: Global, bytes: &[u8]) -> Result<Request, Halt>
    ensures { IsBody result bytes.now }
{
    match read_request(alloc, bytes) {
        Ok(request) => Ok(request),
        Err(WireFault::NoMemory) => Err(Halt::NoMemory),
        Err(_) => Err(Halt::Bad(Flaw::NoRequest)),
    }
}

// The request of a frame, behind the number of its bytes.
fn next_body<S: Source>(alloc: Global, source: &mut S, count: u32) -> Result<Request, Halt>
    ensures rest { IsRest result count (S.left source.old) (S.left source.new) }
    ensures later { S.faults source.old ≤ S.faults source.new }
    ensures cause { result ≡ Err Halt.Read → Rose (S.faults source.old) (S.faults source.new) }
{
    if count > FRAME_LIMIT {
        return Err(Halt::Bad(Flaw::TooLong));
    }
    match read_all(alloc, source, count as usize) {
        ReadOutcome::Full(bytes) => request_in(alloc, bytes.as_slice()),
        ReadOutcome::Whole(_) => Err(Halt::Bad(Flaw::CutShort)),
        ReadOutcome::Failed => Err(Halt::Read),
        ReadOutcome::NoMemory => Err(Halt::NoMemory),
    }
}

// The number that 4 bytes write, the highest first.
fn count_of(bytes: &[u8]) -> u32
    requires { length bytes.now ≡ 4 }
    ensures { to_be_bytes w32 result ≡ bytes.now }
{
    BigEndian::read_u32(bytes)
}

// The end of the source, behind these of the first 4 bytes of a frame.
fn at_end(bytes: &[u8]) -> Result<Option<Asked>, Halt>
    ensures { IsEnd result bytes.now }
{
    if bytes.is_empty() {
        Ok(None)
    } else {
        Err(Halt::Bad(Flaw::CutShort))
    }
}

/// Reads the next request; None at the end of the source.
pub fn next_request<S: Source>(alloc: Global, source: &mut S) -> Result<Option<Asked>, Halt>
    ensures next { IsNext result (S.left source.old) (S.left source.new) }
    ensures later { S.faults source.old ≤ S.faults source.new }
    ensures cause { result ≡ Err Halt.Read → Rose (S.faults source.old) (S.faults source.new) }
{
    match read_all(alloc, source, 4) {
        ReadOutcome::Full(bytes) => {
            let count = count_of(bytes.as_slice());
            let request = next_body(alloc, source, count)?;
            Ok(Some(Asked::new(request)))
        }
        ReadOutcome::Whole(bytes) => at_end(bytes.as_slice()),
        ReadOutcome::Failed => Err(Halt::Read),
        ReadOutcome::NoMemory => Err(Halt::NoMemory),
    }
}
