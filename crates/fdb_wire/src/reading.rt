//! Bytes as requests of a client.

ghost use Rattle.std.specs.Prelude.{◌≡◌, ◌≢◌, IfOk, IfErr};
ghost use Rattle.fdb_tuple.specs.Listed.{elements_of};
ghost use Rattle.fdb_wire.specs.Requests.{request_elements, request_bytes, IsClients, IsClientRequest};
ghost use Rattle.fdb_wire.specs.Refusals.{HasStray, Refuses, IsRead};
ghost use Rattle.fdb_wire.specs.Reading.{Gives, request_of};

use crate::elements::next_bytes;
use crate::fault::{Unread, WireFault};
use crate::rows::request_named;
use fdb_calls::Request;
use fdb_tuple::{Elem, Tuple, unpack};
use std::alloc::Global;

// Reads the request that elements spell.
#[tactic(auto, unfolding(crate::specs::Reading::request_of))]
fn request_of(elements: &[Elem]) -> Result<Request, Unread>
    ensures { Gives (λ request. request) result (request_of elements.now) }
{
    let (name, elements) = next_bytes(elements)?;
    request_named(name.as_slice(), elements)
}

// Reads the request that a tuple is.
fn request_in(tuple: &Tuple) -> Result<Request, WireFault>
    ensures found { IfOk result (λ request. IsClients request × (elements_of tuple.now ≡ request_elements request)) }
    ensures only { (request : Request) → IsClients request → elements_of tuple.now ≡ request_elements request → IsRead result request }
    ensures refused { IfErr result (λ fault. fault ≢ WireFault.NoMemory → HasStray (elements_of tuple.now) fault) }
{
    let elements = tuple.as_slice();
    match request_of(elements) {
        Ok(request) => Ok(request),
        Err(Unread::NoMemory) => Err(WireFault::NoMemory),
        Err(Unread::Stray(left)) => Err(WireFault::NoRequest(elements.len().saturating_sub(left))),
    }
}

/// Reads the request of a client that the bytes spell, all of them. Where they spell none it answers why: the fault of a tuple with
/// its place, or the place of the first element that no request has there.
pub fn read_request(alloc: Global, bytes: &[u8]) -> Result<Request, WireFault>
    // What is read is a request of a client, and is spelled so.
    ensures found { IfOk result (λ request. IsClientRequest request × (bytes.now ≡ request_bytes request)) }
    // A request of a client that is spelled so is read, unless memory runs out.
    ensures only { (request : Request) → IsClientRequest request → bytes.now ≡ request_bytes request → IsRead result request }
    // A fault is that of the bytes.
    ensures refused { IfErr result (λ fault. fault ≢ WireFault.NoMemory → Refuses bytes.now fault) }
{
    let tuple = unpack(alloc, bytes)?;
    request_in(&tuple)
}
