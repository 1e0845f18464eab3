//! Requests on a core, and the frames of their replies.

ghost use Rattle.std.specs.Prelude.{◌≡◌, ◌<◌, ◌≤◌, ◌+◌, ◌^◌, IfOk, OnOk};
ghost use Rattle.model_database.specs.declared.Api.{Api};
ghost use Rattle.model_machine.specs.Worlds.{World, step};
ghost use Rattle.fdb_wire.specs.Replies.{reply_bytes};
ghost use Rattle.fdb_serve.specs.Serving.{framed, serve_arguments, first_world};
ghost use Rattle.fdb_serve.specs.Standing.{Stands};

use client_core::Core;
use fdb_calls::{Reply, Request};
use fdb_wire::write_reply;
use key_bytes::{Bytes, Pairs};
use model_commands::RunArgs;
use model_database::Api;
use outside::PcgWords;
use std::alloc::{AllocError, Global};

// How many requests a core takes.
const REQUEST_LIMIT: u64 = 1 << 62;

/// A core, and its random words.
#[derive(Drop)]
pub struct Server {
    alloc: Global,
    core: Core,
    words: PcgWords,
}

// The arguments of the core of a server.
fn serve_arguments(alloc: Global, api: Api, window: Option<u32>) -> RunArgs
    ensures { result ≡ serve_arguments api window }
{
    RunArgs {
        prefix: Bytes::new(alloc),
        api,
        seed: 0,
        polls: 1,
        window,
    }
}

// The frame of bytes.
#[tactic(auto, unfolding(crate::specs::Serving::framed))]
fn frame_of(alloc: Global, bytes: &[u8]) -> Result<Vec<u8>, AllocError>
    ensures { IfOk result (λ frame. frame.items ≡ framed bytes.now) }
{
    let Ok(count) = u32::try_from(bytes.len()) else {
        return Err(AllocError);
    };
    let mut frame = Vec::with_capacity(alloc, bytes.len().saturating_add(4))?;
    frame.extend_from_slice(&count.to_be_bytes())?;
    frame.extend_from_slice(bytes)?;
    Ok(frame)
}

// The frame of a reply.
fn reply_frame(alloc: Global, reply: &Reply) -> Result<Vec<u8>, AllocError>
    ensures { IfOk result (λ frame. frame.items ≡ framed (reply_bytes reply.now)) }
{
    let mut bytes = Vec::new(alloc);
    write_reply(&mut bytes, reply)?;
    frame_of(alloc, bytes.as_slice())
}

impl Server {
    /// Loads a server whose core has no pairs.
    pub fn new(alloc: Global, api: Api, window: Option<u32>) -> Result<Server, AllocError>
        ensures stands { IfOk result (λ server. Stands server (first_world api window)) }
        ensures applied { IfOk result (λ server. server.core.applied ≡ 0) }
    {
        let arguments = serve_arguments(alloc, api, window);
        let words = PcgWords::new(arguments.seed);
        let core = Core::load(alloc, &arguments, Pairs::new(alloc))?;
        Ok(Server { alloc, core, words })
    }

    /// Returns how many requests were taken.
    pub fn applied(&self) -> u64
        ensures { result ≡ self.now.core.applied }
    {
        self.core.applied()
    }

    // Asks a request, and returns its reply.
    fn ask(&mut self, request: &Request) -> Result<Reply, AllocError>
        ensures stands { IfOk result (λ reply. (world : World) → Stands self.old world
            → ((step world request.now).reply ≡ reply) × Stands self.new (step world request.now).world) }
        ensures applied { OnOk result ((self.new.core.applied ≡ self.old.core.applied + 1) × (self.old.core.applied < 2 ^ 62)) }
        ensures few { self.old.core.applied ≤ 2 ^ 62 → self.new.core.applied ≤ 2 ^ 62 }
    {
        if self.core.applied() >= REQUEST_LIMIT {
            return Err(AllocError);
        }
        match self.core.apply(0, request, &mut self.words) {
            Reply::NoMemory => Err(AllocError),
            reply => Ok(reply),
        }
    }

    /// Asks a request, and returns the frame of its reply.
    pub fn answer(&mut self, request: &Request) -> Result<Vec<u8>, AllocError>
        ensures stands { IfOk result (λ frame. (world : World) → Stands self.old world
            → (frame.items ≡ framed (reply_bytes (step world request.now).reply)) × Stands self.new (step world request.now).world) }
        ensures applied { OnOk result ((self.new.core.applied ≡ self.old.core.applied + 1) × (self.old.core.applied < 2 ^ 62)) }
        ensures few { self.old.core.applied ≤ 2 ^ 62 → self.new.core.applied ≤ 2 ^ 62 }
    {
        let reply = self.ask(request)?;
        reply_frame(self.alloc, &reply)
    }
}
