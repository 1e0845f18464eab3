//! A request in a block of its own, which can be shared.

ghost use Rattle.std.specs.Prelude.{◌≡◌, IfOk};

use crate::Request;
use std::alloc::{AllocError, Global};
use std::marker::Model;
use std::sync::Arc;

/// A request in a block of its own, so that what carries it is small. It can be shared: whoever lets go of it last gives the block
/// back. Contracts see the request.
#[derive(Debug)]
pub struct SharedRequest {
    request: Arc<Request, Global>,
}

// Written out, so that a caller's proof sees one call where it ends, and nothing of the request.
impl Drop for SharedRequest {
    fn drop(self) {
        let SharedRequest { request: _ } = self;
    }
}

impl Model for SharedRequest {
    ghost use Rattle.std.specs.Arc.{arc_value};
    ghost use Rattle.fdb_calls.specs.declared.Request.{Request as RequestSaid};

    ghost Value = { RequestSaid };

    ghost view = { λ shared. arc_value shared.request };
}

impl SharedRequest {
    /// Puts a request into a block that can be shared. It is refused for want of memory alone.
    pub fn new(alloc: Global, request: Request) -> Result<SharedRequest, AllocError>
        ensures { IfOk result (λ shared. shared ≡ request) }
    {
        let request = Arc::new(alloc, request)?;
        Ok(SharedRequest { request })
    }

    /// Returns one more share of the block. It is refused for want of memory alone.
    pub fn share(&self) -> Result<SharedRequest, AllocError>
        ensures { IfOk result (λ shared. shared ≡ self.now) }
    {
        let request = Arc::try_clone(&self.request)?;
        Ok(SharedRequest { request })
    }

    /// Returns the request.
    pub fn request(&self) -> &Request
        ensures { result.now ≡ self.now }
    {
        &self.request
    }
}
