//! A request that was read.

ghost use Rattle.std.specs.Prelude.{◌≡◌};

use fdb_calls::Request;
use std::marker::Model;

/// A request that was read. Contracts see the request.
pub struct Asked {
    request: Request,
}

// Written out, so that a caller's proof sees one call where it ends, and nothing of the request.
impl Drop for Asked {
    fn drop(self) {
        let Asked { request: _ } = self;
    }
}

impl Model for Asked {
    ghost use Rattle.fdb_calls.specs.declared.Request.{Request as RequestSaid};

    ghost Value = { RequestSaid };

    ghost view = { λ asked. asked.request };
}

impl Asked {
    /// Makes it of a request.
    pub fn new(request: Request) -> Asked
        ensures { result ≡ request }
    {
        Asked { request }
    }

    /// Returns the request.
    pub fn get(&self) -> &Request
        ensures { result.now ≡ self.now }
    {
        &self.request
    }
}
