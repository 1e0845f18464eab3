//! The core as what answers the requests of machines.

use client_core::Core;
use fdb_calls::{Reply, Request};
use future_cell::{Receipt, Wake};
use network::Service;
use outside::PcgWords;

/// The core, and the random words still to come.
#[derive(Drop)]
pub struct CoreService {
    pub core: Core,
    pub words: PcgWords,
}

/// The most requests of one run: no memory holds a longer order.
const MOST_REQUESTS: u64 = 1 << 62;

impl Service for CoreService {
    ghost use Rattle.std.specs.Prelude.{◌≡◌};
    ghost use Rattle.core_service.specs.Serving.{CoreAnswers};

    ghost answers = { CoreAnswers };

    ghost notes = { λ before receipt after. after ≡ before };

    /// Answers a request by the step of the world. Past the most requests of a run it is answered as where memory is wanting.
    fn answer(&mut self, machine: u16, request: &Request) -> Reply {
        if self.core.applied() >= MOST_REQUESTS {
            return Reply::NoMemory;
        }
        self.core.apply(machine, request, &mut self.words)
    }

    /// Lets the receipt go: the run comes to no end then.
    fn note_refused(&mut self, _receipt: Receipt<Reply, Wake>) {}
}
