//! What answers requests.

ghost use Rattle.std.specs.Prelude.{ℕ};
ghost use Rattle.fdb_calls.specs.declared.Request.{Request};
ghost use Rattle.fdb_calls.specs.declared.Reply.{Reply};
ghost use Rattle.future_cell.specs.declared.setter.Receipt.{Receipt};
ghost use Rattle.future_cell.specs.declared.wake.Wake.{Wake};

use fdb_calls::{Reply, Request};
use future_cell::{Receipt, Wake};

/// What answers the requests of machines, one after the other, out of a state that it keeps.
pub trait Service {
    // A request of a machine may be answered so from a state before to a state after.
    ghost answers: { Self → (machine : ℕ) → Request → Reply → Self → Type 0 };

    /// Answers a request of a machine. Want of memory is answered NoMemory.
    fn answer(&mut self, machine: u16, request: &Request) -> Reply
        ensures { answers self.old machine request.now result self.new };

    // A state before may come to a state after by such a receipt.
    ghost notes: { Self → Receipt Reply Wake → Self → Type 0 };

    /// Takes the receipt of a reply NoMemory that `serve` set without asking, since memory had run out.
    fn note_refused(&mut self, receipt: Receipt<Reply, Wake>)
        ensures { notes self.old receipt self.new };
}
