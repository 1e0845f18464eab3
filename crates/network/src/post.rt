//! What goes over the line.

use fdb_calls::{Reply, SharedRequest};
use future_cell::{Setter, Wake};

/// What a machine posts. It is small: the request lies in a block of its own.
#[derive(Drop)]
pub enum Post {
    /// The machine asks. The reply is to be set in the cell of the setter.
    Ask {
        machine: u16,
        request: SharedRequest,
        setter: Setter<Reply, Wake>,
    },
    /// The machine is over: it asks no more.
    Over {
        machine: u16,
    },
}
