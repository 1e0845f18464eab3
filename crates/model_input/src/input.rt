//! What an input is.

use key_bytes::Pairs;
use lists::List;

/// Machines, whose requests were taken or are to be taken, in order, by their numbers.
pub type Order = List<u16>;

/// Which lines an input has.
#[derive(Clone, Copy, Debug, PartialEq, Eq)]
pub enum Form {
    /// Lines of pairs.
    Run,
    /// Lines of an order, then lines of pairs.
    Replay,
}

/// What an input says: the order that a replay is given, and the pairs.
#[derive(Debug, Drop)]
pub struct Input {
    pub order: Order,
    pub pairs: Pairs,
}
