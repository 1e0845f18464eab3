//! What lines of events say.

use key_bytes::{Key, Pair};
use lists::List;

/// What a line asks for.
#[derive(Debug, Drop)]
pub enum Event {
    /// Watch the value that this key has then.
    Watch(Key),
    /// Commit the removal of this key.
    Clear(Key),
    /// Commit this value of this key.
    Put(Pair),
}

/// Events, in the order of their lines.
pub type Events = List<Event>;
