//! A machine in its thread that can't go on.

use std::alloc::AllocError;

/// That a machine in its thread can't go on: memory was wanting; a reply that doesn't fit what was asked, which no core gives, is dealt
/// with alike. Where a reply to it said that a machine was started, and that one isn't run,
/// `owed` is its number: its Over is still to be posted.
#[derive(Clone, Copy, Debug)]
pub struct Refused {
    pub owed: Option<u16>,
}

impl From<AllocError> for Refused {
    ghost use Rattle.std.specs.Prelude.{◌≡◌, None};

    ghost from_gives = { λ _ refused. refused.owed ≡ None };

    fn from(_e: AllocError) -> Refused {
        Refused { owed: None }
    }
}
