//! The first pairs of a range.

ghost use Rattle.std.specs.Prelude.{◌≡◌, [], IfOk};

use key_bytes::{KeyRange, Pairs};
use std::alloc::AllocError;

/// What a walk through a range took, and what it left of the range.
#[derive(Drop)]
pub struct Taken {
    /// The first pairs that the walk met, in the order in which it did.
    pub pairs: Pairs,
    /// The range without the keys up to the last of them.
    pub left: KeyRange,
}

impl Taken {
    /// Makes what takes no pair of a range, of which all is left.
    pub fn none(range: &KeyRange) -> Result<Taken, AllocError>
        ensures pairs { IfOk result (λ taken. taken.pairs ≡ []) }
        ensures left { IfOk result (λ taken. taken.left ≡ range.now) }
    {
        Ok(Taken {
            pairs: Pairs::new(range.begin.allocator()),
            left: KeyRange {
                begin: range.begin.copy()?,
                end: range.end.copy()?,
            },
        })
    }
}
