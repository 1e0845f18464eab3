//! Whether keys are in a set.

use range_map::{Change, Spread};

// Whether the keys from a boundary up to the next one are in a set.
#[derive(Clone, Copy)]
pub(crate) struct Membership(pub(crate) bool);

// A new boundary gets what its key had.
impl Spread for Membership {
    ghost spread = { λ membership. membership };

    fn spread(&self) -> Membership {
        *self
    }
}

// Keys get this membership, whatever they had before.
impl Change<Membership> for Membership {
    ghost changed = { λ membership _. membership };

    fn change(&self, level: &mut Membership) {
        *level = *self;
    }
}
