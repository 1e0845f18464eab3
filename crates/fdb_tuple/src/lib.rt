//! Tuples, and their spelling as byte strings: the packed form of the tuple layer (tuple.md).
//!
//! A tuple is a list of elements: null, byte strings, Unicode strings, nested tuples, integers of 128 bits, booleans,
//! UUIDs and versionstamps. `pack` spells a tuple as a byte string; `unpack` reads such a spelling, and refuses every
//! other byte string by its first fault and its place. `cmp` is the order of tuples, which is that of their packed
//! bytes. The definitions: `specs/Tuples.antt` (tuples and their depth), `specs/Spelling.antt` (the bytes of each
//! element), `specs/Stops.antt` (faults), `specs/Order.antt` (the order), `specs/Stamps.antt` (the place of an
//! incomplete versionstamp).
#![tactic(auto)]

mod code;
mod fault;
mod lengths;
mod order;
mod packing;
mod piece;
mod places;
mod putting;
mod text;
mod tuple;
mod unpacking;
mod zeros;

pub use fault::{PushFault, StampPackFault, UnpackFault};
pub use lengths::packed_len;
pub use order::cmp;
pub use packing::{pack, pack_element, pack_element_into, pack_into, pack_with_stamp, range};
pub use text::Text;
pub use tuple::{Elem, Tuple, Versionstamp};
pub use unpacking::unpack;
