//! Reads of more than one key: key selectors, slices of a range, and pages of a slice, over any ordered view of a
//! database.
//!
//! A view answers the first pair from a key on, the last pair below a key, and the pairs that it comes to at once at the near
//! end of a range (`OrderedView`). From these alone
//! `resolve` answers the key that a selector means (`select`; `start_key` is where it begins to look), `all` the pairs of a range,
//! in order or reversed, up to a limit (`slice`; both are words of `model_database`), and `page` the first so many of these, and
//! whether more follow (`page_size`, in `specs/Pages.antt`). Where more follow, the slice is the page followed by the
//! slice of what is left, so pages that are read one behind another until no more follow are together the slice.
//!
//! The rules are those of the API reference of release 6.3: "Key selectors" for `resolve`, and
//! "fdb_transaction_get_range" for the rest. A selector is a key, `or_equal` and an offset: let c be how many keys are
//! less than the key, or are less than or equal to it where `or_equal` holds; it means the key at place
//! c - 1 + offset, counted from 0. Before the first place stands the empty key, behind the last one `FF`.
#![tactic(auto)]

mod fault;
mod mode;
mod paged;
mod reading;
mod resolving;
mod taken;
mod view;
mod walking;

pub use fault::RangeFault;
pub use mode::lacks_limit;
pub use model_database::{Mode, RangeOptions, Selector};
pub use paged::Page;
pub use reading::{all, page};
pub use resolving::{resolve, start_key};
pub use taken::Taken;
pub use view::OrderedView;
pub use walking::is_full;
