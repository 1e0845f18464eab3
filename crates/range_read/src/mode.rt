//! How many pairs a page of a streaming mode has.

ghost use Rattle.std.specs.Prelude.{◌≡◌, ◌<◌, ◌≤◌, ◌*◌, ◌^◌, ◌-◌, min};
ghost use Rattle.model_database.specs.Modes.{lacks_limit};
ghost use Rattle.range_read.specs.Pages.{capped, full_size, page_size};

use model_database::{Mode, RangeOptions};

/// Tells whether the mode of the options wants a limit that is not there: a read of a range is then refused with 2210
/// (API reference of release 6.3, "fdb_transaction_get_range", `EXACT`).
pub fn lacks_limit(options: RangeOptions) -> bool
    ensures { result ≡ lacks_limit options.mode options.limit }
{
    match options.mode {
        Mode::Exact => options.limit == 0,
        _ => false,
    }
}

// How many pairs a page of the mode Iterator has where there are enough.
fn iterator_size(turn: u32) -> u32
    requires { 1 ≤ turn }
    ensures { result ≡ min (16 * 2 ^ (turn - 1)) 4096 }
{
    match turn {
        0 | 1 => 16,
        2 => 32,
        3 => 64,
        4 => 128,
        5 => 256,
        6 => 512,
        7 => 1024,
        8 => 2048,
        _ => 4096,
    }
}

// The lesser of a size and the limit, where there is one.
fn cap(size: u32, limit: u32) -> u32
    ensures { result ≡ capped limit size }
{
    if limit != 0 && limit < size {
        limit
    } else {
        size
    }
}

// How many pairs a page has where there are enough.
pub(crate) fn size_of_page(options: RangeOptions, turn: u32) -> u32
    requires { 1 ≤ turn }
    ensures { result ≡ page_size options.mode options.limit turn }
{
    let limit = options.limit;
    match options.mode {
        Mode::Exact => limit,
        Mode::Small => cap(16, limit),
        Mode::Medium => cap(128, limit),
        Mode::Large => cap(1024, limit),
        Mode::Iterator => cap(iterator_size(turn), limit),
        Mode::WantAll | Mode::Serial => cap(4096, limit),
    }
}
