//! Slices of a range, whole and by pages.

ghost use Rattle.std.specs.Prelude.{◌≡◌, ◌≤◌, ◌++◌, ◌-◌, true, false, IfOk, IfErr, take, length, nat_lt};
ghost use Rattle.model_database.specs.Modes.{lacks_limit};
ghost use Rattle.model_database.specs.Slices.{slice, span};
ghost use Rattle.range_read.specs.Left.{slice_behind, last_key};
ghost use Rattle.range_read.specs.Pages.{page_size, IsRefused};
ghost use Rattle.range_read.specs.Walks.{has_more};

use crate::fault::RangeFault;
use crate::mode::{lacks_limit, size_of_page};
use crate::paged::Page;
use crate::view::OrderedView;
use crate::walking::{first_inside, walk};
use key_bytes::{KeyRange, Pairs};
use model_database::RangeOptions;
use std::alloc::AllocError;

// Refuses a mode that wants a limit which is not there.
fn check(options: RangeOptions) -> Result<(), RangeFault>
    ensures ok { IfOk result (λ _. lacks_limit options.mode options.limit ≡ false) }
    ensures err { IfErr result (λ fault. (lacks_limit options.mode options.limit ≡ true) × IsRefused options fault) }
{
    if lacks_limit(options) {
        return Err(RangeFault::NoLimit);
    }
    Ok(())
}

// Whether a slice goes on behind a page of this size, which left this of the range.
fn goes_on<V: OrderedView>(
    view: &V,
    left: &KeyRange,
    options: RangeOptions,
    size: u32,
) -> Result<bool, AllocError>
    ensures { IfOk result (λ more. more
        ≡ has_more options.limit size (span (V.map view.now) left.now.begin left.now.end options.reverse)) }
{
    if options.limit == size {
        return Ok(false);
    }
    Ok(first_inside(view, left, options.reverse)?.is_some())
}

/// Returns the pairs of `range` that `view` has, in the order of their keys, or in the other order where
/// `options.reverse` holds; of these the first `options.limit`, or all where it is 0 (API reference of release 6.3,
/// "fdb_transaction_get_range"). There are none where the range's begin isn't less than its end. NoLimit
/// exactly where the mode is `Exact` and the limit is 0; else the mode changes nothing. NoMemory where memory
/// runs out.
pub fn all<V: OrderedView>(
    view: &V,
    range: &KeyRange,
    options: RangeOptions,
) -> Result<Pairs, RangeFault>
    ensures pairs { IfOk result (λ pairs. pairs
        ≡ slice (V.map view.now) range.now.begin range.now.end options.limit options.reverse) }
    ensures limited { IfOk result (λ _. lacks_limit options.mode options.limit ≡ false) }
    ensures refused { IfErr result (IsRefused options) }
{
    check(options)?;
    let taken = walk(view, range, options.limit, options.reverse)?;
    Ok(taken.pairs)
}

/// Returns the first page of the slice that `all` answers: its first pairs, as many as the options and
/// the turn say (`page_size`), or all where there are no more; and whether the slice has pairs behind these
/// (API reference of release 6.3, "fdb_transaction_get_range", streaming modes). Where more follow, the slice
/// is the page followed by the slice of what is left: from the key after the page's last key to the end, or in
/// reverse from the begin to the last key, with the limit less so many pairs. Turns are counted from 1. NoLimit
/// exactly where the mode is `Exact` and the limit is 0. NoMemory where memory runs out.
pub fn page<V: OrderedView>(
    view: &V,
    range: &KeyRange,
    options: RangeOptions,
    turn: u32,
) -> Result<Page, RangeFault>
    requires { 1 ≤ turn }
    ensures pairs { IfOk result (λ page. page.pairs
        ≡ take (page_size options.mode options.limit turn)
        (slice (V.map view.now) range.now.begin range.now.end options.limit options.reverse)) }
    ensures more { IfOk result (λ page. page.more
        ≡ nat_lt (page_size options.mode options.limit turn)
        (length (slice (V.map view.now) range.now.begin range.now.end options.limit options.reverse))) }
    ensures rest { IfOk result (λ page. page.more ≡ true
        → slice (V.map view.now) range.now.begin range.now.end options.limit options.reverse
        ≡ page.pairs ++ slice_behind (V.map view.now) range.now.begin range.now.end
        (options.limit - length page.pairs) options.reverse (last_key page.pairs)) }
    ensures limited { IfOk result (λ _. lacks_limit options.mode options.limit ≡ false) }
    ensures refused { IfErr result (IsRefused options) }
{
    check(options)?;
    let size = size_of_page(options, turn);
    let taken = walk(view, range, size, options.reverse)?;
    let more = goes_on(view, &taken.left, options, size)?;
    Ok(Page {
        pairs: taken.pairs,
        more,
    })
}
