//! What is stored at the version of a view.

ghost use Rattle.std.specs.Prelude.{◌≡◌, true, false, None, option_copied, option_map};
ghost use Rattle.std.specs.FinMap as finite;
ghost use Rattle.std.specs.List.{filter};
ghost use Rattle.std.specs.Map.Iter.{deref_pair};
ghost use Rattle.key_bytes.specs.Keys.{key_le};
ghost use Rattle.ryw_view.specs.Views.{stored_of};
ghost use Rattle.ryw_view.specs.Walks.{inside_of, is_inside, stored_between, IsFirstMet};

use crate::view::View;
use key_bytes::{Bytes, Key};
use version_store::PairsLeft;

impl<'a> View<'a> {
    /// Returns the value that is stored under a key, if there is one.
    pub fn stored(&self, key: &Key) -> Option<&'a [u8]>
        ensures { option_copied result ≡ finite.get (stored_of self.now) key.now }
    {
        let store = self.store;
        match store.get_at(key, self.version) {
            Ok(value) => value,
            Err(_) => unreachable!(),
        }
    }

    /// Returns an iterator over the pairs that are stored from a key on, up to a boundary of the mutations where one is given, in
    /// the order of their keys. It takes one search of the store.
    pub fn stored_from(&self, from: &Key, boundary: Option<&Key>) -> PairsLeft<'a>
        ensures { result ≡ stored_between (stored_of self.now) from.now (option_copied boundary.entry) }
    {
        let store = self.store;
        let left = match boundary {
            None => store.pairs_from(from, self.version),
            Some(boundary) => store.pairs_in(from, boundary, self.version),
        };
        match left {
            Ok(left) => left,
            Err(_) => unreachable!(),
        }
    }

    // The first stored pair from a key on, up to the boundary of a segment.
    pub(crate) fn first_stored(
        &self,
        from: &Key,
        boundary: Option<&Key>,
    ) -> Option<(&'a Key, &'a Bytes)>
        ensures { IsFirstMet (stored_of self.now) from.now false (option_copied boundary.entry)
            (option_map deref_pair result) }
    {
        self.stored_from(from, boundary).next()
    }

    // The last stored pair below a key, down to the boundary of a segment.
    pub(crate) fn last_stored(
        &self,
        until: &Key,
        boundary: Option<&Key>,
    ) -> Option<(&'a Key, &'a Bytes)>
        ensures { IsFirstMet (stored_of self.now) until.now true (option_copied boundary.entry)
            (option_map deref_pair result) }
    {
        let store = self.store;
        match store.prev_at(until, self.version) {
            Ok(pair) => inside(pair, boundary, true),
            Err(_) => unreachable!(),
        }
    }
}

// A pair, where a walk that comes to it is still in the segment with this boundary.
fn inside<'a>(
    pair: Option<(&'a Key, &'a Bytes)>,
    boundary: Option<&Key>,
    reverse: bool,
) -> Option<(&'a Key, &'a Bytes)>
    ensures { option_map deref_pair result ≡ inside_of (option_copied boundary.entry) reverse (option_map deref_pair pair.entry) }
{
    let (key, value) = pair?;
    if is_inside(key, boundary, reverse) {
        Some((key, value))
    } else {
        None
    }
}

// Whether a walk that comes to a key is still in the segment with this boundary.
pub(crate) fn is_inside(key: &Key, boundary: Option<&Key>, reverse: bool) -> bool
    ensures { result ≡ is_inside (option_copied boundary.entry) reverse key.now }
{
    match boundary {
        None => true,
        Some(boundary) => key.cmp(boundary).is_lt() != reverse,
    }
}
