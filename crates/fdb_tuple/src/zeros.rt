//! The first 00 of a byte string.

ghost use Rattle.std.specs.Prelude.{◌≡◌, ◌∷◌, ◌++◌, MatchOption};
ghost use Rattle.fdb_tuple.specs.Zeros.{HasNoZero};

use memchr::memchr;

// The bytes before the first 00, and those after it; None where there is no 00.
pub(crate) fn split_at_zero(bytes: &[u8]) -> Option<(&[u8], &[u8])>
    ensures { MatchOption result (HasNoZero bytes.now)
        (λ parts. HasNoZero parts.0.now × (bytes.now ≡ parts.0.now ++ 0 ∷ parts.1.now)) }
{
    let at = memchr(0, bytes)?;
    let (run, rest) = bytes.split_at(at);
    Some((run, &rest[1..]))
}
