//! The start that the greatest key of counters says.

ghost use Rattle.std.specs.Prelude.{◌≡◌, ◌≤◌, ◌<◌, length, reverse, IfOk, MatchOption};
ghost use Rattle.key_bytes.specs.Numbers.{number_low};
ghost use Rattle.model_allocator.specs.Counters.{counter_in};
ghost use Rattle.prefix_allocator.specs.Keyed.{Starts};

use crate::fault::AllocFault;
use crate::keys::AllocatorKeys;
use key_bytes::Key;
use model_allocator::GREATEST_COUNTER;
use std::alloc::AllocError;

/// The start that the greatest key of the counters says: without one it is 0.
pub(crate) fn start_of(keys: &AllocatorKeys, greatest: Option<Key>) -> Result<u64, AllocFault>
    ensures { Starts result keys.now.space greatest }
{
    let Some(key) = greatest else {
        return Ok(0);
    };
    match counter_of(keys, &key)? {
        Some(start) => Ok(start),
        None => Err(AllocFault::BadCounter { key }),
    }
}

// The number at which the counter of a key stands: that of the digits behind the code, where the key is that number's own.
fn counter_of(keys: &AllocatorKeys, key: &Key) -> Result<Option<u64>, AllocError>
    ensures { IfOk result (λ start. start ≡ counter_in keys.now.space key.now) }
{
    let Some(number) = number_of(keys.digits_in(key)) else {
        return Ok(None);
    };
    if number > GREATEST_COUNTER || *key != keys.counter(number)? {
        return Ok(None);
    }
    Ok(Some(number))
}

// The number of these bytes, the highest first, where they are at most eight.
fn number_of(digits: &[u8]) -> Option<u64>
    ensures { MatchOption result (8 < length digits.now) (λ number. number ≡ number_low (reverse digits.now)) }
{
    if digits.len() > 8 {
        return None;
    }
    Some(few_digits(digits))
}

fn few_digits(digits: &[u8]) -> u64
    requires { length digits.now ≤ 8 }
    ensures { result ≡ number_low (reverse digits.now) }
{
    let mut number = 0;
    for digit in digits {
        number = 256 * number + u64::from(*digit);
    }
    number
}
