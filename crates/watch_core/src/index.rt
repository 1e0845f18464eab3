//! The numbers of watches by their keys.

ghost use Rattle.std.specs.Prelude.{◌≡◌, ◌++◌, ◌∷◌, [], OnOk};
ghost use Rattle.watch_core.specs.Watches.{given, numbers_in, HasRoomAt};

use key_bytes::Key;
use key_map::KeyMap;
use std::alloc::{AllocError, Global};

/// Makes room for one more number under a key. The numbers stay, after a refusal too.
pub(crate) fn reserve_number(
    alloc: Global,
    index: &mut KeyMap<Vec<usize>>,
    key: &Key,
) -> Result<(), AllocError>
    ensures numbers { numbers_in index.new ≡ numbers_in index.old }
    ensures room { OnOk result (HasRoomAt index.new key.now) }
{
    index.insert_missing(key.copy()?, Vec::new(alloc))?;
    match index.get_mut(key) {
        Some(numbers) => numbers.reserve(1),
        None => unreachable!(),
    }
}

/// Adds a number under a key that has room for it.
pub(crate) fn push_number(index: &mut KeyMap<Vec<usize>>, key: &Key, number: usize)
    requires { HasRoomAt index.old key.now }
    ensures { numbers_in index.new ≡ given (numbers_in index.old) key.now (numbers_in index.old key.now ++ number ∷ []) }
{
    match index.get_mut(key) {
        Some(numbers) => numbers.push_reserved(number),
        None => unreachable!(),
    }
}
