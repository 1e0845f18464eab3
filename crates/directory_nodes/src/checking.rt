//! The version of a layer.

ghost use Rattle.std.specs.Prelude.{◌≡◌, ◌+◌, ◌≤◌, length, take, drop, []};
ghost use Rattle.key_bytes.specs.Numbers.{number_low};
ghost use Rattle.model_directory.specs.Nodes.{version_numbers, is_newer};
ghost use Rattle.model_directory.specs.Steps.{version_read, check};
ghost use Rattle.directory_nodes.specs.Runs.{Follows, Tells};

use crate::calls::{set, value_of};
use crate::nodes::version_key;
use byteorder::{ByteOrder, LittleEndian};
use directory_types::{DirFault, Layer};
use fdb_calls::Tr;
use key_bytes::{Bytes, Key};

/// The version that is written here: 1, 0, 0, each as 4 bytes, the lowest first.
const VERSION_NOW: [u8; 12] = [1, 0, 0, 0, 0, 0, 0, 0, 0, 0, 0, 0];

/// Checks the version of a layer: whether its directories may be read, or written. The first call that writes notes the version.
pub fn check<T: Tr>(layer: &Layer, tr: &mut T, writes: bool, snapshot: bool) -> Result<(), DirFault>
    ensures follows { Follows result (T.Tr.stands tr.old) (T.Tr.stands tr.new) (check writes snapshot layer.now) }
    ensures same { T.Tr.same tr.old tr.new }
{
    let key = version_key(layer)?;
    match value_of(tr, &key, snapshot)? {
        Some(value) => check_version(key, &value, writes),
        None if writes => set(tr, &key, &VERSION_NOW),
        None => Ok(()),
    }
}

// Whether the version is one that is read here, or written.
fn check_version(key: Key, value: &Bytes, writes: bool) -> Result<(), DirFault>
    ensures { Tells result (version_read key writes value.now) }
{
    if value.len() != VERSION_NOW.len() {
        return Err(DirFault::BadNode { key });
    }
    let version = numbers_of(value.as_slice());
    if version[0] > 1 || writes && version[1] > 0 {
        return Err(DirFault::VersionNewer { version });
    }
    Ok(())
}

// The three numbers of a version.
fn numbers_of(value: &[u8]) -> [u32; 3]
    requires { length value.now ≡ 12 }
    ensures { result ≡ version_numbers value.now }
{
    [
        number_at(value, 0),
        number_at(value, 4),
        number_at(value, 8),
    ]
}

// The number of the 4 bytes at a place, the lowest first.
fn number_at(value: &[u8], place: usize) -> u32
    requires { place + 4 ≤ length value.now }
    ensures { result ≡ number_low (take 4 (drop place value.now)) }
{
    LittleEndian::read_u32(&value[place..place + 4])
}
