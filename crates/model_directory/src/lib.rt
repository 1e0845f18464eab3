//! Directories in definitions: what each call of a directory layer does to its transaction, step by step, and what it answers.
//!
//! `specs/Courses.antt` has a call's steps as a tree, and what a tree makes of a transaction, each step by the calls' own
//! definitions; `specs/Nodes.antt` the keys of a layer and what they say; `specs/Steps.antt` the steps that calls share; and
//! `specs/Calls.antt` each call. The types are those that these steps speak of.
#![tactic(auto)]

ghost use Rattle.std.specs.Prelude.{◌≡◌};
ghost use Rattle.model_directory.specs.Nodes.{is_partition};

use fdb_tuple::Text;
use key_bytes::Bytes;

/// The layer name of a partition.
const PARTITION: &[u8] = b"partition";

/// Returns whether a directory with this layer name is a partition: a directory layer of its own.
pub fn is_partition(layer_name: &Bytes) -> bool
    ensures { result ≡ is_partition layer_name.now }
{
    layer_name.as_slice() == PARTITION
}

/// A directory that was found: the prefix of its contents, and its layer name.
#[derive(Debug, Drop)]
pub struct Directory {
    pub prefix: Bytes,
    pub layer: Bytes,
}

/// What a call checks in a layer before it looks for a path there.
#[derive(Clone, Copy, Debug, PartialEq, Eq)]
pub struct Lookup {
    /// The version must be one that may be written.
    pub writes: bool,
    pub snapshot: bool,
    /// A prefix is given.
    pub has_prefix: bool,
    /// The root may be meant.
    pub may_be_root: bool,
}

/// A directory right below another one: its name, and the prefix of its contents.
#[derive(Debug, Drop)]
pub struct Child {
    pub name: Text,
    pub prefix: Bytes,
}

/// What a call that makes or opens a directory may do.
#[derive(Clone, Copy, Debug, PartialEq, Eq)]
pub struct OpenOptions {
    pub may_create: bool,
    pub may_open: bool,
    /// Its reads are by snapshot.
    pub snapshot: bool,
}
