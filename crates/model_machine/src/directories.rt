//! What a machine's list of directories holds, and the operations on it (directoryLayerTester.md).

use directory_types::{Layer, Path};
use key_bytes::Bytes;

/// What stands at a place of a machine's list of directories.
#[derive(Debug, Drop)]
pub enum Object {
    /// A layer. It can be asked for directories.
    Layer(Layer),
    /// A directory, as it was opened. Its layer can be asked for directories below it, and it is a subspace.
    Directory {
        layer: Layer,
        path: Path,
        prefix: Bytes,
        layer_name: Bytes,
    },
    /// A subspace: what its keys begin with.
    Subspace {
        prefix: Bytes,
    },
    /// Nothing: an operation that was to append an object had a fault.
    Null,
}

/// An operation on a machine's list of directories (directoryLayerTester.md). Some ask the layer of the current object, and some of
/// these have more forms than one.
#[derive(Clone, Copy, Debug, PartialEq, Eq)]
pub enum DirectoryOperation {
    /// Pops a tuple and a prefix, and appends the subspace of the prefix followed by the packed tuple.
    CreateSubspace,
    /// Pops two indices and whether prefixes may be given, and appends the layer whose nodes and contents stand in these subspaces.
    CreateLayer,
    /// Pops a path and a layer name, and appends the directory, which is made where it is missing.
    CreateOrOpen,
    /// Pops a path, a layer name and a prefix, and appends the directory that is made.
    Create,
    /// Pops a path and a layer name, and appends the directory.
    Open,
    /// Pops an index, which is that of the current object from then on.
    Change,
    /// Pops an index, which is taken in place of that of a null object from then on.
    SetErrorIndex,
    /// Pops two paths, moves the directory of the first to the second, and appends it.
    Move,
    /// Pops a path from the root on, moves the current directory there, and appends it.
    MoveTo,
    /// Removes the current directory, or that of a path below it, with all that lies below.
    Remove,
    /// The same where there is such a directory.
    RemoveIfExists,
    /// Pushes the names of the directories right below.
    List,
    /// Pushes whether there is such a directory.
    Exists,
    /// Pops a tuple, and pushes its key in the current subspace.
    PackKey,
    /// Pops a key, and pushes the elements of the tuple whose key it is in the current subspace.
    UnpackKey,
    /// Pops a tuple, and pushes the two ends of its range in the current subspace.
    Range,
    /// Pops a key, and pushes whether it begins with the current prefix.
    Contains,
    /// Pops a tuple, and appends the subspace of its key.
    OpenSubspace,
    /// Pops a prefix, and writes the current prefix behind it and the index of the current object.
    LogSubspace,
    /// Pops a prefix, and notes the current directory behind it and its index.
    LogDirectory,
    /// Pops a key, and pushes it without the current prefix.
    StripPrefix,
}
