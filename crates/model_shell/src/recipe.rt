//! The calls of layers that a line may be.

use key_bytes::Bytes;

/// A call of a layer (`recipe_layers`), with the name of the queue, the map of counts or the byte string that it is on.
#[derive(Debug, Drop)]
pub enum Recipe {
    /// Adds an item at the end of a queue.
    Push {
        queue: Bytes,
        value: Bytes,
    },
    /// Takes the first item from a queue.
    Pop {
        queue: Bytes,
    },
    /// Adds one to the count of a pair.
    Add {
        multi: Bytes,
        key: Bytes,
        value: Bytes,
    },
    /// Takes one from the count of a pair.
    Subtract {
        multi: Bytes,
        key: Bytes,
        value: Bytes,
    },
    /// Reads the values of a key with their counts.
    Values {
        multi: Bytes,
        key: Bytes,
    },
    /// Replaces bytes of a byte string from a place on.
    Write {
        blob: Bytes,
        at: u64,
        piece: Bytes,
    },
    /// Reads the bytes of a byte string from a place on, so many at most.
    Read {
        blob: Bytes,
        from: u64,
        most: u32,
    },
    /// Reads how many bytes a byte string has.
    Size {
        blob: Bytes,
    },
}

impl Recipe {
    ghost use Rattle.std.specs.Prelude.{◌≡◌};
    ghost use Rattle.model_shell.specs.Recipes.{is_writing};

    /// Tells whether the call is one that writes.
    pub fn is_writing(&self) -> bool
        ensures { result ≡ is_writing self.now }
    {
        match self {
            Recipe::Push { .. }
            | Recipe::Pop { .. }
            | Recipe::Add { .. }
            | Recipe::Subtract { .. }
            | Recipe::Write { .. } => true,
            Recipe::Values { .. } | Recipe::Read { .. } | Recipe::Size { .. } => false,
        }
    }
}
