//! Words that a list gives.

ghost use Rattle.std.specs.Prelude.{◌≡◌, ℕ, ◌+◌, [], slice_index, drop, IfOk, IsOk};

use crate::words::Words;
use std::alloc::{AllocError, Global};
use std::marker::Model;

/// The words of a list, and then 0 for ever. Contracts see the list of those that are left.
#[derive(Debug, Drop)]
pub struct ListWords {
    words: Vec<u32>,
    given: usize,
}

impl Model for ListWords {
    ghost use Rattle.std.specs.Prelude.{ℕ, ◌≤◌, List, length, drop};

    ghost Value = { List ℕ };

    ghost view = { λ w. drop w.given w.words.items };

    ghost invariant = { λ w. w.given ≤ length w.words.items };
}

impl ListWords {
    /// Makes a source of random words that gives `words`, and then 0 for ever. It keeps a copy of them, which
    /// is all the memory that it takes: over no words it takes none, and so never fails.
    pub fn new(alloc: Global, words: &[u32]) -> Result<ListWords, AllocError>
        ensures left { IfOk result (λ made. made ≡ words.now) }
        ensures to_come { IfOk result (λ made.
            (i : ℕ) → ⟦<ListWords as Words>⟧.words made i ≡ slice_index words.now i) }
        ensures empty { words.now ≡ [] → IsOk result }
    {
        let mut copy = Vec::new(alloc);
        copy.extend_from_slice(words)?;
        Ok(ListWords {
            words: copy,
            given: 0,
        })
    }
}

impl Words for ListWords {
    ghost words = { λ left i. slice_index left i };

    /// Returns the next word of the list, 0 after its end.
    fn next(&mut self) -> u32
        ensures word { result ≡ slice_index self.old 0 }
        ensures rest { (i : ℕ) → slice_index self.new i ≡ slice_index self.old (i + 1) }

        // Beyond what all random words promise: what is left.
        ensures after { self.new ≡ drop 1 self.old }
    {
        match self.words.get(self.given) {
            Some(word) => {
                self.given += 1;
                *word
            }
            None => 0,
        }
    }
}
