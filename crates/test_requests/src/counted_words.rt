//! Random words that are counted.

ghost use Rattle.std.specs.Prelude.{slice_index};

use outside::{ListWords, Words};
use std::alloc::{AllocError, Global};

/// The words of a list, and then 0 for ever, and how many of them were drawn.
#[derive(Drop)]
pub struct CountedWords {
    words: ListWords,
    pub drawn: u64,
}

impl CountedWords {
    /// Makes a source of these words, before any was drawn.
    pub fn new(alloc: Global, words: &[u32]) -> Result<CountedWords, AllocError> {
        Ok(CountedWords {
            words: ListWords::new(alloc, words)?,
            drawn: 0,
        })
    }
}

impl Words for CountedWords {
    ghost words = { λ counted place. slice_index counted.words place };

    fn next(&mut self) -> u32 {
        self.drawn = self.drawn.saturating_add(1);
        self.words.next()
    }
}
