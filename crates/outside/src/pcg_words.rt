//! Words of a seed.

ghost use Rattle.std.specs.Prelude.{◌≡◌, ℕ, ◌+◌};
ghost use Rattle.outside.specs.Seeds.{generator_of, words_from, words_of_seed};

use crate::words::Words;
use rand_pcg::Pcg32;
use rand_pcg::rand_core::SeedableRng;
use rand_pcg::rand_core::utils::NextWord;
use std::marker::Model;

/// The words of the generator PCG XSH RR 64/32 from a seed. Contracts see the state of the generator.
#[derive(Debug, Drop)]
pub struct PcgWords {
    generator: Pcg32,
}

impl Model for PcgWords {
    ghost use Rattle.rand_pcg.specs.Lcg.{Lcg};

    ghost Value = { Lcg };

    ghost view = { λ words. words.generator };
}

impl PcgWords {
    /// Makes the source of the random words of a seed.
    pub fn new(seed: u64) -> PcgWords
        ensures begins { result ≡ generator_of seed }
        ensures to_come { (i : ℕ) → ⟦<PcgWords as Words>⟧.words result i ≡ words_of_seed seed i }
    {
        PcgWords {
            generator: Pcg32::seed_from_u64(seed),
        }
    }
}

impl Words for PcgWords {
    ghost words = { λ generator i. words_from generator i };

    /// Returns the next word of the seed.
    fn next(&mut self) -> u32
        ensures word { result ≡ words_from self.old 0 }
        ensures rest { (i : ℕ) → words_from self.new i ≡ words_from self.old (i + 1) }
    {
        self.generator.next_word()
    }
}
