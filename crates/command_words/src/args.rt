//! The words of the command line.

ghost use Rattle.std.specs.Prelude.{◌≡◌, ◌==◌, ◌<◌, [], ◌∷◌, ◌++◌, Some, length, map, slice_get, IfOk, OnOk, OnErr};
ghost use Rattle.laws_commands.specs.Found.{EachUtf8};

use fdb_tuple::Text;
use std::alloc::{AllocError, Global};
use std::marker::Model;

/// The words after the program's name. Contracts see the list of their bytes.
#[derive(Debug, Drop)]
pub struct ArgWords {
    alloc: Global,
    words: Vec<Text>,
}

impl Model for ArgWords {
    ghost use Rattle.std.specs.Prelude.{ℕ, List};

    ghost Value = { List (List ℕ) };

    ghost view = { λ args. args.words.items };
}

impl ArgWords {
    /// Makes the list without a word.
    pub fn new(alloc: Global) -> ArgWords
        ensures { result ≡ [] }
    {
        ArgWords {
            alloc,
            words: Vec::new(alloc),
        }
    }

    /// Returns how many words there are.
    pub fn len(&self) -> usize
        ensures { result ≡ length self.now }
    {
        self.words.len()
    }

    /// Tells whether there is no word.
    pub fn is_empty(&self) -> bool
        ensures { result ≡ (length self.now == 0) }
    {
        self.words.is_empty()
    }

    /// Returns the word at place `i`.
    pub fn get(&self, i: usize) -> &Text
        requires { i < length self.now }
        ensures { slice_get self.now i ≡ Some result.now }
    {
        &self.words[i]
    }

    /// Adds a word at the end. After a refusal the words are unchanged.
    pub fn push(&mut self, word: &str) -> Result<(), AllocError>
        ensures ok { OnOk result (self.new ≡ self.old ++ word.now ∷ []) }
        ensures err { OnErr result (self.new ≡ self.old) }
    {
        self.words.push(Text::from_str(self.alloc, word)?)?;
        Ok(())
    }

    // The words as texts.
    pub(crate) fn texts(&self) -> Result<Vec<&str>, AllocError>
        ensures same { IfOk result (λ texts. map (λ text. text.now) texts.items ≡ self.now) }
        ensures utf8 { IfOk result (λ texts. EachUtf8 self.now) }
    {
        let mut texts = Vec::new(self.alloc);
        for word in &self.words {
            texts.push(word.as_str())?;
        }
        Ok(texts)
    }
}
