//! What a word of the shell's lines spells, by relations that name no reader: the words of a line are what stands between its
//! spaces, a token is the one spelling of its bytes, and a number its decimal digits.
//!
//! `model_shell` says how words are read, from left to right. `specs/Words.antt` says of which bytes, tokens and numbers that is.
//! These are laws of the definitions, proved once.
#![tactic(auto)]

ghost use Rattle.laws_shell.specs.Words.{AreNumbersTold, AreSpelledOnce, AreTokensTold, AreWordsTold};

/// Shows to a proof that words are read exactly where they stand between spaces, and as bytes or a number exactly where they
/// are the token of these bytes or the number's decimal digits. It does nothing when it runs.
pub fn words_spell_tokens_and_numbers()
    ensures words { AreWordsTold }
    ensures tokens { AreTokensTold }
    ensures once { AreSpelledOnce }
    ensures numbers { AreNumbersTold }
{}
