//! Taking pairs apart as text, one after the other.

ghost use Rattle.std.specs.Prelude.{◌≡◌, ℕ, List, ◌≤◌, length, Ok, Err, IfOk, IfErr};
ghost use Rattle.std.specs.List.{AllByRecursion};
ghost use Rattle.key_bytes.specs.Entries.{entries_of};
ghost use Rattle.instr_grammar.specs.Texts.{Section, AreSections, asm, text_of};
ghost use Rattle.instr_grammar.specs.Taking.{disassembled};
ghost use Rattle.instr_text.specs.Taken.{IsPairOfBytes, GivesText, IsFirstBad, Stops};

use crate::fault::DisFault;
use crate::taking::Taker;
use key_bytes::{Bytes, Pair, Pairs};
use std::alloc::Global;

// Takes all pairs apart.
fn take_all(alloc: Global, pairs: &Pairs) -> Result<Bytes, DisFault>
    requires { length pairs.now ≤ 1000000 }
    ensures { GivesText result (disassembled pairs.now) }
{
    let mut text = Vec::new(alloc);
    let mut taker = Taker::new(alloc);
    let mut line = 1;
    for pair in pairs.as_slice() {
        if !taker.step(&mut text, pair)? {
            return Err(DisFault::NotInstruction { line });
        }
        line += 1;
    }
    Ok(Bytes::from_vec(text)?)
}

// For proofs: contracts see keys and values whose bytes are numbers from 0 to 255. It does nothing when it runs.
fn shows_bytes(pairs: &[Pair])
    ensures { AllByRecursion IsPairOfBytes (entries_of pairs.now) }
{
    for pair in pairs {
        pair.key.shows_bytes();
        pair.value.shows_bytes();
    }
}

/// Takes pairs apart as the text that stands for them. An error is the first pair that can't follow those before it in
/// the pairs of any text, or that memory ran out.
pub fn disassemble(alloc: Global, pairs: &Pairs) -> Result<Bytes, DisFault>
    requires { length pairs.now ≤ 1000000 }
    // The text that comes out stands for the pairs.
    ensures found { IfOk result (λ text. (sections : List Section) × (AreSections sections × (pairs.now ≡ asm sections) × (text ≡ text_of sections))) }
    // The pairs of each list of sections are taken apart as their text, unless memory runs out.
    ensures only { (sections : List Section) → AreSections sections → pairs.now ≡ asm sections → GivesText result (Ok (text_of sections)) }
    // The pairs before the one that is refused are those of some text, and with it they are those of none.
    ensures stops { IfErr result (Stops pairs.now) }
    // Where there is such a pair, it is refused, unless memory runs out.
    ensures refused { (line : ℕ) → IsFirstBad pairs.now line → GivesText result (Err line) }
    // Which pair that is.
    ensures exact { GivesText result (disassembled pairs.now) }
{
    shows_bytes(pairs.as_slice());
    take_all(alloc, pairs)
}
