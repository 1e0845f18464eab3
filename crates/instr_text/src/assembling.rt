//! Reading of a text, line after line.

ghost use Rattle.std.specs.Prelude.{◌≡◌, ℕ, List, ◌+◌, ◌-◌, ◌^◌, ◌<◌, ◌≤◌, length, Ok, IfOk};
ghost use Rattle.model_lines.specs.Reading.{size_of, lines_of};
ghost use Rattle.dump_text.specs.Reading.{Gives};
ghost use Rattle.dump_reading.specs.Seen.{line_is};
ghost use Rattle.instr_grammar.specs.Texts.{Section, IsTextOf, asm};
ghost use Rattle.instr_grammar.specs.Lines.{Place, is_too_many, read_line, assembled};
ghost use Rattle.instr_text.specs.Saying.{Says};
ghost use Rattle.instr_text.specs.Standing.{IsAt};

use crate::line::{Said, is_head, said_of};
use crate::sections::Sections;
use dump_reading::{DumpLine, LineFault, first_line};
use key_bytes::Pairs;
use std::alloc::Global;

// How many bytes a text may have.
const INPUT_LIMIT: usize = 67_108_864;

// How many bytes a line may have before its line feed.
const LINE_LIMIT: usize = 440_004;

// How many instructions a text may have.
const INSTRUCTIONS_LIMIT: usize = 1_000_000;

// Tells whether a line passes the limits of a text, where so many bytes stand before it.
fn is_too_many(sections: &Sections, bytes: usize, line: &DumpLine<'_>) -> bool
    requires { bytes + size_of (line_is line.now) < 2 ^ 64 }
    ensures { (place : Place) → IsAt sections.now place → bytes ≡ place.bytes → result ≡ is_too_many place (line_is line.now) }
{
    let end = bytes + line.bytes.len() + usize::from(line.is_whole);
    end > INPUT_LIMIT || !is_head(line.bytes) && sections.instructions >= INSTRUCTIONS_LIMIT
}

// Reads what a line says, where so many bytes stand before it, or returns its first fault.
#[tactic(auto, unfolding(instr_grammar::specs::Lines::read_line))]
fn read_line(
    alloc: Global,
    sections: &Sections,
    bytes: usize,
    line: &DumpLine<'_>,
) -> Result<Said, LineFault>
    requires { bytes + size_of (line_is line.now) < 2 ^ 64 }
    ensures { (place : Place) → IsAt sections.now place → bytes ≡ place.bytes → line.now.number ≡ place.number
        → Says result (read_line place (line_is line.now)) }
{
    if is_too_many(sections, bytes, line) {
        return Err(LineFault::TooMany { line: line.number });
    }
    if line.bytes.len() > LINE_LIMIT {
        return Err(LineFault::TooLong { line: line.number });
    }
    said_of(alloc, sections, line)
}

// Reads all lines of a text.
fn read_all(alloc: Global, text: &[u8]) -> Result<Pairs, LineFault>
    ensures { Gives (λ pairs. pairs) result (assembled text.now) }
{
    let mut pairs = Pairs::new(alloc);
    let mut sections = Sections::new(alloc);
    let mut number = 1;
    let mut left = text;
    while !left.is_empty() {
        let (line, rest) = first_line(number, left);
        let said = read_line(alloc, &sections, text.len() - left.len(), &line)?;
        sections.take(&mut pairs, said)?;
        left = rest;
        number += 1;
    }
    if sections.is_waiting() {
        return Err(LineFault::BadLine {
            line: number,
            place: 0,
        });
    }
    Ok(pairs)
}

/// Assembles a text: returns the pairs that it stands for, in the order of the text. An error is the first fault of the
/// text, with its line and its place, or that memory ran out.
pub fn assemble(alloc: Global, text: &[u8]) -> Result<Pairs, LineFault>
    // What is assembled is in the grammar, and the pairs are those that it stands for.
    ensures found { IfOk result (λ pairs. (sections : List Section) × (IsTextOf text.now sections × (pairs ≡ asm sections))) }
    // Each text in the grammar is assembled, unless memory runs out.
    ensures only { (sections : List Section) → IsTextOf text.now sections → Gives (λ pairs. pairs) result (Ok (asm sections)) }
    // Which fault it is.
    ensures exact { Gives (λ pairs. pairs) result (assembled text.now) }
{
    read_all(alloc, text)
}
