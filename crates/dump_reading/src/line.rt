//! Reading of a line of a dump.

ghost use Rattle.std.specs.Prelude.{◌≡◌, ◌^◌, ◌<◌, ◌≤◌, ℕ, List, [], ◌∷◌, Result, Ok, length};
ghost use Rattle.model_lines.specs.Reading.{line_limit, lines_of, pair_at, is_pair};
ghost use Rattle.dump_text.specs.declared.line.Line.{Line};
ghost use Rattle.dump_text.specs.Reading.{Gives};
ghost use Rattle.dump_reading.specs.FieldAnswers as fields;
ghost use Rattle.dump_reading.specs.Dumps.{machine_fields, item_fields, error_fields, order_up_to, order_fields, rank_of, placed, with_pair, value_at, judged};
ghost use Rattle.dump_reading.specs.Seen.{line_is};

use crate::field::{
    FieldFault, end_field, machine_field, number_field, ordered_machine_field, text_field,
    word_field,
};
use dump_text::{Form, Line, LineFault, read_lines};
use key_bytes::Pairs;
use std::alloc::Global;

/// A line of a dump: its bytes without its line feed, whether that is there, and the line as it stands.
#[derive(Clone, Copy)]
pub struct DumpLine<'a> {
    pub number: u32,
    pub bytes: &'a [u8],
    pub is_whole: bool,
    pub spelled: &'a [u8],
}

impl DumpLine<'_> {
    /// Tells whether the line is of a pair, which its first byte tells.
    pub fn is_pair(&self) -> bool
        ensures { result ≡ is_pair self.now.bytes.now }
    {
        matches!(self.bytes, [b'K', ..])
    }

    /// Returns the fault that the byte at this place fits no rule.
    pub fn bad_at(&self, place: usize) -> LineFault
        requires { place < 2 ^ 32 }
        ensures { result ≡ LineFault.BadLine self.now.number place }
    {
        LineFault::BadLine {
            line: self.number,
            place: place as u32,
        }
    }
}

/// Returns the rank of a line's kind in the order of a dump, which its first byte tells; 5 where it names none.
pub fn rank_of(line: &[u8]) -> u8
    ensures { result ≡ rank_of line.now }
{
    match line {
        [b'M', ..] => 0,
        [b'S', ..] => 1,
        [b'E', ..] => 2,
        [b'O', ..] => 3,
        [b'K', ..] => 4,
        _ => 5,
    }
}

// The fields of how a machine ended.
#[tactic(auto, unfolding(crate::specs::Dumps::machine_fields))]
fn machine_fields(alloc: Global, bytes: &[u8]) -> Result<Line, FieldFault>
    ensures { fields.Gives (λ value. value) result (machine_fields bytes.now) }
{
    let (machine, rest) = machine_field(bytes)?;
    let (end, rest) = end_field(rest)?;
    let (number, rest) = number_field(rest)?;
    let prefix = text_field(alloc, rest)?;
    Ok(Line::M {
        machine,
        end,
        number,
        prefix,
    })
}

// The fields of an item of a stack.
#[tactic(auto, unfolding(crate::specs::Dumps::item_fields))]
fn item_fields(alloc: Global, bytes: &[u8]) -> Result<Line, FieldFault>
    ensures { fields.Gives (λ value. value) result (item_fields bytes.now) }
{
    let (machine, rest) = machine_field(bytes)?;
    let (place, rest) = number_field(rest)?;
    let (instruction, rest) = number_field(rest)?;
    let bytes = text_field(alloc, rest)?;
    Ok(Line::S {
        machine,
        place,
        instruction,
        bytes,
    })
}

// The fields of an error.
#[tactic(auto, unfolding(crate::specs::Dumps::error_fields))]
fn error_fields(alloc: Global, bytes: &[u8]) -> Result<Line, FieldFault>
    ensures { fields.Gives (λ value. value) result (error_fields bytes.now) }
{
    let (machine, rest) = machine_field(bytes)?;
    let (instruction, rest) = number_field(rest)?;
    let word = word_field(alloc, rest)?;
    Ok(Line::E {
        machine,
        instruction,
        word,
    })
}

// The field of a place of the order.
#[tactic(auto, unfolding(crate::specs::Dumps::order_fields))]
fn order_fields(bytes: &[u8]) -> Result<Line, FieldFault>
    ensures { fields.Gives (λ value. value) result (order_fields bytes.now) }
{
    let (machine, rest) = ordered_machine_field(bytes)?;
    if !rest.is_empty() {
        return Err(FieldFault::Bad(rest.len()));
    }
    Ok(Line::O { machine })
}

// What the fields of a line come to, where they were read up to its end: the line feed stands behind them.
fn placed(line: &DumpLine<'_>, read: Result<Line, FieldFault>) -> Result<Line, LineFault>
    requires { length line.now.bytes.now ≤ line_limit }
    ensures { (reading : Result Line ℕ) → fields.Gives (λ value. value) read reading
        → Gives (λ value. value) result (judged line.now.number (placed (line_is line.now) reading)) }
{
    match read {
        Ok(value) if line.is_whole => Ok(value),
        Ok(_) => Err(line.bad_at(line.bytes.len())),
        Err(FieldFault::Bad(left)) => Err(line.bad_at(line.bytes.len().saturating_sub(left))),
        Err(FieldFault::NoMemory) => Err(LineFault::NoMemory),
    }
}

// The line of the one pair of an input.
fn only_pair(pairs: Pairs) -> Result<Line, LineFault>
    ensures { (key value : List ℕ) → pairs ≡ (key, value) ∷ []
        → Gives (λ line. line) result (Ok (Line.K key value)) }
{
    let mut pairs = pairs.into_vec();
    match pairs.pop() {
        Some(pair) => Ok(Line::K {
            key: pair.key,
            value: pair.value,
        }),
        None => Err(LineFault::NoMemory),
    }
}

// The line of a pair, read as an input of this one line.
fn pair_of(alloc: Global, line: &DumpLine<'_>) -> Result<Line, LineFault>
    requires limit { length line.now.bytes.now ≤ line_limit }
    requires stands { lines_of line.now.spelled.now ≡ line_is line.now ∷ [] }
    ensures { Gives (λ value. value) result
        (judged line.now.number (with_pair (pair_at (line_is line.now) line.now.bytes.now))) }
{
    match read_lines(alloc, line.spelled, Form::Run) {
        Ok(input) => only_pair(input.pairs),
        Err(LineFault::BadLine { line: _, place }) => Err(LineFault::BadLine {
            line: line.number,
            place,
        }),
        Err(LineFault::TooLong { line: _ }) => Err(LineFault::TooLong { line: line.number }),
        Err(LineFault::TooMany { line: _ }) => Err(LineFault::TooMany { line: line.number }),
        Err(LineFault::NoMemory) => Err(LineFault::NoMemory),
    }
}

/// Reads a line by the kind that its first byte tells, or returns its first fault.
#[tactic(auto, unfolding(crate::specs::Dumps::value_at))]
pub fn value_of(alloc: Global, line: &DumpLine<'_>) -> Result<Line, LineFault>
    requires limit { length line.now.bytes.now ≤ line_limit }
    requires stands { lines_of line.now.spelled.now ≡ line_is line.now ∷ [] }
    ensures { Gives (λ value. value) result
        (judged line.now.number (value_at (line_is line.now) line.now.bytes.now)) }
{
    match line.bytes {
        [b'M', rest @ ..] => placed(line, machine_fields(alloc, rest)),
        [b'S', rest @ ..] => placed(line, item_fields(alloc, rest)),
        [b'E', rest @ ..] => placed(line, error_fields(alloc, rest)),
        [b'O', rest @ ..] => placed(line, order_fields(rest)),
        [b'K', ..] => pair_of(alloc, line),
        _ => Err(line.bad_at(0)),
    }
}
