//! What a line of a text says.

ghost use Rattle.std.specs.Prelude.{◌≡◌, ◌-◌, ◌≤◌, IfOk, Ok, length};
ghost use Rattle.model_lines.specs.Reading.{line_limit};
ghost use Rattle.fdb_tuple.specs.Tuples.{Text, Empty, Single};
ghost use Rattle.fdb_tuple.specs.Spelling.{spelling};
ghost use Rattle.fdb_tuple.specs.Zeros.{HasNoZero};
ghost use Rattle.instr_grammar.specs.Texts.{packed};
ghost use Rattle.instr_grammar.specs.Seen.{instruction_is};
ghost use Rattle.instr_grammar.specs.Reading.{instruction_at, prefix_at};
ghost use Rattle.instr_grammar.specs.Lines.{Place, is_head, judged, head_in, instruction_in, said_at};
ghost use Rattle.dump_reading.specs.Seen.{line_is};
ghost use Rattle.instr_text.specs.Saying.{fault_at, Says};
ghost use Rattle.instr_text.specs.Standing.{IsAt};

use crate::sections::Sections;
use dump_reading::{DumpLine, LineFault};
use fdb_tuple::{Elem, pack_element_into};
use instr_grammar::{FieldFault, instruction_of, prefix_of};
use key_bytes::Bytes;
use model_database::VALUE_LIMIT;
use std::alloc::{AllocError, Global};

/// What a line says.
#[derive(Drop)]
pub enum Said {
    /// The section of a prefix begins.
    Begins(Bytes),
    /// An instruction stands here, by its packed tuple.
    Packs(Bytes),
}

// Returns the fault of a line that was read up to a fault.
fn fault_at(line: &DumpLine<'_>, fault: FieldFault) -> LineFault
    requires { length line.now.bytes.now ≤ line_limit }
    ensures { result ≡ fault_at line.now.number (length line.now.bytes.now) fault }
{
    match fault {
        FieldFault::Bad(left) => line.bad_at(line.bytes.len().saturating_sub(left)),
        FieldFault::NoMemory => LineFault::NoMemory,
    }
}

// Packs the tuple of an operation's name. There is no zero in it, so it is packed as it stands.
fn packed_name(alloc: Global, name: &[u8]) -> Result<Vec<u8>, AllocError>
    requires { HasNoZero name.now }
    ensures { IfOk result (λ value. value.items ≡ spelling (Single (Text name.now) Empty)) }
{
    let mut value = Vec::new(alloc);
    value.push(0x02)?;
    value.extend_from_slice(name)?;
    value.push(0x00)?;
    Ok(value)
}

// Packs the tuple of an operation's name and the element behind it.
#[tactic(auto, using(crate::proofs::Packs::element_behind))]
fn packed(alloc: Global, name: &[u8], element: Option<Elem>) -> Result<Bytes, AllocError>
    requires { HasNoZero name.now }
    ensures { IfOk result (λ value. value ≡ packed (instruction_is name.now element)) }
{
    let mut value = packed_name(alloc, name)?;
    match element {
        None => Bytes::from_vec(value),
        Some(element) => {
            pack_element_into(&mut value, &element)?;
            Bytes::from_vec(value)
        }
    }
}

// Reads a line that begins a section.
fn head_of(alloc: Global, sections: &Sections, line: &DumpLine<'_>) -> Result<Said, LineFault>
    requires { length line.now.bytes.now ≤ line_limit }
    ensures { (place : Place) → IsAt sections.now place
        → Says result (judged line.now.number (head_in place (line_is line.now) (prefix_at line.now.bytes.now))) }
{
    match prefix_of(alloc, line.bytes) {
        Err(fault) => Err(fault_at(line, fault)),
        Ok(prefix) if sections.has(&prefix) => Err(line.bad_at(2)),
        Ok(_) if !line.is_whole => Err(line.bad_at(line.bytes.len())),
        Ok(prefix) => Ok(Said::Begins(prefix)),
    }
}

// Packs the instruction that a line spells: the line feed stands behind it, and the packed tuple is within its limit.
fn packed_line(
    alloc: Global,
    line: &DumpLine<'_>,
    name: &[u8],
    element: Option<Elem>,
) -> Result<Said, LineFault>
    requires short { length line.now.bytes.now ≤ line_limit }
    requires name { HasNoZero name.now }
    ensures { Says result (judged line.now.number (instruction_in (line_is line.now) (Ok (instruction_is name.now element)))) }
{
    if !line.is_whole {
        return Err(line.bad_at(line.bytes.len()));
    }
    let value = packed(alloc, name, element)?;
    if value.len() > VALUE_LIMIT {
        return Err(LineFault::TooLong { line: line.number });
    }
    Ok(Said::Packs(value))
}

// Reads a line that is an instruction.
fn instruction_line(alloc: Global, line: &DumpLine<'_>) -> Result<Said, LineFault>
    requires { length line.now.bytes.now ≤ line_limit }
    ensures { Says result (judged line.now.number (instruction_in (line_is line.now) (instruction_at line.now.bytes.now))) }
{
    match instruction_of(alloc, line.bytes) {
        Err(fault) => Err(fault_at(line, fault)),
        Ok((name, element)) => packed_line(alloc, line, name, element),
    }
}

/// Tells whether a line begins a section, which its first byte tells.
pub fn is_head(bytes: &[u8]) -> bool
    ensures { result ≡ is_head bytes.now }
{
    matches!(bytes, [b'@', ..])
}

/// Reads what a line says, or returns its first fault. A line behind that of a section must be an instruction, and an
/// instruction stands in a section.
#[tactic(auto, unfolding(instr_grammar::specs::Lines::said_at))]
pub fn said_of(alloc: Global, sections: &Sections, line: &DumpLine<'_>) -> Result<Said, LineFault>
    requires { length line.now.bytes.now ≤ line_limit }
    ensures { (place : Place) → IsAt sections.now place → Says result (judged line.now.number (said_at place (line_is line.now))) }
{
    if is_head(line.bytes) {
        if sections.is_waiting() {
            return Err(line.bad_at(0));
        }
        return head_of(alloc, sections, line);
    }
    if !sections.is_open() {
        return Err(line.bad_at(0));
    }
    instruction_line(alloc, line)
}
