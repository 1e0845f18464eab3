//! Reading of an instruction.

ghost use Rattle.std.specs.Prelude.{◌≡◌, ◌≤◌, length, codes, take, ◌∷◌, IfOk};
ghost use Rattle.dump_reading.specs.FieldAnswers.{Gives};
ghost use Rattle.instr_grammar.specs.Names.{names, is_among, longest};
ghost use Rattle.instr_grammar.specs.Reading.{instruction_at, prefix_at, prefix_limit};
ghost use Rattle.instr_grammar.specs.Seen.{instruction_is};
ghost use Rattle.model_lines.specs.Printing.{printable};

use crate::element::operand_of;
use crate::names::{COUNT, alike, name_at};
use crate::string::run_of;
use dump_reading::{FieldFault, behind};
use dump_text::write_printable;
use fdb_tuple::Elem;
use key_bytes::Bytes;
use std::alloc::{AllocError, Global};

// How many bytes the prefix of a section may have.
const PREFIX_LIMIT: usize = 1_000;

/// Tells whether this is the name of an operation but PUSH.
pub fn is_name(bytes: &[u8]) -> bool
    ensures { result ≡ is_among bytes.now names }
{
    let mut i = 0;
    while i < COUNT {
        if name_at(i) == bytes {
            return true;
        }
        i += 1;
    }
    false
}

// Returns how many bytes from the front on go along some name of an operation; PUSH goes on with a space.
fn longest_walk(bytes: &[u8]) -> usize
    ensures value { result ≡ longest (codes "PUSH " ∷ names) bytes.now }
    ensures within { result ≤ length bytes.now }
{
    let mut longest = alike(b"PUSH ", bytes);
    let mut i = 0;
    while i < COUNT {
        longest = longest.max(alike(name_at(i), bytes));
        i += 1;
    }
    longest
}

/// Reads the instruction that a line spells: the name of its operation, and for PUSH the element behind it. A fault is
/// the first byte from the left that fits no rule.
#[tactic(auto, unfolding(crate::specs::Reading::instruction_at))]
pub fn instruction_of(alloc: Global, bytes: &[u8]) -> Result<(&[u8], Option<Elem>), FieldFault>
    ensures { Gives (λ x. instruction_is x.0.now x.1) result (instruction_at bytes.now) }
{
    match behind(b"PUSH ", bytes) {
        Ok(rest) => {
            let element = operand_of(alloc, rest)?;
            Ok((b"PUSH", Some(element)))
        }
        Err(FieldFault::Bad(_)) if is_name(bytes) => Ok((bytes, None)),
        Err(FieldFault::Bad(_)) => Err(FieldFault::Bad(bytes.len() - longest_walk(bytes))),
        Err(FieldFault::NoMemory) => Err(FieldFault::NoMemory),
    }
}

// Returns how many bytes the printable form has of the bytes of a prefix that are within its limit.
#[tactic(auto, unfolding(model_lines::specs::Printing::printable_but, model_lines::specs::Printing::printable))]
fn lawful_len(alloc: Global, prefix: &[u8]) -> Result<usize, AllocError>
    requires { 1000 ≤ length prefix.now }
    ensures { IfOk result (λ len. len ≡ length (printable (take prefix_limit prefix.now))) }
{
    let lawful = &prefix[..PREFIX_LIMIT];
    let mut form = Bytes::new(alloc);
    write_printable(&mut form, lawful, None)?;
    Ok(form.len())
}

/// Reads the line that begins a section: `@`, a space, and the section's prefix in printable form, of at most 1,000
/// bytes; returns the prefix. A fault is the first byte from the left that fits no rule, or the spelling of the
/// prefix's 1,001st byte.
#[tactic(auto, unfolding(crate::specs::Reading::prefix_at))]
pub fn prefix_of(alloc: Global, bytes: &[u8]) -> Result<Bytes, FieldFault>
    ensures { Gives (λ prefix. prefix) result (prefix_at bytes.now) }
{
    let rest = behind(b"@ ", bytes)?;
    let (prefix, left) = run_of(alloc, None, rest)?;
    if prefix.len() > PREFIX_LIMIT {
        let lawful = lawful_len(alloc, prefix.as_slice())?;
        return Err(FieldFault::Bad(rest.len().saturating_sub(lawful)));
    }
    if !left.is_empty() {
        return Err(FieldFault::Bad(left.len()));
    }
    Ok(prefix)
}
