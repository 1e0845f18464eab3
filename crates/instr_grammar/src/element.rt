//! Reading of elements with nested tuples.

ghost use Rattle.std.specs.Prelude.{◌≡◌, ◌≤◌, suc, true, ◌∷◌, ◌++◌, [], length, OnOk, IfErr};
ghost use Rattle.fdb_tuple.specs.Tuples.{Empty};
ghost use Rattle.fdb_tuple.specs.Listed.{before, elements_of, IsElement};
ghost use Rattle.dump_reading.specs.FieldAnswers.{Gives};
ghost use Rattle.instr_grammar.specs.Reading.{element_part, next_part, elements_at, operand_at};

use crate::part::Part;
use crate::scalar::scalar_of;
use dump_reading::FieldFault;
use fdb_tuple::{Elem, PushFault, Tuple};
use std::alloc::Global;

// Reads an element, or the parenthesis that opens one, where so many tuples are open around it.
#[tactic(auto, unfolding(crate::specs::Reading::element_part))]
fn element_part(alloc: Global, around: u8, bytes: &[u8]) -> Result<(Part, &[u8]), FieldFault>
    ensures { Gives (λ x. (x.0, x.1.now)) result (element_part around bytes.now) }
{
    match bytes {
        [] => Err(FieldFault::Bad(0)),
        [b'(', ..] if around == 100 => Err(FieldFault::Bad(bytes.len())),
        [b'(', rest @ ..] => Ok((Part::Opens, rest)),
        _ => {
            let (element, rest) = scalar_of(alloc, bytes)?;
            Ok((Part::Holds(element), rest))
        }
    }
}

// Reads what comes next in an open tuple: its end, or an element, with a space before each but the first.
#[tactic(auto, unfolding(crate::specs::Reading::next_part))]
fn next_part(
    alloc: Global,
    first: bool,
    around: u8,
    bytes: &[u8],
) -> Result<(Part, &[u8]), FieldFault>
    ensures { Gives (λ x. (x.0, x.1.now)) result (next_part first around bytes.now) }
{
    match bytes {
        [] => Err(FieldFault::Bad(0)),
        [b')', rest @ ..] => Ok((Part::Ends, rest)),
        _ if first => element_part(alloc, around, bytes),
        [b' ', rest @ ..] => element_part(alloc, around, rest),
        _ => Err(FieldFault::Bad(bytes.len())),
    }
}

// Adds an element that a tuple can hold.
#[inline(always)]
fn add(tuple: &mut Tuple, element: Elem) -> Result<(), FieldFault>
    requires { IsElement element }
    ensures added { OnOk result (elements_of tuple.new ≡ elements_of tuple.old ++ element ∷ []) }
    ensures refused { IfErr result (λ fault. fault ≡ FieldFault.NoMemory) }
{
    match tuple.push(element) {
        Ok(()) => Ok(()),
        Err(PushFault::NoMemory) => Err(FieldFault::NoMemory),
        Err(PushFault::TooDeep) => unreachable!(),
    }
}

// Reads the elements up to the parenthesis that closes their tuple.
fn elements_of(alloc: Global, around: u8, bytes: &[u8]) -> Result<(Tuple, &[u8]), FieldFault>
    requires { around ≤ 100 }
    ensures { Gives (λ x. (x.0, x.1.now)) result (elements_at (suc (length bytes.now)) true around bytes.now) }
{
    let mut tuple = Tuple::new(alloc);
    let mut rest = bytes;
    let mut first = true;
    loop {
        let (part, after) = next_part(alloc, first, around, rest)?;
        match part {
            Part::Ends => return Ok((tuple, after)),
            Part::Opens => {
                let (inner, others) = elements_of(alloc, around + 1, after)?;
                add(&mut tuple, Elem::Nested(inner))?;
                rest = others;
            }
            Part::Holds(element) => {
                add(&mut tuple, element)?;
                rest = after;
            }
        }
        first = false;
    }
}

/// Reads the one element that all of the bytes spell. A fault is the first byte from the left that fits no rule.
#[tactic(auto, unfolding(crate::specs::Reading::operand_at))]
pub fn operand_of(alloc: Global, bytes: &[u8]) -> Result<Elem, FieldFault>
    ensures { Gives (λ element. before element Empty) result (operand_at bytes.now) }
{
    let (part, after) = element_part(alloc, 0, bytes)?;
    let (element, rest) = match part {
        Part::Ends => return Err(FieldFault::Bad(0)),
        Part::Opens => {
            let (inner, rest) = elements_of(alloc, 1, after)?;
            (Elem::Nested(inner), rest)
        }
        Part::Holds(element) => (element, after),
    };
    if !rest.is_empty() {
        return Err(FieldFault::Bad(rest.len()));
    }
    Ok(element)
}
