//! Writing of lines. After a refusal a part of what was to be added may stand behind what `to` held.

ghost use Rattle.std.specs.Prelude.{◌≡◌, ◌<◌, true, [], ◌∷◌, ◌++◌, OnOk, Some, None, codes};
ghost use Rattle.std.specs.Fmt.{signed_decimal};
ghost use Rattle.model_lines.specs.Printing.{hexadecimal_digit, printable, printable_but, line_feed};
ghost use Rattle.fdb_tuple.specs.Tuples.{Stamp, Empty};
ghost use Rattle.fdb_tuple.specs.Listed.{before};
ghost use Rattle.instr_grammar.specs.Names.{push};
ghost use Rattle.instr_grammar.specs.Texts.{quoted, in_hexadecimal, boolean_text, scalar_text, gap, elements_text, instruction_line};

use dump_text::write_printable;
use fdb_tuple::{Elem, Tuple, Versionstamp};
use itoa::Buffer;
use key_bytes::Bytes;
use std::alloc::AllocError;

// Returns the digit of a number below 16.
fn hexadecimal_digit(n: u8) -> u8
    requires { n < 16 }
    ensures { result ≡ hexadecimal_digit n }
{
    if n < 10 { b'0' + n } else { b'a' + (n - 10) }
}

// Adds bytes by their digits.
#[tactic(auto, unfolding(crate::specs::Texts::in_hexadecimal))]
fn put_hexadecimal(to: &mut Vec<u8>, bytes: &[u8]) -> Result<(), AllocError>
    ensures { OnOk result (to.new.items ≡ to.old.items ++ in_hexadecimal bytes.now) }
{
    for byte in bytes {
        to.push(hexadecimal_digit(*byte / 16))?;
        to.push(hexadecimal_digit(*byte % 16))?;
    }
    Ok(())
}

// Adds an integer.
fn put_int(to: &mut Vec<u8>, number: i128) -> Result<(), AllocError>
    ensures { OnOk result (to.new.items ≡ to.old.items ++ signed_decimal number) }
{
    let mut buffer = Buffer::new();
    to.extend_from_slice(buffer.format(number).as_bytes())
}

// Adds bytes in printable form, in which the byte `escaped`, where one is given, is spelled by its digits too.
fn put_printable(to: &mut Vec<u8>, bytes: &[u8], escaped: Option<u8>) -> Result<(), AllocError>
    ensures { OnOk result (to.new.items ≡ to.old.items ++ printable_but escaped bytes.now) }
{
    let mut form = Bytes::new(*to.allocator());
    write_printable(&mut form, bytes, escaped)?;
    to.extend_from_slice(form.as_slice())
}

// Adds a letter, and bytes between quotes.
fn put_string(to: &mut Vec<u8>, letter: u8, bytes: &[u8]) -> Result<(), AllocError>
    ensures { OnOk result (to.new.items ≡ to.old.items ++ letter ∷ quoted bytes.now) }
{
    to.extend_from_slice(&[letter, b'\''])?;
    put_printable(to, bytes, Some(b'\''))?;
    to.push(b'\'')?;
    Ok(())
}

// Adds a boolean.
fn put_bool(to: &mut Vec<u8>, value: bool) -> Result<(), AllocError>
    ensures { OnOk result (to.new.items ≡ to.old.items ++ boolean_text value) }
{
    if value {
        to.extend_from_slice(b"true")
    } else {
        to.extend_from_slice(b"false")
    }
}

// Adds a UUID.
fn put_uuid(to: &mut Vec<u8>, uuid: &[u8; 16]) -> Result<(), AllocError>
    ensures { OnOk result (to.new.items ≡ to.old.items ++ codes "uuid:" ++ in_hexadecimal uuid.now) }
{
    to.extend_from_slice(b"uuid:")?;
    put_hexadecimal(to, uuid)
}

// Adds a versionstamp.
#[tactic(auto, unfolding(crate::specs::Texts::scalar_text))]
fn put_stamp(to: &mut Vec<u8>, stamp: &Versionstamp) -> Result<(), AllocError>
    ensures { OnOk result (to.new.items ≡ to.old.items ++ scalar_text (Stamp stamp.now.stamp stamp.now.user)) }
{
    to.extend_from_slice(b"stamp:")?;
    put_hexadecimal(to, &stamp.stamp)?;
    to.push(b'.')?;
    let mut buffer = Buffer::new();
    to.extend_from_slice(buffer.format(stamp.user).as_bytes())
}

// Adds the space before an element that isn't the first.
fn put_gap(to: &mut Vec<u8>, first: bool) -> Result<(), AllocError>
    ensures { OnOk result (to.new.items ≡ to.old.items ++ gap first) }
{
    if first {
        return Ok(());
    }
    to.push(b' ')?;
    Ok(())
}

// Adds an element.
#[cycle(put)]
#[tactic(auto, using(crate::proofs::Written::alone), unfolding(crate::specs::Texts::scalar_text))]
fn put_element(to: &mut Vec<u8>, element: &Elem) -> Result<(), AllocError>
    ensures { OnOk result (to.new.items ≡ to.old.items ++ elements_text true (before element.now Empty)) }
{
    match element {
        Elem::Null => to.extend_from_slice(b"null"),
        Elem::Bytes(bytes) => put_string(to, b'b', bytes.as_slice()),
        Elem::Text(text) => put_string(to, b'u', text.as_bytes()),
        Elem::Nested(tuple) => put_nested(to, tuple),
        Elem::Int(number) => put_int(to, *number),
        Elem::Bool(value) => put_bool(to, *value),
        Elem::Uuid(uuid) => put_uuid(to, uuid),
        Elem::Stamp(stamp) => put_stamp(to, stamp),
    }
}

// Adds a nested tuple between parentheses.
#[cycle(put)]
fn put_nested(to: &mut Vec<u8>, tuple: &Tuple) -> Result<(), AllocError>
    ensures { OnOk result (to.new.items ≡ to.old.items ++ 40 ∷ elements_text true tuple.now ++ 41 ∷ []) }
{
    to.push(b'(')?;
    put_elements(to, tuple)?;
    to.push(b')')?;
    Ok(())
}

// Adds the elements of a tuple, with single spaces between.
#[cycle(put)]
fn put_elements(to: &mut Vec<u8>, tuple: &Tuple) -> Result<(), AllocError>
    ensures { OnOk result (to.new.items ≡ to.old.items ++ elements_text true tuple.now) }
{
    let mut first = true;
    for element in tuple.as_slice() {
        put_gap(to, first)?;
        put_element(to, element)?;
        first = false;
    }
    Ok(())
}

/// Adds the line that pushes an element.
pub fn write_push(to: &mut Vec<u8>, element: &Elem) -> Result<(), AllocError>
    ensures { OnOk result (to.new.items ≡ to.old.items ++ instruction_line (record { name = push; operand = before element.now Empty })) }
{
    to.extend_from_slice(b"PUSH ")?;
    put_element(to, element)?;
    to.push(b'\n')?;
    Ok(())
}

/// Adds the line of an operation that has no element.
pub fn write_name(to: &mut Vec<u8>, name: &[u8]) -> Result<(), AllocError>
    ensures { OnOk result (to.new.items ≡ to.old.items ++ instruction_line (record { name = name.now; operand = Empty })) }
{
    to.extend_from_slice(name)?;
    to.push(b'\n')?;
    Ok(())
}

/// Adds the line that begins the section of a prefix.
#[tactic(auto, unfolding(model_lines::specs::Printing::printable_but, model_lines::specs::Printing::printable))]
pub fn write_prefix(to: &mut Vec<u8>, prefix: &[u8]) -> Result<(), AllocError>
    ensures { OnOk result (to.new.items ≡ to.old.items ++ codes "@ " ++ printable prefix.now ++ line_feed ∷ []) }
{
    to.extend_from_slice(b"@ ")?;
    put_printable(to, prefix, None)?;
    to.push(b'\n')?;
    Ok(())
}
