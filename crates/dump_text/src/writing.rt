//! Writing of lines.

ghost use Rattle.std.specs.Prelude.{◌≡◌, ◌+◌, ◌<◌, ◌≤◌, true, length, [], ◌∷◌, ◌++◌, decimal, OnOk, OnErr};
ghost use Rattle.model_lines.specs.Printing.{printable, machine_line, item_line, error_line, order_line, pair_line, space};
ghost use Rattle.dump_text.specs.Ends.{word_of};
ghost use Rattle.dump_text.specs.Growing.{Grew};
ghost use Rattle.dump_text.specs.Lines.{line_of};

use crate::line::{EndWord, Line};
use crate::printing::{add_pair_at_once, add_printable, or_cut_back};
use itoa::Buffer;
use key_bytes::Bytes;
use std::alloc::AllocError;

// How many bytes a pair has at most whose line is put into one room.
const SHORT_PAIR: usize = 256;

// Adds a space and a word. After a refusal a part of it stands behind what `to` held.
fn add_word(to: &mut Vec<u8>, word: &[u8]) -> Result<(), AllocError>
    ensures ok { OnOk result (to.new.items ≡ to.old.items ++ space ∷ word.now) }
    ensures err { OnErr result (Grew to.old.items to.new.items) }
{
    to.push(b' ')?;
    to.extend_from_slice(word)
}

// Adds a space and a number. After a refusal a part of it stands behind what `to` held.
fn add_number(to: &mut Vec<u8>, number: u64) -> Result<(), AllocError>
    ensures ok { OnOk result (to.new.items ≡ to.old.items ++ space ∷ decimal number) }
    ensures err { OnErr result (Grew to.old.items to.new.items) }
{
    let mut buffer = Buffer::new();
    add_word(to, buffer.format(number).as_bytes())
}

// Adds the letter of a line and the number of a machine. After a refusal a part of it stands behind what `to` held.
fn add_start(to: &mut Vec<u8>, letter: u8, machine: u16) -> Result<(), AllocError>
    ensures ok { OnOk result (to.new.items ≡ to.old.items ++ letter ∷ space ∷ decimal machine) }
    ensures err { OnErr result (Grew to.old.items to.new.items) }
{
    to.push(letter)?;
    add_number(to, u64::from(machine))
}

// Adds a space, the printable form of `bytes` and the line feed. After a refusal a part of it stands behind what `to` held.
fn add_last(to: &mut Vec<u8>, bytes: &[u8]) -> Result<(), AllocError>
    ensures ok { OnOk result (to.new.items ≡ to.old.items ++ space ∷ (printable bytes.now ++ 10 ∷ [])) }
    ensures err { OnErr result (Grew to.old.items to.new.items) }
{
    to.push(b' ')?;
    add_printable(to, bytes)?;
    to.push(b'\n')?;
    Ok(())
}

// Adds the line of how a machine ended. After a refusal a part of it stands behind what `to` held.
#[tactic(auto, unfolding(model_lines::specs::Printing::machine_line))]
fn add_machine_line(
    to: &mut Vec<u8>,
    machine: u16,
    end: EndWord,
    number: u64,
    prefix: &[u8],
) -> Result<(), AllocError>
    ensures ok { OnOk result (to.new.items ≡ to.old.items ++ machine_line machine (word_of end) number prefix.now) }
    ensures err { OnErr result (Grew to.old.items to.new.items) }
{
    add_start(to, b'M', machine)?;
    add_word(to, end.word())?;
    add_number(to, number)?;
    add_last(to, prefix)
}

// Adds the line of an item. After a refusal a part of it stands behind what `to` held.
#[tactic(auto, unfolding(model_lines::specs::Printing::item_line))]
fn add_item_line(
    to: &mut Vec<u8>,
    machine: u16,
    place: u64,
    instruction: u64,
    packed: &[u8],
) -> Result<(), AllocError>
    ensures ok { OnOk result (to.new.items ≡ to.old.items ++ item_line machine place instruction packed.now) }
    ensures err { OnErr result (Grew to.old.items to.new.items) }
{
    add_start(to, b'S', machine)?;
    add_number(to, place)?;
    add_number(to, instruction)?;
    add_last(to, packed)
}

// Adds the line of an error. After a refusal a part of it stands behind what `to` held.
#[tactic(auto, unfolding(model_lines::specs::Printing::error_line))]
fn add_error_line(
    to: &mut Vec<u8>,
    machine: u16,
    instruction: u64,
    word: &[u8],
) -> Result<(), AllocError>
    ensures ok { OnOk result (to.new.items ≡ to.old.items ++ error_line machine instruction word.now) }
    ensures err { OnErr result (Grew to.old.items to.new.items) }
{
    add_start(to, b'E', machine)?;
    add_number(to, instruction)?;
    add_word(to, word)?;
    to.push(b'\n')?;
    Ok(())
}

// Adds the line of a place of the order. After a refusal a part of it stands behind what `to` held.
#[tactic(auto, unfolding(model_lines::specs::Printing::order_line))]
fn add_order_line(to: &mut Vec<u8>, machine: u16) -> Result<(), AllocError>
    ensures ok { OnOk result (to.new.items ≡ to.old.items ++ order_line machine) }
    ensures err { OnErr result (Grew to.old.items to.new.items) }
{
    add_start(to, b'O', machine)?;
    to.push(b'\n')?;
    Ok(())
}

// Adds the line of a place of the order, where the machine has one digit. After a refusal `to` is unchanged.
#[inline(always)]
fn add_short_order_line(to: &mut Vec<u8>, machine: u16) -> Result<(), AllocError>
    requires { machine < 10 }
    ensures ok { OnOk result (to.new.items ≡ to.old.items ++ order_line machine) }
    ensures err { OnErr result (to.new.items ≡ to.old.items) }
{
    to.reserve(4)?;
    to.push_reserved(b'O');
    to.push_reserved(b' ');
    to.push_reserved(b'0' + machine as u8);
    to.push_reserved(b'\n');
    Ok(())
}

// Whether the line of a pair is put into one room: of a short one whose key begins with a byte below 20, as most packed
// tuples do, and so has an escape.
#[inline(always)]
fn fits_one_room(key: &[u8], value: &[u8]) -> bool
    ensures { result ≡ true → length key.now + length value.now ≤ 256 }
{
    matches!(key, [0..=0x1f, ..]) && key.len() + value.len() <= SHORT_PAIR
}

// Adds the line of a pair. After a refusal a part of it stands behind what `to` held.
#[tactic(auto, unfolding(model_lines::specs::Printing::pair_line))]
fn add_pair_line(to: &mut Vec<u8>, key: &[u8], value: &[u8]) -> Result<(), AllocError>
    ensures ok { OnOk result (to.new.items ≡ to.old.items ++ pair_line key.now value.now) }
    ensures err { OnErr result (Grew to.old.items to.new.items) }
{
    to.extend_from_slice(b"K ")?;
    add_printable(to, key)?;
    to.extend_from_slice(b"\\=")?;
    add_printable(to, value)?;
    to.push(b'\n')?;
    Ok(())
}

/// Adds the line of how a machine ended at the end. After a refusal `to` is as before.
pub fn write_machine_line(
    to: &mut Vec<u8>,
    machine: u16,
    end: EndWord,
    number: u64,
    prefix: &[u8],
) -> Result<(), AllocError>
    ensures ok { OnOk result (to.new.items ≡ to.old.items ++ machine_line machine (word_of end) number prefix.now) }
    ensures err { OnErr result (to.new.items ≡ to.old.items) }
{
    let len = to.len();
    let written = add_machine_line(to, machine, end, number, prefix);
    or_cut_back(to, len, written)
}

/// Adds the line of an item at the end. After a refusal `to` is as before.
pub fn write_item_line(
    to: &mut Vec<u8>,
    machine: u16,
    place: u64,
    instruction: u64,
    packed: &[u8],
) -> Result<(), AllocError>
    ensures ok { OnOk result (to.new.items ≡ to.old.items ++ item_line machine place instruction packed.now) }
    ensures err { OnErr result (to.new.items ≡ to.old.items) }
{
    let len = to.len();
    let written = add_item_line(to, machine, place, instruction, packed);
    or_cut_back(to, len, written)
}

/// Adds the line of an error at the end. After a refusal `to` is as before.
pub fn write_error_line(
    to: &mut Vec<u8>,
    machine: u16,
    instruction: u64,
    word: &[u8],
) -> Result<(), AllocError>
    ensures ok { OnOk result (to.new.items ≡ to.old.items ++ error_line machine instruction word.now) }
    ensures err { OnErr result (to.new.items ≡ to.old.items) }
{
    let len = to.len();
    let written = add_error_line(to, machine, instruction, word);
    or_cut_back(to, len, written)
}

/// Adds the line of a place of the order at the end. After a refusal `to` is as before.
pub fn write_order_line(to: &mut Vec<u8>, machine: u16) -> Result<(), AllocError>
    ensures ok { OnOk result (to.new.items ≡ to.old.items ++ order_line machine) }
    ensures err { OnErr result (to.new.items ≡ to.old.items) }
{
    if machine < 10 {
        return add_short_order_line(to, machine);
    }
    let len = to.len();
    let written = add_order_line(to, machine);
    or_cut_back(to, len, written)
}

/// Adds the line of a pair at the end. After a refusal `to` is as before.
pub fn write_pair_line(to: &mut Vec<u8>, key: &[u8], value: &[u8]) -> Result<(), AllocError>
    ensures ok { OnOk result (to.new.items ≡ to.old.items ++ pair_line key.now value.now) }
    ensures err { OnErr result (to.new.items ≡ to.old.items) }
{
    if fits_one_room(key, value) {
        return add_pair_at_once(to, key, value);
    }
    let len = to.len();
    let written = add_pair_line(to, key, value);
    or_cut_back(to, len, written)
}

// Adds a line. After a refusal a part of it stands behind what `to` held.
fn add_line(to: &mut Vec<u8>, line: &Line) -> Result<(), AllocError>
    ensures ok { OnOk result (to.new.items ≡ to.old.items ++ line_of line.now) }
    ensures err { OnErr result (Grew to.old.items to.new.items) }
{
    match line {
        Line::M {
            machine,
            end,
            number,
            prefix,
        } => add_machine_line(to, *machine, *end, *number, prefix.as_slice()),
        Line::S {
            machine,
            place,
            instruction,
            bytes,
        } => add_item_line(to, *machine, *place, *instruction, bytes.as_slice()),
        Line::E {
            machine,
            instruction,
            word,
        } => add_error_line(to, *machine, *instruction, word.as_slice()),
        Line::O { machine } => add_order_line(to, *machine),
        Line::K { key, value } => add_pair_line(to, key.as_slice(), value.as_slice()),
    }
}

/// Adds a line at the end. After a refusal `to` is as before.
pub fn write_line(to: &mut Bytes, line: &Line) -> Result<(), AllocError>
    ensures ok { OnOk result (to.new ≡ to.old ++ line_of line.now) }
    ensures err { OnErr result (to.new ≡ to.old) }
{
    let mut text = Vec::new(to.allocator());
    add_line(&mut text, line)?;
    to.extend(text.as_slice())
}
