//! Reading of an input, line after line.

ghost use Rattle.std.specs.Prelude.{◌≡◌, ℕ, ◌+◌, ◌-◌, ◌^◌, ◌<◌, ◌≤◌, [], ◌∷◌, ◌++◌, List, length, Ok, IfOk};
ghost use Rattle.key_bytes.specs.Entries.{entry_of};
ghost use Rattle.model_lines.specs.Reading.{start, size_of, is_too_many, lines_of, read_line, read_lines, input_limit};
ghost use Rattle.model_input.specs.declared.input.Input.{Input};
ghost use Rattle.model_input.specs.Orders.{is_of_order, read_machine};
ghost use Rattle.model_input.specs.Forms.{read_replay, input_of, IsInputOf};
ghost use Rattle.dump_text.specs.Reading.{Gives};
ghost use Rattle.dump_text.specs.InputLines.{line_is, has_three};
ghost use Rattle.dump_text.specs.Places.{place_is, place_at};

use crate::fault::LineFault;
use crate::machine::machine_of;
use crate::pair::{InputLine, read_pair};
use key_bytes::{Pair, Pairs};
use memchr::memchr;
use model_input::{Form, Input, Order};
use std::alloc::Global;

// How many bytes an input may have.
const INPUT_LIMIT: usize = 67_108_864;

// How many lines of pairs an input may have.
const PAIRS_LIMIT: usize = 1_000_000;

// What stands before a line: so many bytes, and so many lines of pairs.
#[derive(Clone, Copy)]
struct Place {
    bytes: usize,
    pairs: usize,
}

/// Takes the first line of bytes that aren't empty, and returns it with what is left behind it.
pub fn first_line(number: u32, bytes: &[u8]) -> (InputLine<'_>, &[u8])
    requires { 0 < length bytes.now }
    ensures number { result.0.number ≡ number }
    ensures lines { lines_of bytes.now ≡ line_is result.0 ∷ lines_of result.1.now }
    ensures size { size_of (line_is result.0) + length result.1.now ≡ length bytes.now }
    ensures less { length result.1.now < length bytes.now }
{
    match memchr(b'\n', bytes) {
        Some(n) => {
            let line = InputLine {
                number,
                bytes: &bytes[..n],
                is_whole: true,
            };
            (line, &bytes[n + 1..])
        }
        None => {
            let line = InputLine {
                number,
                bytes,
                is_whole: false,
            };
            (line, &bytes[bytes.len()..])
        }
    }
}

// Whether the first line that is left has three bytes and its line feed.
#[inline(always)]
fn has_three(left: &[u8]) -> bool
    ensures { result ≡ has_three left.now }
{
    left.len() > 3 && left[0] != b'\n' && left[1] != b'\n' && left[2] != b'\n' && left[3] == b'\n'
}

// The first line of bytes that aren't empty, and what is left behind it. The line of a machine of one digit has three bytes,
// which is seen without a search.
#[inline(always)]
fn first_of_order(number: u32, bytes: &[u8]) -> (InputLine<'_>, &[u8])
    requires { 0 < length bytes.now }
    ensures number { result.0.number ≡ number }
    ensures lines { lines_of bytes.now ≡ line_is result.0 ∷ lines_of result.1.now }
    ensures size { size_of (line_is result.0) + length result.1.now ≡ length bytes.now }
    ensures less { length result.1.now < length bytes.now }
{
    if !has_three(bytes) {
        return first_line(number, bytes);
    }
    let line = InputLine {
        number,
        bytes: &bytes[..3],
        is_whole: true,
    };
    (line, &bytes[4..])
}

// Whether a line passes the limits of an input.
fn is_too_many(place: Place, line: &InputLine<'_>) -> bool
    requires { place.bytes + size_of (line_is line.now) < 2 ^ 64 }
    ensures { result ≡ is_too_many (place_is line.now.number place) (line_is line.now) }
{
    let end = place.bytes + line.bytes.len() + usize::from(line.is_whole);
    end > INPUT_LIMIT || place.pairs >= PAIRS_LIMIT && line.is_pair()
}

// The pair of the line at a place, or its first fault.
#[tactic(auto, unfolding(model_lines::specs::Reading::read_line))]
fn read_line(
    alloc: Global,
    scratch: &mut Vec<u8>,
    place: Place,
    line: &InputLine<'_>,
) -> Result<Pair, LineFault>
    requires { place.bytes + size_of (line_is line.now) < 2 ^ 64 }
    ensures { Gives entry_of result (read_line (place_is line.now.number place) (line_is line.now)) }
{
    if is_too_many(place, line) {
        return Err(LineFault::TooMany { line: line.number });
    }
    if line.is_too_long() {
        return Err(LineFault::TooLong { line: line.number });
    }
    read_pair(alloc, scratch, line)
}

// The machine of the line of an order at a place, or its first fault.
#[tactic(auto, unfolding(model_input::specs::Orders::read_machine))]
fn read_machine(place: Place, line: &InputLine<'_>) -> Result<u16, LineFault>
    requires { place.bytes + size_of (line_is line.now) < 2 ^ 64 }
    ensures { Gives (λ machine. machine) result (read_machine (place_is line.now.number place) (line_is line.now)) }
{
    if is_too_many(place, line) {
        return Err(LineFault::TooMany { line: line.number });
    }
    if line.is_too_long() {
        return Err(LineFault::TooLong { line: line.number });
    }
    machine_of(line)
}

// Whether the first line that is left is of an order, which its first byte tells.
fn is_of_order(left: &[u8]) -> bool
    ensures { result ≡ is_of_order left.now }
{
    matches!(left, [b'O', ..])
}

// The pairs of what is left of an input, from the line of this number on, or their first fault.
fn read_pairs(alloc: Global, bytes: &[u8], number: u32, left: &[u8]) -> Result<Pairs, LineFault>
    requires within { length left.now ≤ length bytes.now }
    requires counted { number ≤ length bytes.now - length left.now + 1 }
    requires size { length bytes.now - length left.now ≤ input_limit }
    ensures { Gives (λ pairs. pairs) result (read_lines (place_at number bytes.now left.now []) (lines_of left.now)) }
{
    let mut pairs = Pairs::new(alloc);
    // Each text with an escape in it is built here.
    let mut scratch = Vec::new(alloc);
    let mut number = number;
    let mut left = left;
    while !left.is_empty() {
        let place = Place {
            bytes: bytes.len() - left.len(),
            pairs: pairs.len(),
        };
        let (line, rest) = first_line(number, left);
        let pair = read_line(alloc, &mut scratch, place, &line)?;
        pairs.push(pair)?;
        left = rest;
        number += 1;
    }
    Ok(pairs)
}

// What an input of a replay says, or its first fault.
fn read_replay(alloc: Global, bytes: &[u8]) -> Result<Input, LineFault>
    ensures { Gives (λ input. input) result (read_replay start (lines_of bytes.now)) }
{
    let mut order = Order::new(alloc);
    let mut number = 1;
    let mut left = bytes;
    while is_of_order(left) {
        let place = Place {
            bytes: bytes.len() - left.len(),
            pairs: 0,
        };
        let (line, rest) = first_of_order(number, left);
        let machine = read_machine(place, &line)?;
        order.push(machine)?;
        left = rest;
        number += 1;
    }
    let pairs = read_pairs(alloc, bytes, number, left)?;
    Ok(Input { order, pairs })
}

// What an input says by its form, or its first fault.
fn read_input(alloc: Global, form: Form, bytes: &[u8]) -> Result<Input, LineFault>
    ensures { Gives (λ input. input) result (input_of form bytes.now) }
{
    match form {
        Form::Run => {
            let pairs = read_pairs(alloc, bytes, 1, bytes)?;
            Ok(Input {
                order: Order::new(alloc),
                pairs,
            })
        }
        Form::Replay => read_replay(alloc, bytes),
    }
}

/// Reads an input by its form: lines of pairs, for a replay with lines of an order before them. An error is the
/// first fault of the input, with its line and its place, or that memory ran out; nothing of the input is kept
/// then.
pub fn read_lines(alloc: Global, bytes: &[u8], form: Form) -> Result<Input, LineFault>
    // What is read is spelled so.
    ensures found { IfOk result (λ input. IsInputOf form bytes.now input) }
    // What is spelled so is read, unless memory runs out.
    ensures only { (input : Input) → IsInputOf form bytes.now input → Gives (λ input. input) result (Ok input) }
    // Which fault it is.
    ensures exact { Gives (λ input. input) result (input_of form bytes.now) }
    // Bytes behind the first one past the limit change nothing.
    ensures past { (rest : List ℕ) → input_limit < length bytes.now
        → Gives (λ input. input) result (input_of form (bytes.now ++ rest)) }
{
    read_input(alloc, form, bytes)
}
