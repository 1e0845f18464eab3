//! Reading of a dump, line after line.

ghost use Rattle.std.specs.Prelude.{◌≡◌, ℕ, ◌+◌, ◌^◌, ◌<◌, ◌≤◌, List, [], ◌∷◌, Ok, IfOk, length};
ghost use Rattle.model_lines.specs.Reading.{size_of, next_place, is_too_many, lines_of};
ghost use Rattle.dump_text.specs.declared.line.Line.{Line};
ghost use Rattle.dump_text.specs.Reading.{Gives};
ghost use Rattle.dump_reading.specs.Dumps.{read_line, dump_in, IsDump};
ghost use Rattle.dump_reading.specs.Seen.{line_is, place_is};

use crate::line::{DumpLine, rank_of, value_of};
use dump_text::{Line, LineFault};
use lists::List;
use memchr::memchr;
use std::alloc::Global;

/// The lines of a dump, in order.
pub type Lines = List<Line>;

// How many bytes a dump may have.
const INPUT_LIMIT: usize = 67_108_864;

// How many lines of pairs a dump may have.
const PAIRS_LIMIT: usize = 1_000_000;

// How many bytes a line may have before its line feed.
const LINE_LIMIT: usize = 440_004;

// What stands before a line: so many bytes, and so many lines of pairs.
#[derive(Clone, Copy)]
struct Place {
    bytes: usize,
    pairs: usize,
}

/// Splits off the first line of bytes that aren't empty; returns it under this number, and the bytes behind it.
pub fn first_line(number: u32, bytes: &[u8]) -> (DumpLine<'_>, &[u8])
    requires { 0 < length bytes.now }
    ensures number { result.0.number ≡ number }
    ensures lines { lines_of bytes.now ≡ line_is result.0 ∷ lines_of result.1.now }
    ensures stands { lines_of result.0.spelled.now ≡ line_is result.0 ∷ [] }
    ensures size { size_of (line_is result.0) + length result.1.now ≡ length bytes.now }
    ensures less { length result.1.now < length bytes.now }
{
    match memchr(b'\n', bytes) {
        Some(n) => {
            let line = DumpLine {
                number,
                bytes: &bytes[..n],
                is_whole: true,
                spelled: &bytes[..n + 1],
            };
            (line, &bytes[n + 1..])
        }
        None => {
            let line = DumpLine {
                number,
                bytes,
                is_whole: false,
                spelled: bytes,
            };
            (line, &bytes[bytes.len()..])
        }
    }
}

// Whether a line passes the limits of a dump.
fn is_too_many(place: Place, line: &DumpLine<'_>) -> bool
    requires { place.bytes + size_of (line_is line.now) < 2 ^ 64 }
    ensures { result ≡ is_too_many (place_is line.now.number place) (line_is line.now) }
{
    let end = place.bytes + line.bytes.len() + usize::from(line.is_whole);
    end > INPUT_LIMIT || place.pairs >= PAIRS_LIMIT && line.is_pair()
}

// The place behind a line.
fn place_behind(place: Place, line: &DumpLine<'_>) -> Place
    requires bytes { place.bytes + size_of (line_is line.now) < 2 ^ 64 }
    requires pairs { place.pairs + 1 < 2 ^ 64 }
    ensures { place_is (line.now.number + 1) result ≡ next_place (place_is line.now.number place) (line_is line.now) }
{
    Place {
        bytes: place.bytes + line.bytes.len() + usize::from(line.is_whole),
        pairs: place.pairs + usize::from(line.is_pair()),
    }
}

// What the line at a place comes to, or its first fault, where the kinds before `rank` are past.
#[tactic(auto, unfolding(crate::specs::Dumps::read_line))]
fn read_line(alloc: Global, rank: u8, place: Place, line: &DumpLine<'_>) -> Result<Line, LineFault>
    requires size { place.bytes + size_of (line_is line.now) < 2 ^ 64 }
    requires stands { lines_of line.now.spelled.now ≡ line_is line.now ∷ [] }
    ensures { Gives (λ value. value) result (read_line rank (place_is line.now.number place) (line_is line.now)) }
{
    if is_too_many(place, line) {
        return Err(LineFault::TooMany { line: line.number });
    }
    if line.bytes.len() > LINE_LIMIT {
        return Err(LineFault::TooLong { line: line.number });
    }
    if rank_of(line.bytes) < rank {
        return Err(line.bad_at(0));
    }
    value_of(alloc, line)
}

// The lines of a dump, or its first fault.
fn read_all(alloc: Global, bytes: &[u8]) -> Result<Lines, LineFault>
    ensures { Gives (λ lines. lines) result (dump_in bytes.now) }
{
    let mut lines = Lines::new(alloc);
    let mut number = 1;
    let mut rank = 0;
    let mut place = Place { bytes: 0, pairs: 0 };
    let mut left = bytes;
    while !left.is_empty() {
        let (line, rest) = first_line(number, left);
        let value = read_line(alloc, rank, place, &line)?;
        lines.push(value)?;
        number += 1;
        rank = rank_of(line.bytes);
        place = place_behind(place, &line);
        left = rest;
    }
    Ok(lines)
}

/// Reads the lines of a dump. The lines on machines, on the items of their stacks, on their errors, on the
/// order and on the pairs come in this order, one kind after the other; the order within a kind isn't judged.
/// An error is the first fault, with its line and its place, or that memory ran out.
pub fn read_dump(alloc: Global, bytes: &[u8]) -> Result<Lines, LineFault>
    // What is read is spelled so.
    ensures found { IfOk result (λ lines. IsDump bytes.now lines) }
    // What is spelled so is read, unless memory runs out.
    ensures only { (lines : List Line) → IsDump bytes.now lines → Gives (λ lines. lines) result (Ok lines) }
    // Which fault it is.
    ensures exact { Gives (λ lines. lines) result (dump_in bytes.now) }
{
    read_all(alloc, bytes)
}
