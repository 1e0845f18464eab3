//! Reading of lines of events, one after the other.

ghost use Rattle.std.specs.Prelude.{◌≡◌, ◌+◌, ◌^◌, ◌<◌, ◌≤◌, List, Ok, IfOk};
ghost use Rattle.model_lines.specs.Reading.{size_of};
ghost use Rattle.dump_text.specs.InputLines.{line_is};
ghost use Rattle.dump_text.specs.Reading.{Gives};
ghost use Rattle.model_events.specs.declared.event.Event.{Event};
ghost use Rattle.model_events.specs.Events.{next_place, is_too_many, read_event, events_of, AreEventsOf};
ghost use Rattle.event_lines.specs.Lines.{place_is};

use crate::line::{is_watch, read_event};
use dump_text::{InputLine, LineFault, first_line};
use lists::List;
use model_events::{Event, Events};
use std::alloc::Global;

// How many bytes an input may have.
const INPUT_LIMIT: usize = 67_108_864;

// How many lines of pairs an input may have.
const PAIRS_LIMIT: u64 = 1_000_000;

// How many lines may watch a key.
const WATCHES_LIMIT: u64 = 10_000;

// What stands before a line: so many bytes, lines of pairs, and lines that watch a key.
#[derive(Clone, Copy)]
struct Place {
    bytes: usize,
    pairs: u64,
    watches: u64,
}

// Whether a line passes the limits of an input.
fn is_too_many(place: Place, line: &InputLine<'_>) -> bool
    requires { place.bytes + size_of (line_is line.now) < 2 ^ 64 }
    ensures { result ≡ is_too_many (place_is line.now.number place) (line_is line.now) }
{
    let end = place.bytes + line.bytes.len() + usize::from(line.is_whole);
    end > INPUT_LIMIT
        || place.pairs >= PAIRS_LIMIT && line.is_pair()
        || place.watches >= WATCHES_LIMIT && is_watch(line)
}

// The place behind a line.
fn behind(place: Place, line: &InputLine<'_>) -> Place
    requires bytes { place.bytes + size_of (line_is line.now) < 2 ^ 64 }
    requires pairs { place.pairs + 1 < 2 ^ 64 }
    requires watches { place.watches + 1 < 2 ^ 64 }
    ensures next { place_is (line.now.number + 1) result ≡ next_place (place_is line.now.number place) (line_is line.now) }
    ensures bytes { result.bytes ≡ place.bytes + size_of (line_is line.now) }
    ensures pairs { result.pairs ≤ place.pairs + 1 }
    ensures watches { result.watches ≤ place.watches + 1 }
{
    Place {
        bytes: place.bytes + line.bytes.len() + usize::from(line.is_whole),
        pairs: place.pairs + u64::from(line.is_pair()),
        watches: place.watches + u64::from(is_watch(line)),
    }
}

// The event of the line at a place, or its first fault.
#[tactic(auto, unfolding(model_events::specs::Events::read_event))]
fn read_at(
    alloc: Global,
    scratch: &mut Vec<u8>,
    place: Place,
    line: &InputLine<'_>,
) -> Result<Event, LineFault>
    requires { place.bytes + size_of (line_is line.now) < 2 ^ 64 }
    ensures { Gives (λ event. event) result (read_event (place_is line.now.number place) (line_is line.now)) }
{
    if is_too_many(place, line) {
        return Err(LineFault::TooMany { line: line.number });
    }
    if line.is_too_long() {
        return Err(LineFault::TooLong { line: line.number });
    }
    read_event(alloc, scratch, line)
}

// The events of all lines, or the first fault.
fn read_each(alloc: Global, bytes: &[u8]) -> Result<Events, LineFault>
    ensures { Gives (λ events. events) result (events_of bytes.now) }
{
    let mut events = List::new(alloc);
    // Each text with an escape in it is built here.
    let mut scratch = Vec::new(alloc);
    let mut place = Place {
        bytes: 0,
        pairs: 0,
        watches: 0,
    };
    let mut number = 1;
    let mut left = bytes;
    while !left.is_empty() {
        let (line, rest) = first_line(number, left);
        let event = read_at(alloc, &mut scratch, place, &line)?;
        events.push(event)?;
        place = behind(place, &line);
        left = rest;
        number += 1;
    }
    Ok(events)
}

/// Reads lines of events: `W key`, `C key`, or `K key\=value`. An error is the first fault, with its line and its
/// place, or that memory ran out; nothing of what was read is kept then.
pub fn read_events(alloc: Global, bytes: &[u8]) -> Result<Events, LineFault>
    // What is read is spelled so, and within the limits.
    ensures found { IfOk result (λ events. AreEventsOf bytes.now events) }
    // What is spelled so is read, unless memory runs out.
    ensures only { (events : List Event) → AreEventsOf bytes.now events → Gives (λ events. events) result (Ok events) }
    // Which fault it is.
    ensures exact { Gives (λ events. events) result (events_of bytes.now) }
{
    read_each(alloc, bytes)
}
