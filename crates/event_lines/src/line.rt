//! Reading of the line of an event.

ghost use Rattle.std.specs.Prelude.{◌≡◌, ◌≤◌, length};
ghost use Rattle.model_lines.specs.Reading.{line_limit, text_of};
ghost use Rattle.dump_text.specs.InputLines.{line_is};
ghost use Rattle.dump_text.specs.Reading.{Gives};
ghost use Rattle.model_events.specs.Events.{event_at, is_watch, lone_key, key_within, judged};
ghost use Rattle.event_lines.specs.Lines.{judged_key};

use dump_text::{InputLine, LineFault, Stop, is_below_top, read_fields, read_text};
use key_bytes::Key;
use model_database::KEY_LIMIT;
use model_events::Event;
use std::alloc::Global;

/// Tells whether a line watches a key, which its first byte tells.
pub(crate) fn is_watch(line: &InputLine<'_>) -> bool
    ensures { result ≡ is_watch line.now.bytes.now }
{
    matches!(line.bytes, [b'W', ..])
}

/// Reads the event that a line spells, or returns the line's first fault. A text with an escape in it is built in the scratch
/// buffer, whatever that held.
#[tactic(auto, unfolding(model_events::specs::Events::event_at))]
pub(crate) fn read_event(
    alloc: Global,
    scratch: &mut Vec<u8>,
    line: &InputLine<'_>,
) -> Result<Event, LineFault>
    requires { length line.now.bytes.now ≤ line_limit }
    ensures { Gives (λ event. event) result (judged line.now.number (event_at (line_is line.now) line.now.bytes.now)) }
{
    match line.bytes {
        [b'W', b' ', fields @ ..] => {
            Ok(Event::Watch(read_lone_key(alloc, scratch, line, fields)?))
        }
        [b'C', b' ', fields @ ..] => {
            Ok(Event::Clear(read_lone_key(alloc, scratch, line, fields)?))
        }
        [b'K', b' ', fields @ ..] => Ok(Event::Put(read_fields(alloc, scratch, line, fields)?)),
        [b'W' | b'C' | b'K', ..] => Err(line.bad_at(1)),
        _ => Err(line.bad_at(0)),
    }
}

// The key of a line that has no value: it goes up to the line feed.
fn read_lone_key(
    alloc: Global,
    scratch: &mut Vec<u8>,
    line: &InputLine<'_>,
    fields: &[u8],
) -> Result<Key, LineFault>
    requires limit { length line.now.bytes.now ≤ line_limit }
    requires within { length fields.now ≤ length line.now.bytes.now }
    ensures { Gives (λ key. key) result (judged_key line.now.number (lone_key (line_is line.now) (text_of fields.now))) }
{
    let key = read_text(alloc, scratch, fields)?;
    if !is_below_top(key.bytes.as_slice()) {
        return Err(line.bad_at(2));
    }
    match key.stop {
        Stop::AtEnd if line.is_whole => key_within(line, key.bytes),
        Stop::AtEnd => Err(line.bad_at(line.bytes.len())),
        Stop::AtSeparator => Err(line.bad_at(line.bytes.len() - key.left.len() - 2)),
        Stop::AtFault => Err(line.bad_at(line.bytes.len() - key.left.len())),
    }
}

// The key, where it is within its limit.
fn key_within(line: &InputLine<'_>, key: Key) -> Result<Key, LineFault>
    ensures { Gives (λ key. key) result (judged_key line.now.number (key_within key)) }
{
    if key.len() > KEY_LIMIT {
        return Err(LineFault::TooLong { line: line.number });
    }
    Ok(key)
}
