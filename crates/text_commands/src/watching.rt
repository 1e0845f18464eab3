//! The command `watch`: when each watch fires.

ghost use Rattle.std.specs.Prelude.{◌≡◌, ℕ, List, ◌+◌, ◌^◌, ◌<◌, ◌≤◌, ◌∷◌, ◌++◌, [], codes, count_by, decimal, length, map, IfOk, IfErr, OnOk};
ghost use Rattle.model_lines.specs.Printing.{line};
ghost use Rattle.model_lines.specs.Reading.{input_limit};
ghost use Rattle.dump_text.specs.Reading.{Fails};
ghost use Rattle.dump_text.specs.declared.fault.LineFault.TheVariants.{NoMemory};
ghost use Rattle.model_events.specs.declared.event.Event.{Event};
ghost use Rattle.model_events.specs.Events.{events_of, is_watch_event, AreEventsOf};
ghost use Rattle.text_commands.specs.Firings.{firing_lines, firing_text, history_of, made_from, AreFirings, IsWatched};
ghost use Rattle.text_commands.specs.Scenes.{firing_of};

use crate::scene::Scene;
use event_lines::{Events, LineFault, read_events};
use itoa::Buffer;
use std::alloc::{AllocError, Global};
use watch_core::WatchEnd;

/// Tells when each watch among lines of events fires: for the watch of each number the line of the version, or of a dash. An
/// error is the first fault of the lines, or that memory ran out.
pub fn watch(alloc: Global, bytes: &[u8]) -> Result<Vec<u8>, LineFault>
    // What comes out says for each watch when it fires.
    ensures found { IfOk result (λ lines. IsWatched bytes.now lines.items) }
    // Lines of events are answered, unless memory runs out.
    ensures only { (events : List Event) → AreEventsOf bytes.now events → IfErr result (λ fault. fault ≡ NoMemory) }
    // Which fault it is.
    ensures exact { IfErr result (λ fault. Fails fault (events_of bytes.now)) }
    // Bytes behind the first one past the limit change nothing.
    ensures past { (rest : List ℕ) → input_limit < length bytes.now
        → IfErr result (λ fault. Fails fault (events_of (bytes.now ++ rest))) }
{
    let events = read_events(alloc, bytes)?;
    let ends = ends_of(alloc, &events)?;
    Ok(firing_lines(alloc, &ends)?)
}

// How each watch among events ends, where each commit among them makes the next version.
fn ends_of(alloc: Global, events: &Events) -> Result<Vec<WatchEnd>, AllocError>
    requires watches { count_by is_watch_event events.now ≤ 10000 }
    requires versions { length events.now + 1 < 2 ^ 63 }
    ensures { IfOk result (λ ends. AreFirings (history_of events.now) (made_from 0 events.now) (map firing_of ends.items)) }
{
    let mut scene = Scene::new(alloc);
    for event in events.as_slice() {
        scene.happen(event)?;
    }
    scene.close()
}

// The lines of ends, whose numbers rise from 0.
fn firing_lines(alloc: Global, ends: &[WatchEnd]) -> Result<Vec<u8>, AllocError>
    ensures { IfOk result (λ lines. lines.items ≡ firing_lines 0 (map firing_of ends.now)) }
{
    let mut lines = Vec::new(alloc);
    for (number, end) in ends.iter().enumerate() {
        add_firing_line(&mut lines, number as u64, *end)?;
    }
    Ok(lines)
}

// Adds the line of an end.
fn add_firing_line(to: &mut Vec<u8>, number: u64, end: WatchEnd) -> Result<(), AllocError>
    ensures { OnOk result (to.new.items
        ≡ to.old.items ++ line (codes "F" ∷ decimal number ∷ firing_text (firing_of end) ∷ [])) }
{
    to.extend_from_slice(b"F ")?;
    add_number(to, number)?;
    to.push(b' ')?;
    match end {
        WatchEnd::Changed(version) => add_number(to, version)?,
        WatchEnd::Cancelled => to.push(b'-')?,
    }
    to.push(b'\n')?;
    Ok(())
}

// Adds the digits of a number.
fn add_number(to: &mut Vec<u8>, number: u64) -> Result<(), AllocError>
    ensures { OnOk result (to.new.items ≡ to.old.items ++ decimal number) }
{
    let mut buffer = Buffer::new();
    to.extend_from_slice(buffer.format(number).as_bytes())
}
