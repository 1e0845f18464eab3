//! What is printed of the calls of layers.

ghost use Rattle.std.specs.Prelude.{◌≡◌, ◌++◌, flat_map, OnOk};
ghost use Rattle.model_shell.specs.Recipes.{item_said, count_text, counts_said, bytes_said, size_said};

use crate::text::{add_line, add_token};
use itoa::Buffer;
use key_bytes::Bytes;
use model_recipes::{Count, Counts};
use std::alloc::AllocError;

/// Adds the line of an item that was taken from a queue, or that there was none.
#[tactic(auto, unfolding(model_shell::specs::Recipes::item_said, model_shell::specs::Recipes::bytes_said))]
pub fn add_item(to: &mut Bytes, item: &Option<Bytes>) -> Result<(), AllocError>
    ensures { OnOk result (to.new ≡ to.old ++ item_said item.now) }
{
    match item {
        None => add_line(to, b"empty"),
        Some(value) => add_bytes(to, value.as_slice()),
    }
}

/// Adds the line of bytes.
#[tactic(auto, unfolding(model_shell::specs::Recipes::bytes_said))]
pub fn add_bytes(to: &mut Bytes, bytes: &[u8]) -> Result<(), AllocError>
    ensures { OnOk result (to.new ≡ to.old ++ bytes_said bytes.now) }
{
    add_token(to, bytes)?;
    to.extend(b"\n")
}

/// Adds the line of a number of bytes.
#[tactic(auto, unfolding(model_shell::specs::Recipes::size_said))]
pub fn add_size(to: &mut Bytes, size: u64) -> Result<(), AllocError>
    ensures { OnOk result (to.new ≡ to.old ++ size_said size) }
{
    let mut buffer = Buffer::new();
    add_line(to, buffer.format(size).as_bytes())
}

// Adds the line of a value and its count.
#[tactic(auto, unfolding(model_shell::specs::Recipes::count_text))]
fn add_count(to: &mut Bytes, count: &Count) -> Result<(), AllocError>
    ensures { OnOk result (to.new ≡ to.old ++ count_text count.now) }
{
    add_token(to, count.value.as_slice())?;
    to.extend(b" ")?;
    let mut buffer = Buffer::new();
    add_line(to, buffer.format(count.count).as_bytes())
}

// Adds the line of each count.
fn add_each_count(to: &mut Bytes, counts: &[Count]) -> Result<(), AllocError>
    ensures { OnOk result (to.new ≡ to.old ++ flat_map count_text counts.now) }
{
    for count in counts {
        add_count(to, count)?;
    }
    Ok(())
}

/// Adds the lines of values with their counts, or that there is none.
#[tactic(auto, unfolding(model_shell::specs::Recipes::counts_said))]
pub fn add_counts(to: &mut Bytes, counts: &Counts) -> Result<(), AllocError>
    ensures { OnOk result (to.new ≡ to.old ++ counts_said counts.now) }
{
    if counts.is_empty() {
        return add_line(to, b"empty");
    }
    add_each_count(to, counts.as_slice())
}
