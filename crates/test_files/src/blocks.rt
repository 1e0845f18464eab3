//! The cases of a text. Each begins with a line `case NAME`, and goes on to the next such line.

ghost use Rattle.std.specs.Prelude.{◌≡◌, ◌<◌, ◌==◌, IsUtf8, IfOk, codes, length, option_copied};
ghost use Rattle.test_files.specs.Blocks.{begins_case, block_of, name_in, starts_of, value_behind};

use std::alloc::{AllocError, Global};

const CASE: &[u8] = b"case ";

/// Returns whether a line ends here.
pub fn is_line_feed(byte: &u8) -> bool
    ensures { result ≡ (byte.now == 10) }
{
    *byte == b'\n'
}

/// Returns the places where cases begin.
pub fn starts(alloc: Global, text: &[u8]) -> Result<Vec<usize>, AllocError>
    ensures { IfOk result (λ places. places.items ≡ starts_of text.now) }
{
    let mut starts = Vec::new(alloc);
    for place in 0..text.len() {
        if begins_case(text, place) {
            starts.push(place)?;
        }
    }
    Ok(starts)
}

// Whether a case begins at this place.
fn begins_case(text: &[u8], place: usize) -> bool
    requires { place < length text.now }
    ensures { result ≡ begins_case text.now place }
{
    (place == 0 || is_line_feed(&text[place - 1])) && text[place..].strip_prefix(CASE).is_some()
}

/// Returns the case that begins at the place of this number.
pub fn block<'a>(text: &'a [u8], starts: &[usize], number: usize) -> &'a [u8]
    ensures { result.now ≡ block_of text.now starts.now number }
{
    let start = starts.get(number).copied().unwrap_or(0);
    let end = starts
        .get(number.saturating_add(1))
        .copied()
        .unwrap_or(text.len());
    text.get(start..end).unwrap_or(b"")
}

/// Returns the name of a case.
pub fn name_of(block: &[u8]) -> &str
    ensures named { IsUtf8 (name_in block.now) → result.now ≡ name_in block.now }
    ensures other { ¬ IsUtf8 (name_in block.now) → result.now ≡ codes "?" }
{
    str::from_utf8(value_of(block, CASE).unwrap_or(b"")).unwrap_or("?")
}

/// Returns what stands behind `tag` in the first line that begins with it.
pub fn value_of<'a>(block: &'a [u8], tag: &[u8]) -> Option<&'a [u8]>
    ensures { option_copied result ≡ value_behind tag.now block.now }
{
    for line in block.split(is_line_feed) {
        if let Some(value) = line.strip_prefix(tag) {
            return Some(value);
        }
    }
    None
}
