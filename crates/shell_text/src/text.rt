//! What is printed.

ghost use Rattle.std.specs.Prelude.{◌≡◌, ◌++◌, flat_map, OnOk, codes, decimal};
ghost use Rattle.std.specs.Fmt.{signed_decimal};
ghost use Rattle.model_shell.specs.Tokens.{token};
ghost use Rattle.model_shell.specs.Requests.{printed_line, error_line, pair_text, missing_text, committed_text, pairs_text, value_said, pairs_said, version_said};

use dump_text::write_printable;
use fdb_calls::Reply;
use itoa::Buffer;
use key_bytes::{Bytes, Pair, Pairs};
use model_database::Code;
use std::alloc::AllocError;

/// Adds the token of bytes.
#[tactic(auto, unfolding(model_shell::specs::Tokens::token))]
pub(crate) fn add_token(to: &mut Bytes, bytes: &[u8]) -> Result<(), AllocError>
    ensures { OnOk result (to.new ≡ to.old ++ token bytes.now) }
{
    match bytes {
        [] => to.extend(b"\\e"),
        [_, ..] => write_printable(to, bytes, Some(b' ')),
    }
}

/// Adds a line of this text.
pub fn add_line(to: &mut Bytes, text: &[u8]) -> Result<(), AllocError>
    ensures { OnOk result (to.new ≡ to.old ++ printed_line text.now) }
{
    to.extend(text)?;
    to.extend(b"\n")
}

/// Adds the line of an error.
pub fn add_error(to: &mut Bytes, text: &[u8]) -> Result<(), AllocError>
    ensures { OnOk result (to.new ≡ to.old ++ error_line text.now) }
{
    to.extend(b"ERROR: ")?;
    add_line(to, text)
}

/// Adds the line of a code.
pub fn add_code(to: &mut Bytes, code: Code) -> Result<(), AllocError>
    ensures { OnOk result (to.new ≡ to.old ++ error_line (decimal code.0)) }
{
    let mut buffer = Buffer::new();
    add_error(to, buffer.format(code.0).as_bytes())
}

// Adds the line of a key and its value.
#[tactic(auto, unfolding(model_shell::specs::Requests::pair_text))]
fn add_pair(to: &mut Bytes, key: &[u8], value: &[u8]) -> Result<(), AllocError>
    ensures { OnOk result (to.new ≡ to.old ++ pair_text key.now value.now) }
{
    add_token(to, key)?;
    to.extend(b" is ")?;
    add_token(to, value)?;
    to.extend(b"\n")
}

// Adds the line of a key that has no value.
#[tactic(auto, unfolding(model_shell::specs::Requests::missing_text))]
fn add_missing(to: &mut Bytes, key: &[u8]) -> Result<(), AllocError>
    ensures { OnOk result (to.new ≡ to.old ++ missing_text key.now) }
{
    add_token(to, key)?;
    to.extend(b": not found")?;
    to.extend(b"\n")
}

// Adds a number with its sign.
fn add_signed(to: &mut Bytes, number: i64) -> Result<(), AllocError>
    ensures { OnOk result (to.new ≡ to.old ++ signed_decimal number) }
{
    let mut buffer = Buffer::new();
    to.extend(buffer.format(number).as_bytes())
}

// Adds a number with its sign, and what ends its line.
fn add_closed(to: &mut Bytes, number: i64) -> Result<(), AllocError>
    ensures { OnOk result (to.new ≡ to.old ++ (signed_decimal number ++ printed_line (codes ")"))) }
{
    add_signed(to, number)?;
    add_line(to, b")")
}

// Adds the line of the version that a commit made.
#[tactic(auto, unfolding(model_shell::specs::Requests::committed_text))]
fn add_committed(to: &mut Bytes, version: i64) -> Result<(), AllocError>
    ensures { OnOk result (to.new ≡ to.old ++ committed_text version) }
{
    to.extend(b"Committed (")?;
    add_closed(to, version)
}

// Adds the line of each pair.
fn add_each(to: &mut Bytes, pairs: &[Pair]) -> Result<(), AllocError>
    ensures { OnOk result (to.new ≡ to.old ++ flat_map (λ pair. pair_text pair.key pair.value) pairs.now) }
{
    for pair in pairs {
        add_pair(to, pair.key.as_slice(), pair.value.as_slice())?;
    }
    Ok(())
}

// Adds the lines of pairs, or that there is none.
#[tactic(auto, using(crate::proofs::Entries::each_entry))]
fn add_pairs(to: &mut Bytes, pairs: &Pairs) -> Result<(), AllocError>
    ensures { OnOk result (to.new ≡ to.old ++ pairs_text pairs.now) }
{
    if pairs.is_empty() {
        return add_line(to, b"empty");
    }
    add_each(to, pairs.as_slice())
}

/// Adds what is printed of the reply to a read of this key.
pub fn add_value(to: &mut Bytes, key: &[u8], reply: &Reply) -> Result<(), AllocError>
    ensures { OnOk result (to.new ≡ to.old ++ value_said key.now reply.now) }
{
    match reply {
        Reply::Value(Some(value)) => add_pair(to, key, value.as_slice()),
        Reply::Value(None) => add_missing(to, key),
        _ => Ok(()),
    }
}

/// Adds what is printed of the reply to a read of a range.
pub fn add_range(to: &mut Bytes, reply: &Reply) -> Result<(), AllocError>
    ensures { OnOk result (to.new ≡ to.old ++ pairs_said reply.now) }
{
    match reply {
        Reply::PairsAre(pairs) => add_pairs(to, pairs),
        _ => Ok(()),
    }
}

/// Adds what is printed of the version that a commit made.
pub fn add_version(to: &mut Bytes, reply: &Reply) -> Result<(), AllocError>
    ensures { OnOk result (to.new ≡ to.old ++ version_said reply.now) }
{
    match reply {
        Reply::Version(version) => add_committed(to, *version),
        _ => Ok(()),
    }
}
