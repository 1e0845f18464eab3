//! The lines of the shell, both ways.

use fdb_calls::Reply;
use key_bytes::{Bytes, Pairs};
use laws_shell::words_spell_tokens_and_numbers;
use model_database::Code;
use model_recipes::{Count, Counts};
use model_shell::{Command, Recipe};
use shell_text::{
    add_bytes, add_code, add_counts, add_error, add_item, add_line, add_range, add_size, add_value,
    add_version, command_of,
};
use std::alloc::{AllocError, Global};
use std::test::Fail;

// What is printed of replies, of a commit and of refusals.
fn add_replies(alloc: Global, to: &mut Bytes) -> Result<(), AllocError> {
    add_line(to, b"Done")?;
    add_error(to, b"no transaction")?;
    add_code(to, Code(1020))?;
    add_value(to, b"a b", &Reply::Value(None))?;
    add_range(to, &Reply::PairsAre(Pairs::new(alloc)))?;
    add_version(to, &Reply::Version(-1))
}

// What is printed of what layers answer.
fn add_answers(alloc: Global, to: &mut Bytes) -> Result<(), AllocError> {
    add_item(to, &None)?;
    add_bytes(to, b"")?;
    add_size(to, 3)?;
    let mut counts = Counts::new(alloc);
    let value = Bytes::from_slice(alloc, b"v")?;
    counts.push(Count { value, count: 2 })?;
    add_counts(to, &counts)
}

const PRINTED: &[u8] =
    b"Done\nERROR: no transaction\nERROR: 1020\na\\x20b: not found\nempty\nCommitted (-1)\n\
    empty\n\\e\n3\nv 2\n";

#[test]
fn replies_and_answers_are_printed(rt: HostRuntime) -> Result<(), Fail> {
    let mut text = Bytes::new(rt.alloc());
    add_replies(rt.alloc(), &mut text)?;
    add_answers(rt.alloc(), &mut text)?;
    assert_eq!(rt; text.as_slice(), PRINTED);
    Ok(())
}

#[test]
fn a_line_is_a_command(rt: HostRuntime) {
    let command = command_of(rt.alloc(), b"get k");
    assert!(rt; matches!(&command, Ok(Command::Get { key }) if key.as_slice() == b"k".as_slice()));
    let queue = Bytes::new(rt.alloc());
    assert!(rt; Recipe::Pop { queue }.is_writing());
}

// The law of the words of lines is called once.
#[test]
fn the_law_of_words_does_nothing(rt: HostRuntime) -> Result<(), Fail> {
    words_spell_tokens_and_numbers();
    Ok(())
}
