//! What a case of requests begins with: what the database is opened with, its pairs, and the random words.

use crate::asking::{bytes, pair_of, word};
use crate::spell_fault::SpellFault;
use crate::spelling::{number, read_words};
use client_core::Core;
use key_bytes::{Bytes, Pair, Pairs};
use model_commands::RunArgs;
use model_database::{Api, DatabaseOptions};
use std::alloc::{AllocError, Global};
use test_files::blocks::{is_line_feed, value_of};

/// Loads the pairs of a case under its API version and its window of versions.
pub fn load(alloc: Global, block: &[u8]) -> Result<Core, SpellFault> {
    let options = DatabaseOptions {
        api: read_api(value_of(block, b"api "))?,
        window: read_window(value_of(block, b"window "))?,
    };
    let pairs = read_pairs(alloc, block)?;
    Ok(Core::load(alloc, &arguments(alloc, options)?, pairs)?)
}

// The API version of a line `api`; 630 where there is none.
fn read_api(line: Option<&[u8]>) -> Result<Api, SpellFault> {
    match line.unwrap_or(b"630") {
        b"630" => Ok(Api::V630),
        b"500" => Ok(Api::V500),
        _ => Err(SpellFault::Unknown),
    }
}

// The window of versions of a line `window`; none where there is no line.
fn read_window(line: Option<&[u8]>) -> Result<Option<u32>, SpellFault> {
    match line {
        Some(line) => Ok(Some(number(line)?)),
        None => Ok(None),
    }
}

fn arguments(alloc: Global, options: DatabaseOptions) -> Result<RunArgs, AllocError> {
    Ok(RunArgs {
        prefix: Bytes::from_slice(alloc, b"p")?,
        api: options.api,
        seed: 0,
        polls: 10,
        window: options.window,
    })
}

fn read_pairs(alloc: Global, block: &[u8]) -> Result<Pairs, SpellFault> {
    let mut pairs = Pairs::new(alloc);
    for line in block.split(is_line_feed) {
        add_pairs(alloc, &mut pairs, line)?;
    }
    Ok(pairs)
}

// A line `pair` has a key and a value. A line `numbers` has a prefix and two numbers: a key for each number from the first up to the
// second, that left out, is the prefix and the number as a packed tuple, and has the empty value.
fn add_pairs(alloc: Global, pairs: &mut Pairs, line: &[u8]) -> Result<(), SpellFault> {
    if let Some(rest) = line.strip_prefix(b"pair ") {
        let words = read_words(alloc, rest)?;
        pairs.push(pair_of(words.as_slice())?)?;
    }
    if let Some(rest) = line.strip_prefix(b"numbers ") {
        let words = read_words(alloc, rest)?;
        add_numbers(alloc, pairs, words.as_slice())?;
    }
    Ok(())
}

fn add_numbers(alloc: Global, pairs: &mut Pairs, words: &[Bytes]) -> Result<(), SpellFault> {
    let prefix = bytes(words, 0)?;
    let first: u32 = number(word(words, 1)?)?;
    let end: u32 = number(word(words, 2)?)?;
    for number in first..end {
        pairs.push(numbered(alloc, &prefix, number)?)?;
    }
    Ok(())
}

// The pair of a number: the bytes of a packed integer are those of the number without leading zeros, behind how many they are.
fn numbered(alloc: Global, prefix: &Bytes, number: u32) -> Result<Pair, AllocError> {
    let bytes = number.to_be_bytes();
    let zeros = (number.leading_zeros() / 8) as usize;
    let bytes = bytes.as_slice().get(zeros..).unwrap_or(b"");
    let mut key = prefix.copy()?;
    key.extend(&[0x14u8.saturating_add(u8::try_from(bytes.len()).unwrap_or(0))])?;
    key.extend(bytes)?;
    Ok(Pair {
        key,
        value: Bytes::new(alloc),
    })
}

/// Reads the first random words of a case: those of its line `random`. All behind them are 0.
pub fn read_random(alloc: Global, line: Option<&[u8]>) -> Result<Vec<u32>, SpellFault> {
    let mut random = Vec::new(alloc);
    let Some(line) = line else {
        return Ok(random);
    };
    let words = read_words(alloc, line)?;
    for word in words.iter() {
        random.push(number(word.as_slice())?)?;
    }
    Ok(random)
}
