//! A case of the program: the words and the input that it is run with, and what it is to answer.

use fdb_program::ArgWords;
use std::alloc::{AllocError, Global};
use std::fs;
use std::rt::Files;
use test_files::blocks::{is_line_feed, value_of};
use thiserror::Error;

/// A case of the program.
#[derive(Debug, Drop)]
pub struct Case {
    pub words: ArgWords,
    pub input: Vec<u8>,
    pub out: Vec<u8>,
    pub err: Vec<u8>,
    pub status: u8,
}

/// Why a case can't be read.
#[derive(Debug, Drop, Error)]
pub enum CaseFault {
    #[error("a line of it says nothing")]
    Line,
    #[error("its status is no number")]
    Status,
    #[error("a file that it names can't be read")]
    File,
    #[error("out of memory")]
    NoMemory,
}

impl From<AllocError> for CaseFault {
    fn from(_e: AllocError) -> CaseFault {
        CaseFault::NoMemory
    }
}

/// Reads a case from its lines, and from the files that they name.
pub fn read_case<R: Files + AllocGlobal>(rt: &R, block: &[u8]) -> Result<Case, CaseFault> {
    if !block.split(is_line_feed).all(is_known) {
        return Err(CaseFault::Line);
    }
    let status = status_of(block)?;
    let words = words_of(rt.alloc(), block)?;
    let input = text_of(rt, block, b'<', b"in ")?;
    let out = text_of(rt, block, b'>', b"out ")?;
    let err = marked(rt.alloc(), block, b'!')?;
    Ok(Case {
        words,
        input,
        out,
        err,
        status,
    })
}

// Whether a line is one of those that a case may have.
fn is_known(line: &[u8]) -> bool {
    match line {
        [] | [b'#', ..] => true,
        [b'<' | b'>' | b'!', b' ' | b'-', ..] => true,
        _ => TAGS.iter().any(|tag| line.starts_with(*tag)),
    }
}

const TAGS: [&[u8]; 6] = [b"case ", b"words ", b"word ", b"in ", b"out ", b"status "];

// The status that is wanted: 0 where none is said.
fn status_of(block: &[u8]) -> Result<u8, CaseFault> {
    let text = str::from_utf8(value_of(block, b"status ").unwrap_or(b"0"));
    match text.unwrap_or("").parse() {
        Ok(status) => Ok(status),
        Err(_) => Err(CaseFault::Status),
    }
}

// The words of the command line.
fn words_of(alloc: Global, block: &[u8]) -> Result<ArgWords, CaseFault> {
    let mut words = ArgWords::new(alloc);
    for line in block.split(is_line_feed) {
        add_words(&mut words, line)?;
    }
    Ok(words)
}

// Adds the words of a line: `words` has some, apart by single spaces, and `word` has one, which is all the rest of the line.
fn add_words(words: &mut ArgWords, line: &[u8]) -> Result<(), CaseFault> {
    if let Some(word) = line.strip_prefix(b"word ") {
        add_word(words, word)?;
    }
    if let Some(some) = line.strip_prefix(b"words ") {
        for word in some.split(|byte| *byte == b' ') {
            add_word(words, word)?;
        }
    }
    Ok(())
}

fn add_word(words: &mut ArgWords, word: &[u8]) -> Result<(), CaseFault> {
    let Ok(word) = str::from_utf8(word) else {
        return Err(CaseFault::Line);
    };
    words.push(word)?;
    Ok(())
}

// What a file has that the case names behind `tag`, or else what stands in the lines with this mark.
fn text_of<R: Files + AllocGlobal>(
    rt: &R,
    block: &[u8],
    mark: u8,
    tag: &[u8],
) -> Result<Vec<u8>, CaseFault> {
    match value_of(block, tag) {
        Some(name) => read_file(rt, name),
        None => Ok(marked(rt.alloc(), block, mark)?),
    }
}

fn read_file<R: Files + AllocGlobal>(rt: &R, name: &[u8]) -> Result<Vec<u8>, CaseFault> {
    let Ok(name) = str::from_utf8(name) else {
        return Err(CaseFault::File);
    };
    match fs::read(rt, name) {
        Ok(bytes) => Ok(bytes),
        Err(_) => Err(CaseFault::File),
    }
}

// The lines with a mark, without it.
fn marked(alloc: Global, block: &[u8], mark: u8) -> Result<Vec<u8>, AllocError> {
    let mut text = Vec::new(alloc);
    for line in block.split(is_line_feed) {
        add_marked(&mut text, line, mark)?;
    }
    Ok(text)
}

// Adds a line with a mark, without it. A line feed ends it, but where `-` stands behind the mark.
fn add_marked(text: &mut Vec<u8>, line: &[u8], mark: u8) -> Result<(), AllocError> {
    if let Some(rest) = line.strip_prefix(&[mark, b' ']) {
        text.extend_from_slice(rest)?;
        text.push(b'\n')?;
    }
    if let Some(rest) = line.strip_prefix(&[mark, b'-']) {
        text.extend_from_slice(rest)?;
    }
    Ok(())
}
