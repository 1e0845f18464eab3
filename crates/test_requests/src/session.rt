//! A case of requests: a core takes them one at a time, and each reply is compared with the one that is wanted.

use crate::asking::{bytes, read_request, word};
use crate::counted_words::CountedWords;
use crate::loading::{load, read_random};
use crate::spell_fault::SpellFault;
use crate::spelling::{number, read_words};
use crate::telling::tell;
use client_core::Core;
use directory_types::Layer;
use fdb_calls::{Reply, Request};
use key_bytes::Bytes;
use std::alloc::{AllocError, Global};
use test_files::blocks::{is_line_feed, value_of};
use thiserror::Error;

/// A core, and what requests are made with.
pub struct Session {
    alloc: Global,
    core: Core,
    words: CountedWords,
    layer: Layer,
}

// Written out, so that a caller's proof sees one call where a session ends, and nothing of what lies in it.
impl Drop for Session {
    fn drop(self) {
        let Session {
            alloc: _,
            core: _,
            words: _,
            layer: _,
        } = self;
    }
}

/// What a line of a case gave in place of what it wants: the number of the line in its case, counted from 1, and what was answered, or
/// why the line can't be read.
#[derive(Debug, Drop, Error)]
pub enum Difference {
    #[error("line {line} is answered {}", .told.as_str())]
    Answered { line: usize, told: String },
    #[error("line {line}: {fault}")]
    Unread { line: usize, fault: SpellFault },
}

/// Runs a case, and returns its first difference.
pub fn run_requests(alloc: Global, block: &[u8]) -> Result<Option<Difference>, AllocError> {
    match begin(alloc, block) {
        Ok(session) => first_difference(session, block),
        Err(SpellFault::NoMemory) => Err(AllocError),
        Err(fault) => Ok(Some(Difference::Unread { line: 1, fault })),
    }
}

fn begin(alloc: Global, block: &[u8]) -> Result<Session, SpellFault> {
    let random = read_random(alloc, value_of(block, b"random "))?;
    let words = CountedWords::new(alloc, random.as_slice())?;
    let layer = layer_of(Bytes::from_slice(alloc, b"\xfe")?, Bytes::new(alloc), false);
    Ok(Session {
        alloc,
        core: load(alloc, block)?,
        words,
        layer,
    })
}

fn layer_of(node: Bytes, content: Bytes, manual: bool) -> Layer {
    Layer {
        node,
        content,
        manual,
    }
}

fn first_difference(mut session: Session, block: &[u8]) -> Result<Option<Difference>, AllocError> {
    let mut number: usize = 0;
    for line in block.split(is_line_feed) {
        number = number.saturating_add(1);
        let difference = session.take_line(number, line)?;
        if difference.is_some() {
            return Ok(difference);
        }
    }
    Ok(None)
}

impl Session {
    // Takes a line, and returns what differs.
    fn take_line(&mut self, number: usize, line: &[u8]) -> Result<Option<Difference>, AllocError> {
        if line.starts_with(b"#") {
            return Ok(None);
        }
        let (asked, wanted) = parts(line);
        match self.told_of(asked) {
            Ok(told) if told.as_bytes() == wanted => Ok(None),
            Ok(told) => Ok(Some(Difference::Answered { line: number, told })),
            Err(SpellFault::NoMemory) => Err(AllocError),
            Err(fault) => Ok(Some(Difference::Unread {
                line: number,
                fault,
            })),
        }
    }

    // What a line is answered. Only a request and what asks for a state are answered anything.
    fn told_of(&mut self, asked: &[u8]) -> Result<String, SpellFault> {
        let read = read_words(self.alloc, asked)?;
        let words = read.as_slice();
        match kind_of(word(words, 0)?) {
            Kind::Nothing => Ok(String::new(self.alloc)),
            Kind::Layer => self.set_layer(words),
            Kind::Last => self.show(self.core.last()),
            Kind::Drawn => self.show(self.words.drawn),
            Kind::Count => self.show_count(),
            Kind::Times => self.repeat(words),
            Kind::Request => self.reply_to(words),
        }
    }

    // Tells how many pairs the core has.
    fn show_count(&self) -> Result<String, SpellFault> {
        let mut count = 0u64;
        for _ in self.core.pairs_left() {
            count = count.wrapping_add(1);
        }
        self.show(count)
    }

    // Takes a request so many times, and returns the last reply, or the first that differs from the one before.
    fn repeat(&mut self, words: &[Bytes]) -> Result<String, SpellFault> {
        let request = words.get(2..).unwrap_or(&[]);
        let mut told = self.reply_to(request)?;
        for _ in 1..number::<u32>(word(words, 1)?)? {
            let next = self.reply_to(request)?;
            if next.as_str() != told.as_str() {
                return Ok(next);
            }
            told = next;
        }
        Ok(told)
    }

    fn show(&self, number: u64) -> Result<String, SpellFault> {
        Ok(format!(in self.alloc; "{number}")?)
    }

    fn set_layer(&mut self, words: &[Bytes]) -> Result<String, SpellFault> {
        let manual = word(words, 3)? == b"manual".as_slice();
        self.layer = layer_of(bytes(words, 1)?, bytes(words, 2)?, manual);
        Ok(String::new(self.alloc))
    }

    // Takes a request of a machine.
    fn reply_to(&mut self, words: &[Bytes]) -> Result<String, SpellFault> {
        let machine = number(word(words, 0)?)?;
        let request = read_request(self.alloc, &self.layer, words.get(1..).unwrap_or(&[]))?;
        let reply = apply(&mut self.core, machine, &request, &mut self.words);
        Ok(tell(self.alloc, &reply)?)
    }
}

fn apply(core: &mut Core, machine: u16, request: &Request, words: &mut CountedWords) -> Reply {
    if core.applied() >= 1_000_000 {
        return Reply::NoMemory;
    }
    core.apply(machine, request, words)
}

// What a line asks for, by its first word.
#[derive(Clone, Copy)]
enum Kind {
    Nothing,
    Layer,
    Last,
    Drawn,
    Count,
    Times,
    Request,
}

const KINDS: &[(&[u8], Kind)] = &[
    (b"", Kind::Nothing),
    (b"case", Kind::Nothing),
    (b"api", Kind::Nothing),
    (b"window", Kind::Nothing),
    (b"pair", Kind::Nothing),
    (b"numbers", Kind::Nothing),
    (b"random", Kind::Nothing),
    (b"layer", Kind::Layer),
    (b"last", Kind::Last),
    (b"drawn", Kind::Drawn),
    (b"count", Kind::Count),
    (b"times", Kind::Times),
];

fn kind_of(word: &[u8]) -> Kind {
    for (known, kind) in KINDS {
        if *known == word {
            return *kind;
        }
    }
    Kind::Request
}

// What stands before ` => ` in a line, and what stands behind.
fn parts(line: &[u8]) -> (&[u8], &[u8]) {
    for place in 0..line.len() {
        let (before, rest) = line.split_at(place);
        if let Some(after) = rest.strip_prefix(b" => ") {
            return (before, after);
        }
    }
    (line, b"")
}
