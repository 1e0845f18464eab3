//! Sources, sinks, whole inputs and outputs, and random words.

use outside::{
    CleanSink, CleanSource, Gate, ListWords, MemSink, MemSource, OpenGate, PcgWords, Put,
    ReadOutcome, ReadSource, Sink, Source, Taken, Words, WriteSink, read_all, write_all,
};
use std::alloc::{AllocError, Global};
use std::io;
use std::io::{ErrorKind, Read, Write};
use std::test::Fail;

// The first read, of at most four bytes, that is answered otherwise, or after which other bytes are in front.
fn first_other_read<S: Source>(source: &mut S, reads: &[(Taken, &[u8])]) -> Option<usize> {
    let mut buf = [0u8; 4];
    for (place, (taken, front)) in reads.iter().enumerate() {
        if source.read(&mut buf) != *taken || !buf.starts_with(front) {
            return Some(place);
        }
    }
    None
}

// The first write that is answered otherwise.
fn first_other_write<K: Sink>(sink: &mut K, writes: &[(&[u8], Put)]) -> Option<usize> {
    for (place, (piece, put)) in writes.iter().enumerate() {
        if piece.is_empty() || sink.write(piece) != *put {
            return Some(place);
        }
    }
    None
}

// ---- in memory

const READS: &[(Taken, &[u8])] = &[
    (Taken::Got(3), b"abc"),
    (Taken::Failed, b""),
    (Taken::Got(3), b"def"),
    (Taken::Got(2), b"gh"),
    (Taken::End, b""),
];

fn first_other_of_source(alloc: Global) -> Result<Option<usize>, AllocError> {
    let mut source = MemSource::new(alloc, b"abcdefgh", 3, &[2])?;
    Ok(first_other_read(&mut source, READS))
}

const WRITES: &[(&[u8], Put)] = &[
    (b"abcd", Put::Failed),
    (b"abcd", Put::Took(3)),
    (b"defg", Put::Took(2)),
    (b"fg", Put::Failed),
];

// The first write that is answered otherwise, and whether the sink has `abcde` then.
fn first_other_of_sink(alloc: Global) -> Result<(Option<usize>, bool), AllocError> {
    let mut sink = MemSink::new(alloc, 5, 3, &[1])?;
    let other = first_other_write(&mut sink, WRITES);
    Ok((other, sink.written() == b"abcde".as_slice()))
}

// Whether a source and a sink that never fail give and take two bytes of three at once.
fn are_clean(alloc: Global) -> Result<bool, AllocError> {
    let mut source = CleanSource::new(alloc, b"abc", 2)?;
    let reads: [(Taken, &[u8]); 2] = [(Taken::Got(2), b"ab"), (Taken::Got(1), b"c")];
    let is_given = first_other_read(&mut source, &reads).is_none();
    Ok(is_given && CleanSink::new(2).write(b"abc") == Put::Took(2))
}

#[test]
fn streams_in_memory(rt: HostRuntime) -> Result<(), Fail> {
    OpenGate.pass(0, 0);
    assert_eq!(rt; first_other_of_source(rt.alloc())?, None);
    assert_eq!(rt; first_other_of_sink(rt.alloc())?, (None, true));
    assert!(rt; are_clean(rt.alloc())?);
    Ok(())
}

// ---- whole inputs and outputs

// What reading ten bytes up to a limit answers, and how many bytes of them; `x` where memory is wanting.
fn whole(alloc: Global, failing: &[u64], limit: usize) -> Result<(u8, usize), AllocError> {
    let mut source = MemSource::new(alloc, b"0123456789", 3, failing)?;
    Ok(match read_all(alloc, &mut source, limit) {
        ReadOutcome::Whole(bytes) => (b'w', bytes.len()),
        ReadOutcome::Full(bytes) => (b'f', bytes.len()),
        ReadOutcome::Failed => (b'-', 0),
        ReadOutcome::NoMemory => (b'x', 0),
    })
}

// Whether a write that fails ends the writing of twelve bytes after the first six.
fn stops(alloc: Global) -> Result<bool, AllocError> {
    let mut sink = MemSink::new(alloc, 20, 6, &[2])?;
    Ok(!write_all(&mut sink, b"012345678901") && sink.written() == b"012345".as_slice())
}

#[test]
fn whole_transfers(rt: HostRuntime) -> Result<(), Fail> {
    assert_eq!(rt; whole(rt.alloc(), &[], 11)?, (b'w', 10));
    assert_eq!(rt; whole(rt.alloc(), &[], 10)?, (b'f', 10));
    assert_eq!(rt; whole(rt.alloc(), &[3], 11)?, (b'-', 0));
    assert!(rt; stops(rt.alloc())?);
    Ok(())
}

// ---- over std's reader and writer

#[derive(Drop)]
struct Broken;

impl Read for Broken {
    fn read(&mut self, _buf: &mut [u8]) -> io::Result<usize> {
        Err(io::Error::from(ErrorKind::Other))
    }
}

impl Write for Broken {
    fn write(&mut self, _buf: &[u8]) -> io::Result<usize> {
        Err(io::Error::from(ErrorKind::Other))
    }

    fn flush(&mut self) -> io::Result<()> {
        Ok(())
    }
}

fn reader_is_read(alloc: Global) -> bool {
    let mut source = ReadSource::new(b"abc".as_slice());
    match read_all(alloc, &mut source, 10) {
        ReadOutcome::Whole(bytes) => bytes.as_slice() == b"abc".as_slice()
            && source.into_inner().is_empty(),
        _ => false,
    }
}

fn writer_is_written(alloc: Global) -> bool {
    let mut sink = WriteSink::new(Vec::new(alloc));
    write_all(&mut sink, b"abc") && sink.into_inner().as_slice() == b"abc".as_slice()
}

// A writer of four bytes takes as many, and no empty write is a success.
const FULL: &[(&[u8], Put)] = &[(b"abcdef", Put::Took(4)), (b"ef", Put::Failed)];

fn first_other_where_full() -> Option<usize> {
    let mut buf = [0u8; 4];
    first_other_write(&mut WriteSink::new(buf.as_mut_slice()), FULL)
}

// Whether the errors of a reader and of a writer are failures.
fn errors_fail() -> bool {
    let mut source = ReadSource::new(Broken);
    let mut sink = WriteSink::new(Broken);
    first_other_read(&mut source, &[(Taken::Failed, b"")]).is_none()
        && first_other_write(&mut sink, &[(b"a", Put::Failed)]).is_none()
}

#[test]
fn readers_and_writers(rt: HostRuntime) {
    assert!(rt; reader_is_read(rt.alloc()));
    assert!(rt; writer_is_written(rt.alloc()));
    assert_eq!(rt; first_other_where_full(), None);
    assert!(rt; errors_fail());
}

// ---- random words

// The first of the next words that is another.
fn first_other_word<W: Words>(words: &mut W, wanted: &[u32]) -> Option<usize> {
    for (place, word) in wanted.iter().enumerate() {
        if words.next() != *word {
            return Some(place);
        }
    }
    None
}

fn first_other_listed(alloc: Global) -> Result<Option<usize>, AllocError> {
    let mut words = ListWords::new(alloc, &[7, u32::MAX])?;
    Ok(first_other_word(&mut words, &[7, u32::MAX, 0, 0]))
}

// Seeds, and the first three words of each, as the generator's description gives them.
const SEEDED: &[(u64, [u32; 3])] = &[
    (0, [298_703_107, 4_236_525_527, 336_081_875]),
    (7, [2_442_223_337, 414_063_806, 2_743_600_285]),
    (u64::MAX, [2_553_256_318, 1_362_994_822, 3_759_657_484]),
];

// The first seed with other words.
fn first_other_seed() -> Option<u64> {
    for (seed, wanted) in SEEDED {
        let mut words = PcgWords::new(*seed);
        if first_other_word(&mut words, wanted).is_some() {
            return Some(*seed);
        }
    }
    None
}

#[test]
fn random_words(rt: HostRuntime) -> Result<(), Fail> {
    assert_eq!(rt; first_other_listed(rt.alloc())?, None);
    assert_eq!(rt; first_other_seed(), None);
    Ok(())
}
