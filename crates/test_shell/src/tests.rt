use fdb_shell::shell;
use outside::{MemSink, MemSource};
use std::alloc::{AllocError, Global};
use std::test::Fail;

const LINES: &[u8] = b"set a 1\nget a\nget b";

const ANSWERS: &[u8] = b"Committed (2)\na is 1\nb: not found\n";

// A session: its status, what was written, and what was told.
#[derive(Drop)]
struct Ended {
    status: u8,
    written: Vec<u8>,
    told: Vec<u8>,
}

// The session of the lines, where these calls of the source and of the sink fail.
fn session(alloc: Global, reads: &[u64], writes: &[u64]) -> Result<Ended, AllocError> {
    let mut source = MemSource::new(alloc, LINES, 100, reads)?;
    let mut out = MemSink::new(alloc, 1_000, 100, writes)?;
    let mut err = MemSink::new(alloc, 100, 100, &[])?;
    let status = shell(alloc, &mut source, &mut out, &mut err);
    Ok(Ended {
        status,
        written: Vec::from_slice(alloc, out.written())?,
        told: Vec::from_slice(alloc, err.written())?,
    })
}

// The first read, up to that behind the last byte, whose failing ends otherwise than with status 4 and the answers to the whole lines
// before it.
fn first_other_read(alloc: Global) -> Result<Option<usize>, AllocError> {
    for place in 0..LINES.len() + 1 {
        let ended = session(alloc, &[place as u64 + 1], &[])?;
        let lines = LINES[..place].iter().filter(|byte| **byte == b'\n').count();
        let len = if lines == 0 {
            0
        } else if lines == 1 {
            14
        } else {
            21
        };
        if ended.status != 4 || ended.written.as_slice() != &ANSWERS[..len] {
            return Ok(Some(place));
        }
    }
    Ok(None)
}

#[test]
fn lines_are_answered(rt: HostRuntime) -> Result<(), Fail> {
    let ended = session(rt.alloc(), &[], &[])?;
    assert_eq!(rt; (ended.status, ended.written.as_slice()), (0, ANSWERS));
    assert_eq!(rt; ended.told.len(), 0);
    Ok(())
}

#[test]
fn a_sink_fails_at_its_second_call(rt: HostRuntime) -> Result<(), Fail> {
    let ended = session(rt.alloc(), &[], &[2])?;
    assert_eq!(rt;
        (ended.status, ended.written.as_slice()),
        (5, b"Committed (2)\n".as_slice())
    );
    assert_eq!(rt;
        ended.told.as_slice(),
        b"fdbtester: write fault\n".as_slice()
    );
    Ok(())
}

#[test]
fn a_source_fails_at_each_call(rt: HostRuntime) -> Result<(), Fail> {
    assert_eq!(rt; first_other_read(rt.alloc())?, None);
    Ok(())
}
