//! Sources and sinks of one byte a call, which fail at each call in turn, and an input that ends at each of its bytes.

use super::*;

// What a run over these bytes, one a call, comes to where these calls of the source and of the sink fail: its status, and what was
// written.
fn ran_bytewise<R: Threads + Wait + Sync + Clone + Drop + Send + 'static>(
    rt: &R,
    alloc: Global,
    bytes: &[u8],
    reads: &[u64],
    writes: &[u64],
) -> Result<(u8, Vec<u8>), AllocError> {
    let args = args_of(alloc, &WORDS)?;
    let mut source = MemSource::new(alloc, bytes, 1, reads)?;
    let mut out = MemSink::new(alloc, 1_000, 1, writes)?;
    let mut err = MemSink::new(alloc, 100, 100, &[])?;
    let outcome = tester(rt, alloc, &args, &mut source, &mut out, &mut err, &OpenGate);
    Ok((outcome.status, Vec::from_slice(alloc, out.written())?))
}

// The first read, up to that behind the last byte, whose failing ends otherwise than with status 4 and nothing written.
fn first_other_read<R: Threads + Wait + Sync + Clone + Drop + Send + 'static>(
    rt: &R,
    alloc: Global,
) -> Result<Option<usize>, AllocError> {
    for place in 0..SET_ONE_KEY.len() + 1 {
        let call = place as u64 + 1;
        let (status, written) = ran_bytewise(rt, alloc, SET_ONE_KEY, &[call], &[])?;
        if status != 4 || !written.is_empty() {
            return Ok(Some(place));
        }
    }
    Ok(None)
}

// The first write whose failing ends otherwise than with status 5 and the bytes before it written.
fn first_other_write<R: Threads + Wait + Sync + Clone + Drop + Send + 'static>(
    rt: &R,
    alloc: Global,
) -> Result<Option<usize>, AllocError> {
    for place in 0..ONE_KEY_SET.len() {
        let call = place as u64 + 1;
        let (status, written) = ran_bytewise(rt, alloc, SET_ONE_KEY, &[], &[call])?;
        if status != 5 || written.as_slice() != &ONE_KEY_SET[..place] {
            return Ok(Some(place));
        }
    }
    Ok(None)
}

// How many fronts of the input, the empty one and the whole one among them, end with status 0; None where one that ends within a line
// ends otherwise than with status 2, or another otherwise than with 0.
fn lawful_fronts<R: Threads + Wait + Sync + Clone + Drop + Send + 'static>(
    rt: &R,
    alloc: Global,
) -> Result<Option<u64>, AllocError> {
    let mut lawful = 0u64;
    for end in 0..SET_ONE_KEY.len() + 1 {
        let front = &SET_ONE_KEY[..end];
        let (status, _written) = ran_bytewise(rt, alloc, front, &[], &[])?;
        let is_whole = front.is_empty() || front.ends_with(b"\n");
        if status != (if is_whole { 0 } else { 2 }) {
            return Ok(None);
        }
        lawful = lawful.saturating_add(u64::from(is_whole));
    }
    Ok(Some(lawful))
}

#[test]
fn one_byte_a_call_is_enough(rt: HostRuntime) -> Result<(), Fail> {
    let (status, written) = ran_bytewise(&rt, rt.alloc(), SET_ONE_KEY, &[], &[])?;
    assert_eq!(rt; (status, written.as_slice()), (0, ONE_KEY_SET));
    Ok(())
}

#[test]
fn each_call_fails_in_turn(rt: HostRuntime) -> Result<(), Fail> {
    assert_eq!(rt; first_other_read(&rt, rt.alloc())?, None);
    assert_eq!(rt; first_other_write(&rt, rt.alloc())?, None);
    Ok(())
}

#[test]
fn an_input_ends_at_each_of_its_bytes(rt: HostRuntime) -> Result<(), Fail> {
    assert_eq!(rt; lawful_fronts(&rt, rt.alloc())?, Some(5));
    Ok(())
}
