use fdb_serve::serve;
use model_database::Api;
use outside::{MemSink, MemSource};
use std::alloc::{AllocError, Global};
use std::test::Fail;

const REQUESTS: &[u8] =
    b"\x00\x00\x00\x14\x01NEW_TRANSACTION\x00\x01t\x00\x00\x00\x00\x0e\x01SET\x00\x01t\x00\x01k\x00\x01v\x00\x00\x00\x00\x0c\x01GET\x00\x01t\x00\x01k\x00&\x00\x00\x00\x0b\x01COMMIT\x00\x01t\x00\x00\x00\x00\x1a\x01GET_COMMITTED_VERSION\x00\x01t\x00";

const REPLIES: &[u8] =
    b"\x00\x00\x00\x06\x01DONE\x00\x00\x00\x00\x06\x01DONE\x00\x00\x00\x00\x0a\x01VALUE\x00\x01v\x00\x00\x00\x00\x06\x01DONE\x00\x00\x00\x00\x0b\x01VERSION\x00\x15\x02";

// How serving ended: its status, what was written, and what was told.
#[derive(Drop)]
struct Ended {
    status: u8,
    written: Vec<u8>,
    told: Vec<u8>,
}

// Serves these bytes, where these calls of the source and of the sink fail.
fn served(
    alloc: Global,
    requests: &[u8],
    reads: &[u64],
    writes: &[u64],
) -> Result<Ended, AllocError> {
    let mut source = MemSource::new(alloc, requests, 1_000, reads)?;
    let mut out = MemSink::new(alloc, 1_000, 1_000, writes)?;
    let mut err = MemSink::new(alloc, 100, 100, &[])?;
    let status = serve(alloc, Api::V630, None, &mut source, &mut out, &mut err);
    Ok(Ended {
        status,
        written: Vec::from_slice(alloc, out.written())?,
        told: Vec::from_slice(alloc, err.written())?,
    })
}

#[test]
fn requests_are_answered(rt: HostRuntime) -> Result<(), Fail> {
    let ended = served(rt.alloc(), REQUESTS, &[], &[])?;
    assert_eq!(rt; (ended.status, ended.written.as_slice()), (0, REPLIES));
    assert_eq!(rt; ended.told.len(), 0);
    Ok(())
}

#[test]
fn a_frame_is_cut_short(rt: HostRuntime) -> Result<(), Fail> {
    let ended = served(rt.alloc(), &REQUESTS[..50], &[], &[])?;
    assert_eq!(rt;
        (ended.status, ended.written.as_slice()),
        (2, &REPLIES[..20])
    );
    assert_eq!(rt;
        ended.told.as_slice(),
        b"fdbtester: frame 3: cut short\n".as_slice()
    );
    Ok(())
}

#[test]
fn a_frame_is_no_request(rt: HostRuntime) -> Result<(), Fail> {
    let ended = served(rt.alloc(), b"\x00\x00\x00\x06\x01DONE\x00", &[], &[])?;
    assert_eq!(rt; (ended.status, ended.written.len()), (2, 0));
    assert_eq!(rt;
        ended.told.as_slice(),
        b"fdbtester: frame 1: no request\n".as_slice()
    );
    Ok(())
}

#[test]
fn a_source_fails_at_its_third_frame(rt: HostRuntime) -> Result<(), Fail> {
    let ended = served(rt.alloc(), REQUESTS, &[5], &[])?;
    assert_eq!(rt;
        (ended.status, ended.written.as_slice()),
        (4, &REPLIES[..20])
    );
    Ok(())
}

#[test]
fn a_sink_fails_at_its_second_call(rt: HostRuntime) -> Result<(), Fail> {
    let ended = served(rt.alloc(), REQUESTS, &[], &[2])?;
    assert_eq!(rt;
        (ended.status, ended.written.as_slice()),
        (5, &REPLIES[..10])
    );
    Ok(())
}
