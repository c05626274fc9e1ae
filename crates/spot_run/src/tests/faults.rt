//! A source and a sink that fail at one call, at each in turn, or at all, and bytes that are cut, nested, or no text.

use super::*;
use spot_io::{StdSink, StdSource};
use std::io::{self, ErrorKind, Read, Write};

// Whether the run ends by a read fault, and nothing is written, whichever call of the source fails.
fn no_read_fault_writes(alloc: Global, line: &[&str], bytes: &[u8]) -> Result<bool, Fail> {
    let words = words(alloc, line)?;
    let mut source = mem_source(alloc, bytes, 16, &[])?;
    let mut sink = mem_sink(alloc, 2000, 16, &[])?;
    run_spot(alloc, &words, &mut source, &mut sink);
    for call in 0..source.calls {
        let (status, sink) = run(alloc, line, bytes, &[call.wrapping_add(1)], &[])?;
        if status != Status::ReadFault || sink.calls > 0 {
            return Ok(false);
        }
    }
    Ok(source.calls > 1)
}

// Whether the run ends by a write fault, and what was written is a front, whichever call of the sink fails.
fn each_write_fault_leaves_a_front(
    alloc: Global,
    line: &[&str],
    bytes: &[u8],
) -> Result<bool, Fail> {
    let (status, whole) = run(alloc, line, bytes, &[], &[])?;
    if status == Status::WriteFault {
        return Ok(false);
    }
    for call in 1..=whole.calls {
        let (status, sink) = run(alloc, line, bytes, &[], &[call])?;
        let front = sink.bytes.as_slice();
        if status != Status::WriteFault
            || front.len() as u64 >= call.wrapping_mul(16)
            || !whole.bytes.as_slice().starts_with(front)
        {
            return Ok(false);
        }
    }
    Ok(whole.calls > 1)
}

// Whether these bytes are no JSON text, and nothing is written.
fn is_no_json(alloc: Global, line: &[&str], bytes: &[u8]) -> Result<bool, Fail> {
    let (status, sink) = run(alloc, line, bytes, &[], &[])?;
    Ok(status == Status::Refused(Code::NotJson, 0) && sink.calls == 0)
}

#[test]
fn the_source_fails_at_each_call(rt: HostRuntime) -> Result<(), Fail> {
    for mode in ["predict", "area", "replay", "draw"] {
        let line = ["spot", mode, "--steps", "1"];
        let nothing = no_read_fault_writes(rt.alloc(), &line, INSIDE)?;
        assert!(rt; nothing, "in {mode}");
    }
    Ok(())
}

#[test]
fn the_sink_fails_at_each_call(rt: HostRuntime) -> Result<(), Fail> {
    for mode in ["predict", "area", "replay", "draw"] {
        let line = ["spot", mode, "--steps", "1"];
        let front = each_write_fault_leaves_a_front(rt.alloc(), &line, ROW_END_OUTSIDE)?;
        assert!(rt; front, "in {mode}");
    }
    let line = [
        "spot", "sample", "--lanes", "1", "--movers", "0", "--steps", "1",
    ];
    let front = each_write_fault_leaves_a_front(rt.alloc(), &line, b"")?;
    assert!(rt; front);
    Ok(())
}

#[test]
fn bytes_that_are_cut_are_no_json(rt: HostRuntime) -> Result<(), Fail> {
    let line = ["spot", "predict", "--steps", "1"];
    for end in 0..CIRCLE.len() {
        let cut = is_no_json(rt.alloc(), &line, &CIRCLE[..end])?;
        assert!(rt; cut, "behind {end} bytes");
    }
    let mut longer = Vec::new(rt.alloc());
    longer.extend_from_slice(CIRCLE)?;
    longer.push(b'x')?;
    let behind = is_no_json(rt.alloc(), &line, longer.as_slice())?;
    assert!(rt; behind);
    Ok(())
}

// A reader and a writer whose calls all fail.
#[derive(Drop)]
struct Failing;

impl Read for Failing {
    fn read(&mut self, _into: &mut [u8]) -> io::Result<usize> {
        Err(io::Error::from(ErrorKind::BrokenPipe))
    }
}

impl Write for Failing {
    fn write(&mut self, _piece: &[u8]) -> io::Result<usize> {
        Err(io::Error::from(ErrorKind::BrokenPipe))
    }

    fn flush(&mut self) -> io::Result<()> {
        Err(io::Error::from(ErrorKind::BrokenPipe))
    }
}

#[test]
fn a_reader_that_fails_is_a_read_fault(rt: HostRuntime) -> Result<(), Fail> {
    let words = words(rt.alloc(), &["spot", "predict", "--steps", "1"])?;
    let mut source = StdSource {
        inner: Failing,
        count: 0,
    };
    let mut sink = mem_sink(rt.alloc(), 2000, 16, &[])?;
    let status = run_spot(rt.alloc(), &words, &mut source, &mut sink);
    assert_eq!(rt; status, Status::ReadFault);
    assert_eq!(rt; source.count, 1);
    assert_eq!(rt; sink.calls, 0);
    Ok(())
}

#[test]
fn a_writer_that_fails_is_a_write_fault(rt: HostRuntime) -> Result<(), Fail> {
    let words = words(rt.alloc(), &["spot", "predict", "--steps", "1"])?;
    let mut source = mem_source(rt.alloc(), CIRCLE, 16, &[])?;
    let mut sink = StdSink {
        inner: Failing,
        count: 0,
    };
    let status = run_spot(rt.alloc(), &words, &mut source, &mut sink);
    assert_eq!(rt; status, Status::WriteFault);
    assert_eq!(rt; sink.count, 1);
    Ok(())
}

// So many elements, each inside the one before.
fn nested(alloc: Global, depth: usize) -> Result<Vec<u8>, Fail> {
    let mut bytes = Vec::new(alloc);
    bytes.extend_from_slice(b"[\"a\"")?;
    for _ in 1..depth {
        bytes.extend_from_slice(b",[\"a\"")?;
    }
    for _ in 0..depth {
        bytes.push(b']')?;
    }
    Ok(bytes)
}

#[test]
fn texts_that_are_nested_too_deep_or_no_text(rt: HostRuntime) -> Result<(), Fail> {
    let line = ["spot", "predict", "--steps", "1"];
    let deepest = nested(rt.alloc(), 127)?;
    let (status, sink) = run(rt.alloc(), &line, deepest.as_slice(), &[], &[])?;
    assert_eq!(rt; status, Status::Refused(Code::Root, 0));
    assert_eq!(rt; sink.calls, 0);
    let deeper = nested(rt.alloc(), 128)?;
    let no_json = is_no_json(rt.alloc(), &line, deeper.as_slice())?;
    assert!(rt; no_json);
    let no_text = is_no_json(rt.alloc(), &line, b"[\"a\xff\"]")?;
    assert!(rt; no_text);
    Ok(())
}
