use super::*;
use std::io::{self, BufWriter, ErrorKind, Read, Write};
use std::test::Fail;

// Fails at its second call, and moves as the inner one does at each other.
#[derive(Drop)]
struct Faltering<T> {
    inner: T,
    calls: u8,
}

impl<T> Faltering<T> {
    fn turn(&mut self) -> io::Result<()> {
        self.calls = self.calls.saturating_add(1);
        if self.calls == 2 {
            return Err(io::Error::from(ErrorKind::BrokenPipe));
        }
        Ok(())
    }
}

impl<T: Read> Read for Faltering<T> {
    fn read(&mut self, into: &mut [u8]) -> io::Result<usize> {
        self.turn()?;
        self.inner.read(into)
    }
}

impl<T: Write> Write for Faltering<T> {
    fn write(&mut self, piece: &[u8]) -> io::Result<usize> {
        self.turn()?;
        self.inner.write(piece)
    }

    fn flush(&mut self) -> io::Result<()> {
        self.turn()?;
        self.inner.flush()
    }
}

const TEXT: &[u8] =
    b"the quick brown fox jumps over the lazy dog and runs on until it meets another one";

#[test]
fn memory_moves_all_bytes_or_a_front(rt: HostRuntime) -> Result<(), Fail> {
    let mut source = mem_source(rt.alloc(), TEXT, 16, &[])?;
    let bytes = read_all(rt.alloc(), &mut source)?;
    assert_eq!(rt; bytes.as_slice(), TEXT);
    let mut fails = mem_source(rt.alloc(), TEXT, 16, &[2])?;
    let end = read_all(rt.alloc(), &mut fails).err();
    assert_eq!(rt; end, Some(ReadEnd::Fault));
    assert_eq!(rt; fails.at, 16);
    let mut sink = mem_sink(rt.alloc(), 100, 16, &[])?;
    write_all(&mut sink, TEXT)?;
    assert_eq!(rt; sink.bytes.as_slice(), TEXT);
    let mut stops = mem_sink(rt.alloc(), 100, 16, &[4])?;
    assert_eq!(rt; write_all(&mut stops, TEXT), Err(SinkFault));
    assert_eq!(rt; stops.bytes.as_slice(), &TEXT[..48]);
    Ok(())
}

#[test]
fn never_moves_all_bytes(rt: HostRuntime) -> Result<(), Fail> {
    let mut source = never_source(rt.alloc(), TEXT)?;
    let bytes = read_all(rt.alloc(), &mut source)?;
    assert_eq!(rt; bytes.as_slice(), TEXT);
    let mut sink = never_sink(rt.alloc(), TEXT.len())?;
    write_all(&mut sink, TEXT)?;
    assert_eq!(rt; sink.bytes.as_slice(), TEXT);
    Ok(())
}

#[test]
fn outside_moves_all_bytes(rt: HostRuntime) -> Result<(), Fail> {
    let mut source = StdSource {
        inner: TEXT,
        count: 0,
    };
    let bytes = read_all(rt.alloc(), &mut source)?;
    assert_eq!(rt; bytes.as_slice(), TEXT);
    let mut sink = StdSink {
        inner: Vec::new(rt.alloc()),
        count: 0,
    };
    write_all(&mut sink, TEXT)?;
    assert_eq!(rt; sink.inner.as_slice(), TEXT);
    Ok(())
}

#[test]
fn reader_is_asked_and_its_errors_are_counted(rt: HostRuntime) -> Result<(), Fail> {
    let mut source = StdSource {
        inner: Faltering {
            inner: TEXT,
            calls: 0,
        },
        count: 0,
    };
    let mut piece = [0; 4];
    assert_eq!(rt; source.read(&mut piece), Ok(4));
    assert_eq!(rt; &piece, b"the ");
    assert_eq!(rt; source.count, 0);
    assert_eq!(rt; source.read(&mut piece), Err(SourceFault));
    assert_eq!(rt; source.count, 1);
    assert_eq!(rt; source.read(&mut piece), Ok(4));
    assert_eq!(rt; &piece, b"quic");
    assert_eq!(rt; source.count, 1);
    Ok(())
}

#[test]
fn writer_is_asked_and_its_errors_are_counted(rt: HostRuntime) -> Result<(), Fail> {
    let inner = Faltering {
        inner: Vec::new(rt.alloc()),
        calls: 0,
    };
    let mut sink = StdSink { inner, count: 0 };
    assert_eq!(rt; sink.write(b"ab"), Ok(2));
    assert_eq!(rt; sink.count, 0);
    assert_eq!(rt; sink.write(b"cd"), Err(SinkFault));
    assert_eq!(rt; sink.count, 1);
    assert_eq!(rt; sink.write(b"ef"), Ok(2));
    assert_eq!(rt; sink.count, 1);
    assert_eq!(rt; sink.inner.inner.as_slice(), b"abef".as_slice());
    Ok(())
}

#[test]
fn flush_sends_on_and_counts_its_errors(rt: HostRuntime) -> Result<(), Fail> {
    let inner = Faltering {
        inner: Vec::new(rt.alloc()),
        calls: 0,
    };
    let mut sink = StdSink {
        inner: BufWriter::new(rt.alloc(), inner)?,
        count: 0,
    };
    write_all(&mut sink, b"ab")?;
    assert_eq!(rt; sink.inner.get_ref().inner.len(), 0);
    assert_eq!(rt; sink.flush(), Err(SinkFault));
    assert_eq!(rt; sink.count, 1);
    assert_eq!(rt; sink.inner.get_ref().inner.as_slice(), b"ab".as_slice());
    assert_eq!(rt; sink.flush(), Ok(()));
    assert_eq!(rt; sink.count, 1);
    Ok(())
}
