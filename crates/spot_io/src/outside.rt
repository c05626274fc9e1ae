//! The edge: a reader and a writer of the standard library as a source and a sink.

ghost use Rattle.std.specs.Io.Buffered.{writer_buffer};

use crate::{Buffered, Sink, SinkFault, Source, SourceFault};
use std::io::{BufWriter, Read, Write};

/// A source over a reader, which counts each error of the reader as a fault, and tells what the reader tells.
#[derive(Drop)]
pub struct StdSource<R> {
    /// The reader.
    pub inner: R,
    /// How many calls failed.
    pub count: u64,
}

impl<R: Read> Source for StdSource<R> {
    ghost left = { λ s. R.remaining s.inner };

    ghost faults = { λ s. s.count };

    fn read(&mut self, into: &mut [u8]) -> Result<usize, SourceFault> {
        match self.inner.read(into) {
            Ok(count) => Ok(count),
            Err(_) => {
                self.count = self.count.saturating_add(1);
                Err(SourceFault)
            }
        }
    }
}

/// A sink over a writer, which counts each error of the writer as a fault, and also where it takes nothing of a piece that
/// isn't empty. It tells what the writer tells.
#[derive(Drop)]
pub struct StdSink<W> {
    /// The writer.
    pub inner: W,
    /// How many calls failed.
    pub count: u64,
}

impl<W: Write> Sink for StdSink<W> {
    ghost written = { λ s. W.contents s.inner };

    ghost faults = { λ s. s.count };

    ghost takes = { λ _ _. Unit {0} };

    fn write(&mut self, piece: &[u8]) -> Result<usize, SinkFault> {
        match self.inner.write(piece) {
            Ok(count) if count > 0 || piece.is_empty() => Ok(count),
            _ => {
                self.count = self.count.saturating_add(1);
                Err(SinkFault)
            }
        }
    }

    ghost fewer = { λ _ _ _ _ _. tt };
}

impl<W: Write + Drop> Buffered for StdSink<BufWriter<W>> {
    ghost kept_back = { λ s. writer_buffer s.inner };

    fn flush(&mut self) -> Result<(), SinkFault> {
        match self.inner.flush() {
            Ok(()) => Ok(()),
            Err(_) => {
                self.count = self.count.saturating_add(1);
                Err(SinkFault)
            }
        }
    }
}
