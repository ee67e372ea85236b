// A sink over a writer of std.
ghost use Rattle.std.specs.Prelude.{◌≡◌, None};
ghost use Rattle.redo_io.specs.Wrapped.{WritesWriter, sink_faults, writer_of};

use crate::{IoFault, Sink};
use std::io::Write;

/// A sink over a writer: a file, a socket or the terminal. It doesn't tell what it has taken, but where the writer tells
/// what it holds, that grows by what the sink takes (`WritesWriter`). Each error of the writer is a fault, and so is a
/// write that takes nothing.
#[derive(Debug, Drop)]
pub struct WriterSink<W> {
    writer: W,
    faults: u64,
}

impl<W> WriterSink<W> {
    /// A sink that has not failed yet.
    pub fn new(writer: W) -> Self
        ensures writer { writer_of result ≡ writer }
        ensures faults { sink_faults result ≡ 0 }
    {
        WriterSink { writer, faults: 0 }
    }
}

impl<W: Write> Sink for WriterSink<W> {
    ghost seen = { λ sink. record { taken = None; faults = sink_faults sink } };

    ghost write_gives = { WritesWriter W.contents };

    fn write(&mut self, bytes: &[u8]) -> Result<usize, IoFault> {
        match self.writer.write(bytes) {
            Ok(count) if count > 0 || bytes.is_empty() => Ok(count),
            _ => {
                self.faults = self.faults.saturating_add(1);
                Err(IoFault::Failed)
            }
        }
    }
}
