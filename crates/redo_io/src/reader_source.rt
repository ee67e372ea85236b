// A source over a reader of std.
ghost use Rattle.std.specs.Prelude.{◌≡◌, None};
ghost use Rattle.redo_io.specs.Wrapped.{ReadsReader, reader_of, source_faults};

use crate::{IoFault, Source};
use std::io::Read;

/// A source over a reader: a file, a socket or the terminal. It doesn't tell what is left, but where the reader does, a
/// read gives what stood there (`ReadsReader`). Each error of the reader is a fault.
#[derive(Debug, Drop)]
pub struct ReaderSource<R> {
    reader: R,
    faults: u64,
}

impl<R> ReaderSource<R> {
    /// A source that has not failed yet.
    pub fn new(reader: R) -> Self
        ensures reader { reader_of result ≡ reader }
        ensures faults { source_faults result ≡ 0 }
    {
        ReaderSource { reader, faults: 0 }
    }
}

impl<R: Read> Source for ReaderSource<R> {
    ghost seen = { λ source. record { left = None; faults = source_faults source } };

    ghost read_gives = { ReadsReader R.remaining };

    fn read(&mut self, out: &mut [u8]) -> Result<usize, IoFault> {
        match self.reader.read(out) {
            Ok(count) => Ok(count),
            Err(_) => {
                self.faults = self.faults.saturating_add(1);
                Err(IoFault::Failed)
            }
        }
    }
}
