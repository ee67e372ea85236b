// The system's files as a device takes them.
ghost use Rattle.std.specs.Io.{ReadsAtMost, WritesAtMost};

use std::fs::{File, TryLockError};
use std::io;
use std::io::{ErrorKind, Read, Write};
use std::os::unix::fs::FileExt;
use std::rt::Files;

/// What is said where a lock can't be had.
fn why_held(error: TryLockError) -> io::Error {
    match error {
        TryLockError::WouldBlock => io::Error::new(
            ErrorKind::WouldBlock,
            "held by another process",
        ),
        TryLockError::Error(error) => error,
    }
}

/// Files that one handle can have for itself, and that are read and written at an offset, as the system's are.
pub trait DeviceFiles: Files {
    /// Takes the file for this handle alone for as long as that is open. It fails where another one has it.
    fn try_lock(&self, file: &Self::File) -> io::Result<()>;

    /// Takes the file for this handle and others that take it so. It fails where one has it for itself.
    fn try_lock_shared(&self, file: &Self::File) -> io::Result<()>;

    /// Reads what stands at this offset, by one call, which may give fewer bytes than there is room for.
    fn read_at(&self, file: &Self::File, out: &mut [u8], at: u64) -> io::Result<usize>
        ensures { ReadsAtMost result out.new };

    /// Writes at this offset, by one call, which may take fewer bytes than these.
    fn write_at(&self, file: &Self::File, bytes: &[u8], at: u64) -> io::Result<usize>
        ensures { WritesAtMost result bytes.now };
}

impl DeviceFiles for HostRuntime {
    fn try_lock(&self, file: &File) -> io::Result<()> {
        file.try_lock().map_err(why_held)
    }

    fn try_lock_shared(&self, file: &File) -> io::Result<()> {
        file.try_lock_shared().map_err(why_held)
    }

    fn read_at(&self, file: &File, out: &mut [u8], at: u64) -> io::Result<usize> {
        file.read_at(out, at)
    }

    fn write_at(&self, file: &File, bytes: &[u8], at: u64) -> io::Result<usize> {
        file.write_at(bytes, at)
    }
}

impl<R: DeviceFiles> DeviceFiles for &R {
    fn try_lock(&self, file: &R::File) -> io::Result<()> {
        (**self).try_lock(file)
    }

    fn try_lock_shared(&self, file: &R::File) -> io::Result<()> {
        (**self).try_lock_shared(file)
    }

    fn read_at(&self, file: &R::File, out: &mut [u8], at: u64) -> io::Result<usize> {
        (**self).read_at(file, out, at)
    }

    fn write_at(&self, file: &R::File, bytes: &[u8], at: u64) -> io::Result<usize> {
        (**self).write_at(file, bytes, at)
    }
}

/// A place in a file, which moves on by what is read or written there. The file's own place stays.
#[derive(Drop)]
pub(crate) struct Place<'a, R: DeviceFiles> {
    pub(crate) files: &'a R,
    pub(crate) file: &'a R::File,
    pub(crate) at: u64,
}

impl<'a, R: DeviceFiles> Read for Place<'a, R> {
    fn read(&mut self, out: &mut [u8]) -> io::Result<usize> {
        let count = self.files.read_at(self.file, out, self.at)?;
        self.at = self.at.saturating_add(count as u64);
        Ok(count)
    }
}

impl<'a, R: DeviceFiles> Write for Place<'a, R> {
    fn write(&mut self, bytes: &[u8]) -> io::Result<usize> {
        let count = self.files.write_at(self.file, bytes, self.at)?;
        self.at = self.at.saturating_add(count as u64);
        Ok(count)
    }

    fn flush(&mut self) -> io::Result<()> {
        Ok(())
    }
}
