// A device in a file.
ghost use Rattle.std.specs.Prelude.{◌≡◌, [], length, take, IfSome, OnOk};
ghost use Rattle.std.specs.Io.KnownBytes.{Appends};
ghost use Rattle.redo_disk.specs.{HasCause};
ghost use Rattle.redo_memdisk.specs.File.{CountsFailure, FileCrash, FileGives, file_access, file_faults, file_notes, file_seen, read_event};
ghost use Rattle.redo_memdisk.specs.Notes.{filled};
ghost use Rattle.redo_memdisk.specs.WithinCall.{IsWithinCall};

use crate::Contents;
use crate::files::{DeviceFiles, Place};
use crate::record::{Event, Record};
use redo_disk::{DevError, Sectors};
use std::fs::{File, OpenFile, OpenOptions};
use std::io;
use std::io::{ErrorKind, Read, Seek, SeekFrom, Write};
use std::marker::PhantomData;
use std::rt::Files;

/// What a device opens its file for.
#[derive(Clone, Copy, PartialEq, Eq)]
pub enum Access {
    Writing,
    /// For reading alone where the system refuses writing.
    Reading,
}

/// What a device opens its file for. Only one for reading reads a file that couldn't be synced as it was opened.
#[derive(Clone, Copy)]
enum Opening {
    ForWriting,
    ForReading { is_synced: bool },
}

/// A device in a file of its own, which its first call opens or makes, locks and syncs: while another process holds the
/// file, that call fails. What stands past the file's end reads as zeros. It tells what a file means that held `S`'s
/// bytes, by the record of its calls, until a read gives other bytes than that, or reads a file that is open for reading
/// alone and couldn't be synced. Its crash keeps every write, by a sync: a real one is the machine's.
#[derive(Drop)]
pub struct FileDisk<R: Files, S: Contents> {
    files: R,
    path: String,
    opening: Opening,
    file: Option<R::File>,
    /// How long the file is: its length as it was opened, and what was written past that.
    len: u64,
    /// It was made longer since the last sync.
    is_longer: bool,
    /// Why a sync has failed. The system may have dropped what was to be synced, and would answer a later sync with Ok.
    failed_sync: Option<io::Error>,
    faults: u64,
    last_error: Option<io::Error>,
    calls: Record,
    start: PhantomData<S>,
}

/// Bytes of every device in a file, of which the file holds those up to the last that was written.
pub const FILE_DISK_LEN: u64 = 1 << 40;

/// Whether the system refused writing.
fn refuses_writing(error: io::Error) -> bool {
    [ErrorKind::PermissionDenied, ErrorKind::ReadOnlyFilesystem].contains(&error.kind())
}

/// The folder that a file of this path stands in.
fn folder_of(path: &str) -> &str {
    match path.rsplit_once('/') {
        Some(("", _)) => "/",
        Some((folder, _)) => folder,
        None => ".",
    }
}

impl<R: DeviceFiles, S: Contents> FileDisk<R, S> {
    /// The device in the file at this path.
    pub fn new(files: R, path: String, access: Access) -> Self
        ensures faults { file_faults result ≡ 0 }
        ensures notes { file_notes result ≡ [] }
        ensures access { file_access result ≡ access }
    {
        FileDisk {
            files,
            path,
            opening: match access {
                Access::Writing => Opening::ForWriting,
                Access::Reading => Opening::ForReading { is_synced: true },
            },
            file: None,
            len: 0,
            is_longer: false,
            failed_sync: None,
            faults: 0,
            last_error: None,
            calls: Record::new(),
            start: PhantomData,
        }
    }

    /// Why the last of its calls that failed did.
    pub fn last_error(&self) -> Option<io::Error>
        ensures { result ≡ self.now.last_error }
    {
        self.last_error
    }

    fn opened(&mut self) -> io::Result<R::File>
        ensures { IsWithinCall self.old self.new }
    {
        match self.file.take() {
            Some(file) => Ok(file),
            None => self.open(),
        }
    }

    /// Opens the file for this device alone, with what was written before on disk. Where standard input, output or
    /// error is closed, the system gives its number to the next file, and what is printed would reach the device. A
    /// duplicate never gets such a number.
    fn open(&mut self) -> io::Result<R::File>
        ensures { IsWithinCall self.old self.new }
    {
        let opened = match (self.open_or_make(), self.opening) {
            (Err(error), Opening::ForReading { .. }) if refuses_writing(error) => {
                return self.open_to_read();
            }
            (answer, _) => answer?,
        };
        let mut file = opened.try_clone()?;
        self.files.try_lock(&file)?;
        self.sync_file(&file)?;
        self.len = file.seek(SeekFrom::End(0))?;
        Ok(file)
    }

    /// Opens the file for this device and others that read it.
    fn open_to_read(&mut self) -> io::Result<R::File>
        requires { file_access self.old ≡ Access.Reading }
        ensures { IsWithinCall self.old self.new }
    {
        let mut file = File::open(&self.files, self.path.as_str())?.try_clone()?;
        self.files.try_lock_shared(&file)?;
        let is_synced = self.sync_file(&file).is_ok();
        self.opening = Opening::ForReading { is_synced };
        self.len = file.seek(SeekFrom::End(0))?;
        Ok(file)
    }

    /// Opens the file, or makes it, for good: its name stands in the folder when the first call answers.
    fn open_or_make(&mut self) -> io::Result<R::File>
        ensures { IsWithinCall self.old self.new }
    {
        let mut options = OpenOptions::new();
        options.read(true).write(true);
        match options.open(&self.files, self.path.as_str()) {
            Err(error) if error.kind() == ErrorKind::NotFound => {
                let folder = File::open(&self.files, folder_of(&self.path))?;
                let file = options.create(true).open(&self.files, self.path.as_str())?;
                self.sync_file(&folder)?;
                Ok(file)
            }
            answer => answer,
        }
    }

    /// Syncs a file or a folder with all that the system knows of it, if no sync has failed.
    fn sync_file(&mut self, file: &R::File) -> io::Result<()>
        ensures { IsWithinCall self.old self.new }
    {
        self.sync_by(|| file.sync_all())
    }

    /// Syncs what was written to the file, if no sync has failed: with its length, where that has changed.
    fn sync_written(&mut self, file: &R::File) -> io::Result<()>
        ensures { IsWithinCall self.old self.new }
    {
        if !self.is_longer {
            return self.sync_by(|| file.sync_data());
        }
        self.sync_file(file)?;
        self.is_longer = false;
        Ok(())
    }

    /// Syncs, if no sync has failed.
    fn sync_by<F: FnOnce() -> io::Result<()> + Drop>(&mut self, sync: F) -> io::Result<()>
        requires { F.IsAlwaysCallable sync }
        ensures { IsWithinCall self.old self.new }
    {
        if let Some(error) = self.failed_sync {
            return Err(error);
        }
        let done = sync();
        self.failed_sync = done.err();
        done
    }

    /// Notes that so many bytes were written from this offset on.
    fn lengthen(&mut self, at: u64, count: usize)
        ensures { IsWithinCall self.old self.new }
    {
        let end = at.saturating_add(count as u64);
        if self.len < end {
            self.len = end;
            self.is_longer = true;
        }
    }

    fn with_file<F: FnOnce(&R, &R::File) -> io::Result<()> + Drop>(
        &mut self,
        act: F,
    ) -> io::Result<()>
        requires { F.IsAlwaysCallable act }
        ensures { IsWithinCall self.old self.new }
    {
        let file = self.opened()?;
        let done = act(&self.files, &file);
        self.file = Some(file);
        done
    }

    fn try_sync(&mut self) -> io::Result<()>
        ensures { IsWithinCall self.old self.new }
    {
        let file = self.opened()?;
        let done = self.sync_written(&file);
        self.file = Some(file);
        done
    }

    /// What is noted of a read from this offset on.
    fn read_event(&self, at: u64) -> Event
        ensures { result ≡ read_event self.now.opening at }
    {
        match self.opening {
            Opening::ForReading { is_synced: false } => Event::Unsynced,
            _ => Event::Read { at },
        }
    }

    /// What a call answers that came to this, which is counted where it failed.
    fn answer(&mut self, done: io::Result<()>) -> Result<(), DevError>
        ensures counts { CountsFailure (file_faults self.old) result (file_faults self.new) }
        ensures cause { HasCause (file_faults self.old) (file_faults self.new) result }
        ensures notes { file_notes self.new ≡ file_notes self.old }
        ensures access { file_access self.new ≡ file_access self.old }
    {
        if let Err(error) = done {
            self.last_error = Some(error);
            self.faults = self.faults.saturating_add(1);
            return Err(DevError::Failed);
        }
        Ok(())
    }
}

/// Fills `out` with the bytes that are left, and with zeros after the last of them.
fn fill_from<F: Read>(file: &mut F, out: &mut [u8]) -> io::Result<()>
    ensures { OnOk result (IfSome (F.remaining file.old) (λ left. out.new ≡ filled (length out.old) left)) }
{
    let mut at = 0;
    for _ in 0..u64::MAX {
        if at >= out.len() {
            return Ok(());
        }
        match file.read(&mut out[at..]) {
            Ok(0) => {
                out[at..].fill(0);
                return Ok(());
            }
            Ok(count) => at += count,
            Err(error) if error.kind() == ErrorKind::Interrupted => {}
            Err(error) => return Err(error),
        }
    }
    Err(io::Error::from(ErrorKind::Interrupted))
}

/// Writes the bytes, and counts those that the file took, also where it fails.
fn put_into<F: Write>(file: &mut F, bytes: &[u8], taken: &mut usize) -> io::Result<()>
    ensures bytes { Appends (F.contents file.old) (F.contents file.new) (take taken.new bytes.now) }
    ensures all { OnOk result (taken.new ≡ length bytes.now) }
{
    *taken = 0;
    for _ in 0..u64::MAX {
        if *taken >= bytes.len() {
            return Ok(());
        }
        match file.write(&bytes[*taken..]) {
            Ok(0) => return Err(io::Error::from(ErrorKind::WriteZero)),
            Ok(count) => *taken += count,
            Err(error) if error.kind() == ErrorKind::Interrupted => {}
            Err(error) => return Err(error),
        }
    }
    Err(io::Error::from(ErrorKind::Interrupted))
}

impl<R: DeviceFiles, S: Contents> Sectors for FileDisk<R, S> {
    ghost use Rattle.redo_memdisk.specs.Before.{file-before};

    ghost seen = { file_seen S.Contents.bytes };

    ghost gives = { FileGives };

    ghost told_before = { file-before S.Contents.bytes };

    ghost crash_gives = { FileCrash };

    fn len(&self) -> u64 {
        FILE_DISK_LEN
    }

    fn read(&mut self, at: u64, out: &mut [u8]) -> Result<(), DevError> {
        let done = self.with_file(|files, file| fill_from(&mut Place { files, file, at }, out));
        let answer = self.answer(done);
        if answer.is_ok() {
            let event = self.read_event(at);
            self.calls.note(event, out);
        }
        answer
    }

    fn write(&mut self, at: u64, bytes: &[u8]) -> Result<(), DevError> {
        let mut taken = 0;
        let done = self.with_file(|files, file| put_into(
            &mut Place { files, file, at },
            bytes,
            &mut taken,
        ));
        self.lengthen(at, taken);
        let answer = self.answer(done);
        match answer {
            Ok(()) => self.calls.note(Event::Written { at }, bytes),
            Err(_) => self.calls.note(Event::Missed { at, taken }, bytes),
        }
        answer
    }

    fn sync(&mut self) -> Result<(), DevError> {
        let done = self.try_sync();
        let answer = self.answer(done);
        if answer.is_ok() {
            self.calls.note(Event::Synced, &[]);
        }
        answer
    }

    fn crash(&mut self, _pick: u64) {
        let done = self.try_sync();
        match self.answer(done) {
            Ok(()) => self.calls.note(Event::Crashed, &[]),
            Err(_) => self.calls.note(Event::Lost, &[]),
        }
    }
}
