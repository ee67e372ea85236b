// Files of which only the calls are told.
use redo_memdisk::DeviceFiles;
use std::alloc::Allocator;
use std::cell::Cell;
use std::fs::{Files, Metadata, OpenFile, OpenOptions};
use std::io;
use std::io::{ErrorKind, Read, Seek, SeekFrom, Write};
use std::rc::Rc;

/// What the file system is asked for.
#[derive(Clone, Copy, Debug, PartialEq, Eq)]
pub enum Ask {
    Open,
    Make,
    OpenFolder,
    SyncFolder,
    Clone,
    Lock,
    LockShared,
    Seek,
    Sync,
    SyncData,
    Read,
    Write,
}

/// How many calls are told.
const ROOM: usize = 24;

/// What was asked of a file system with one file: the calls, of which those with these numbers fail, counted from 0.
#[derive(Debug, Drop)]
pub struct Calls {
    made: Cell<usize>,
    asked: Cell<[Ask; ROOM]>,
    failing: (usize, usize),
    is_there: Cell<bool>,
}

impl Calls {
    /// No calls yet. Those from the first of these numbers on fail, up to the second.
    pub fn new(is_there: bool, failing: (usize, usize)) -> Self {
        Calls {
            made: Cell::new(0),
            asked: Cell::new([Ask::Open; ROOM]),
            failing,
            is_there: Cell::new(is_there),
        }
    }

    /// Whether these are the calls so far.
    pub fn are(&self, want: &[Ask]) -> bool {
        let asked = self.asked.get();
        &asked[..self.made.get().min(ROOM)] == want
    }

    /// How often this was asked for.
    pub fn count_of(&self, ask: Ask) -> usize {
        let asked = self.asked.get();
        asked[..self.made.get().min(ROOM)]
            .iter()
            .filter(|one| **one == ask)
            .count()
    }

    /// How often the file was synced, with its length or without.
    pub fn count_of_syncs(&self) -> usize {
        let asked = self.asked.get();
        asked[..self.made.get().min(ROOM)]
            .iter()
            .filter(|one| **one == Ask::Sync || **one == Ask::SyncData)
            .count()
    }

    fn count(&self, ask: Ask) -> io::Result<()> {
        let number = self.made.get();
        let mut asked = self.asked.get();
        if number < ROOM {
            asked[number] = ask;
        }
        self.asked.set(asked);
        self.made.set(number.saturating_add(1));
        if self.failing.0 <= number && number < self.failing.1 {
            Err(io::Error::from(ErrorKind::PermissionDenied))
        } else {
            Ok(())
        }
    }
}

/// A file system whose calls are told. The folder of its file is the current one.
#[derive(Drop)]
pub struct CountedFiles {
    pub calls: Rc<Calls>,
}

/// A file that takes each write and holds nothing, or the folder.
#[derive(Drop)]
pub struct CountedFile {
    calls: Rc<Calls>,
    is_folder: bool,
}

fn unsupported() -> io::Error {
    io::Error::from(ErrorKind::Unsupported)
}

/// A file whose calls are told here, where memory lasts.
fn counted(calls: &Rc<Calls>, is_folder: bool) -> io::Result<CountedFile> {
    let Ok(calls) = calls.clone() else {
        return Err(unsupported());
    };
    Ok(CountedFile { calls, is_folder })
}

impl Read for CountedFile {
    fn read(&mut self, _out: &mut [u8]) -> io::Result<usize> {
        Err(unsupported())
    }
}

impl Write for CountedFile {
    fn write(&mut self, _bytes: &[u8]) -> io::Result<usize> {
        Err(unsupported())
    }

    fn flush(&mut self) -> io::Result<()> {
        Ok(())
    }
}

impl Seek for CountedFile {
    fn seek(&mut self, _to: SeekFrom) -> io::Result<u64> {
        self.calls.count(Ask::Seek)?;
        Ok(0)
    }
}

impl OpenFile for CountedFile {
    fn metadata(&self) -> io::Result<Metadata> {
        Err(unsupported())
    }

    fn set_len(&self, _size: u64) -> io::Result<()> {
        Ok(())
    }

    fn sync_all(&self) -> io::Result<()> {
        self.calls.count(if self.is_folder {
            Ask::SyncFolder
        } else {
            Ask::Sync
        })
    }

    fn sync_data(&self) -> io::Result<()> {
        self.calls.count(Ask::SyncData)
    }

    fn try_clone(&self) -> io::Result<CountedFile> {
        self.calls.count(Ask::Clone)?;
        counted(&self.calls, self.is_folder)
    }
}

impl Files for CountedFiles {
    type File = CountedFile;

    type Dir = CountedFile;

    fn open_file(&self, how: &OpenOptions, path: &str) -> io::Result<CountedFile> {
        if path == "." {
            self.calls.count(Ask::OpenFolder)?;
            return counted(&self.calls, true);
        }
        if how.asks_create() {
            self.calls.count(Ask::Make)?;
            self.calls.is_there.set(true);
        } else {
            self.calls.count(Ask::Open)?;
        }
        if !self.calls.is_there.get() {
            return Err(io::Error::from(ErrorKind::NotFound));
        }
        counted(&self.calls, false)
    }

    fn open_dir(&self, _path: &str) -> io::Result<CountedFile> {
        Err(unsupported())
    }

    fn metadata(&self, _path: &str) -> io::Result<Metadata> {
        Err(unsupported())
    }

    fn symlink_metadata(&self, _path: &str) -> io::Result<Metadata> {
        Err(unsupported())
    }

    fn copy(&self, _from: &str, _to: &str) -> io::Result<u64> {
        Err(unsupported())
    }

    fn rename(&self, _from: &str, _to: &str) -> io::Result<()> {
        Err(unsupported())
    }

    fn remove_file(&self, _path: &str) -> io::Result<()> {
        Err(unsupported())
    }

    fn create_dir(&self, _path: &str) -> io::Result<()> {
        Err(unsupported())
    }

    fn remove_dir(&self, _path: &str) -> io::Result<()> {
        Err(unsupported())
    }

    fn remove_dir_all<B: Allocator>(&self, _alloc: B, _path: &str) -> io::Result<()> {
        Err(unsupported())
    }
}

impl DeviceFiles for CountedFiles {
    fn try_lock(&self, _file: &CountedFile) -> io::Result<()> {
        self.calls.count(Ask::Lock)
    }

    fn try_lock_shared(&self, _file: &CountedFile) -> io::Result<()> {
        self.calls.count(Ask::LockShared)
    }

    fn read_at(&self, _file: &CountedFile, _out: &mut [u8], _at: u64) -> io::Result<usize> {
        self.calls.count(Ask::Read)?;
        Ok(0)
    }

    fn write_at(&self, _file: &CountedFile, bytes: &[u8], _at: u64) -> io::Result<usize> {
        self.calls.count(Ask::Write)?;
        Ok(bytes.len())
    }
}
