// The archive part: a device with the mark up to which a run is archived on it.
ghost use Rattle.std.specs.Prelude.{◌≡◌, ◌++◌, None, OnOk, OnErr};
ghost use Rattle.model_archive.specs.{after_append, after_asking, next_mark_number};
ghost use Rattle.redo_archive.specs.Part.{blocks_write, mark_write, KeepsArchive, MayAppend, Stays};
ghost use Rattle.redo_disk.specs.{error_of, MakesCalls, put_requests, Serve};

use crate::marks::{fill_mark, mark_place};
use crate::places::archive_place;
use crate::puts::put_in_turn;
use model_archive::ArchMarks;
use model_base::{BLOCK_SIZE, Shape};
use redo_disk::{DevError, Sectors};
use redo_lsn::block_of;
use std::marker::Model;

/// An archive device with the mark up to which a run is archived on it: a head, two marks of which the newer counts,
/// the pages with which the run was opened, and the run's log blocks side by side (`docs/formats.md`, "The archive"). A
/// part whose call failed takes no more calls but `mark`, `failed` and `into_dev`.
#[derive(Drop)]
pub struct ArchPart<A: Sectors> {
    pub(crate) dev: A,
    pub(crate) shape: Shape,
    pub(crate) start: u64,
    pub(crate) marks: ArchMarks,
    pub(crate) failed: Option<DevError>,
}

impl<A: Sectors> Model for ArchPart<A> {
    ghost use Rattle.redo_archive.specs.Part.{IsSoundArchive, Part};

    ghost Value = { Part A };

    ghost view = { λ part. record {
      dev = part.dev;
      shape = part.shape;
      start = part.start;
      marks = part.marks;
      failed = part.failed;
    } };

    ghost invariant = { λ part. IsSoundArchive (A.seen part.dev).size part.shape part.start part.marks };
}

impl<A: Sectors> ArchPart<A> {
    /// Appends the log blocks from that of the newest mark on that hold a byte below this mark, and makes it the newest
    /// one. The blocks are synced before the mark is written, and the mark before the call answers. The number of the
    /// mark goes round after the greatest.
    ///
    /// Where the device fails or has no memory it answers that, and the mark stays. What a crash then leaves is
    /// archived up to the old mark or up to this one.
    pub fn append(&mut self, mark: u64, blocks: &[u8]) -> Result<(), DevError>
        requires { MayAppend A.seen self.old mark blocks.now }
        ensures ok { OnOk result (self.new.marks ≡ after_append mark self.old.marks) }
        ensures err { OnErr result (self.new.marks ≡ after_asking mark self.old.marks) }
        ensures stays { Stays A.seen self.old result self.new }
        ensures calls { MakesCalls A.gives self.old.dev self.new.dev
            (Serve (put_requests (blocks_write self.old.shape self.old.start self.old.marks.mark blocks.now)
            ++ put_requests (mark_write (next_mark_number self.old.marks.number) mark)) (error_of result)) }
        ensures holds { KeepsArchive A.seen self.old mark blocks.now self.new }
    {
        let number = self.marks.number.wrapping_add(1);
        let mut sector = [0; 512];
        fill_mark(&mut sector, number, mark);
        let at = archive_place(&self.shape, self.start, block_of(self.marks.mark));
        let next = BLOCK_SIZE * mark_place(number);
        self.marks.asked = mark;
        match put_in_turn(&mut self.dev, at, blocks, next, &sector) {
            Ok(()) => {
                self.marks.number = number;
                self.marks.mark = mark;
                Ok(())
            }
            Err(error) => {
                self.failed = Some(error);
                Err(error)
            }
        }
    }

    /// Up to here the run is archived.
    pub fn mark(&self) -> u64
        ensures { result ≡ self.now.marks.mark }
    {
        self.marks.mark
    }

    /// What the call answered that failed.
    pub fn failed(&self) -> Option<DevError>
        ensures { result ≡ self.now.failed }
    {
        self.failed
    }

    /// The device.
    pub fn into_dev(self) -> A
        ensures { result ≡ self.dev }
    {
        let ArchPart { dev, .. } = self;
        dev
    }
}
