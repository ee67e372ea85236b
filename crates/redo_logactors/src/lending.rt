// What a user on an errand does with the writer and the flusher, beside giving them the answers to their Ops.
ghost use Rattle.std.specs.Prelude.{◌≡◌, false};
ghost use Rattle.model_own.specs.{rested_writer};

use crate::flusher::Flusher;
use crate::writer::Writer;
use model_core::{AdvanceStep, FlusherStep, WriterStep};

impl Writer {
    /// Where it stands.
    pub fn step(&self) -> WriterStep
        ensures { result ≡ self.now.step }
    {
        self.step
    }

    /// Whether it waits.
    pub fn is_checking(&self) -> bool
        ensures { result ≡ self.now.checks }
    {
        self.checks
    }

    /// The code of the failure that ended it.
    pub fn code(&self) -> u32
        ensures { result ≡ self.now.code }
    {
        self.code
    }

    /// The mark that it has stored last.
    pub fn written_mark(&self) -> u64
        ensures { result ≡ self.now.write }
    {
        self.write
    }

    /// It begins a round anew.
    pub fn rest(&mut self)
        ensures { self.new ≡ rested_writer self.old }
    {
        self.checks = false;
        self.step = WriterStep::Advance(AdvanceStep::LoadTail);
    }

    /// It has the log part, and writes next.
    pub fn begin_write(&mut self)
        ensures { self.new ≡ record self.old { step = WriterStep.WriteTo } }
    {
        self.step = WriterStep::WriteTo;
    }
}

impl Flusher {
    /// Where it stands.
    pub fn step(&self) -> FlusherStep
        ensures { result ≡ self.now.step }
    {
        self.step
    }

    /// The code of the failure that ended it.
    pub fn code(&self) -> u32
        ensures { result ≡ self.now.code }
    {
        self.code
    }

    /// The mark that it has stored last.
    pub fn flushed_mark(&self) -> u64
        ensures { result ≡ self.now.last }
    {
        self.last
    }

    /// It has the log part, and gives it back next.
    pub fn has_part(&mut self)
        ensures { self.new ≡ record self.old { checks = false; step = FlusherStep.GiveDevice } }
    {
        self.checks = false;
        self.step = FlusherStep::GiveDevice;
    }

    /// It has the log part, and syncs next what is written up to this mark.
    pub fn begin_sync(&mut self, write: u64)
        ensures { self.new ≡ record self.old { write = write; checks = false; step = FlusherStep.Sync } }
    {
        self.write = write;
        self.checks = false;
        self.step = FlusherStep::Sync;
    }

    /// It no longer has the log part.
    pub fn lets_go(&mut self)
        ensures { self.new ≡ record self.old { step = FlusherStep.LoadWrite } }
    {
        self.step = FlusherStep::LoadWrite;
    }
}
