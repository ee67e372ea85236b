// The log's work: the states of the writer and of the flusher.
ghost use Rattle.std.specs.Prelude.{◌≡◌, cond};
ghost use Rattle.model_own.specs.{flusher_from, given_back, rested_writer, taken_up};

use model_core::{FlusherStep, WriterStep};
use redo_logactors::{Flusher, Writer};
use std::marker::Model;

/// The states of the writer and of the flusher. They lie beside the log part in DEVICE's slot, and a user that takes DEVICE
/// has them in hand. Contracts see both states.
#[derive(Debug, Drop)]
pub struct LogWork {
    pub(crate) writer: Writer,
    pub(crate) flusher: Flusher,
}

impl Model for LogWork {
    ghost use Rattle.model_own.specs.OwnWrites as model;

    ghost Value = { model.LogWork };

    ghost view = { λ k. record { writer = k.writer; flusher = k.flusher } };
}

impl LogWork {
    /// The work of a run, as its writer and flusher begin.
    pub fn new(writer: Writer, flusher: Flusher) -> LogWork
        ensures { result ≡ record { writer = writer; flusher = flusher } }
    {
        LogWork { writer, flusher }
    }

    /// The writer and the flusher, as far as they have come.
    pub fn into_actors(self) -> (Writer, Flusher)
        ensures { result ≡ (self.writer, self.flusher) }
    {
        (self.writer, self.flusher)
    }

    /// It is in hand, with the log part.
    pub(crate) fn take_up(&mut self)
        ensures { self.new ≡ taken_up self.old }
    {
        self.flusher.has_part();
    }

    /// It is given back, with the log part.
    pub(crate) fn give_back(&mut self)
        ensures { self.new ≡ given_back self.old }
    {
        self.flusher.lets_go();
    }

    /// The writer has the log part from here on, and writes next.
    pub(crate) fn begin_write(&mut self)
        ensures { self.new ≡ record {
          writer = record self.old.writer { step = WriterStep.WriteTo };
          flusher = record self.old.flusher { step = FlusherStep.LoadWrite };
        } }
    {
        self.writer.begin_write();
        self.flusher.lets_go();
    }

    /// The writer's part is over: what is written is flushed, if it is to be and isn't.
    pub(crate) fn end_write(&mut self, flushes: bool)
        ensures { self.new ≡ record {
          writer = rested_writer self.old.writer;
          flusher = flusher_from flushes self.old.flusher self.old.writer.write;
        } }
    {
        let write = self.writer.written_mark();
        self.writer.rest();
        if flushes && self.flusher.flushed_mark() < write {
            self.flusher.begin_sync(write);
        } else {
            self.flusher.has_part();
        }
    }
}
