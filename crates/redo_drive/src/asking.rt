// What all actors have in common.
ghost use Rattle.std.specs.Prelude.{◌≡◌};
ghost use Rattle.model_core.specs.{AnswerFits, lent, next};
ghost use Rattle.redo_drive.specs.Receiving.{HasTaken, MarkFits};
ghost use Rattle.redo_drive.specs.History.{view_of};
ghost use Rattle.redo_words.specs.{Lends};

use crate::actor::Actor;
use redo_follow::Receiver;
use redo_words::{Answer, Lent, Op, Step};

impl<R: Receiver> Actor<R> {
    /// The Op that it asks for.
    pub fn next(&self) -> Op
        ensures { result ≡ next (view_of self.now) }
    {
        match self {
            Actor::User(user) => user.next(),
            Actor::Writer(writer) => writer.next(),
            Actor::Flusher(flusher) => flusher.next(),
            Actor::Closer(closer) => closer.next(),
            Actor::Cleaner(cleaner) => cleaner.next(),
            Actor::Checkpointer(checkpointer) => checkpointer.next(),
            Actor::Archiver(archiver) => archiver.next(),
            Actor::Follower(follower) => follower.next(),
        }
    }

    /// What it lends to a device call.
    pub fn lent(&self) -> Lent<'_>
        ensures { Lends result (lent (view_of self.now)) }
    {
        match self {
            Actor::User(user) => user.lent(),
            Actor::Writer(writer) => writer.lent(),
            Actor::Flusher(flusher) => flusher.lent(),
            Actor::Closer(closer) => closer.lent(),
            Actor::Cleaner(cleaner) => cleaner.lent(),
            Actor::Checkpointer(checkpointer) => checkpointer.lent(),
            Actor::Archiver(archiver) => archiver.lent(),
            Actor::Follower(follower) => follower.lent(),
        }
    }

    /// Takes the answer to the Op that it asked for.
    pub fn took(&mut self, answer: Answer) -> Step
        requires fits { AnswerFits (view_of self.old) answer }
        requires mark { MarkFits (view_of self.old) answer }
        ensures { HasTaken R.stands_for self.old answer result self.new }
    {
        match self {
            Actor::User(user) => user.took(answer),
            Actor::Writer(writer) => writer.took(answer),
            Actor::Flusher(flusher) => flusher.took(answer),
            Actor::Closer(closer) => closer.took(answer),
            Actor::Cleaner(cleaner) => cleaner.took(answer),
            Actor::Checkpointer(checkpointer) => checkpointer.took(answer),
            Actor::Archiver(archiver) => archiver.took(answer),
            Actor::Follower(follower) => follower.took(answer),
        }
    }
}
