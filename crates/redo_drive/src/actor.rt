// The actors of a running store.
ghost use Rattle.std.specs.Prelude.{MatchOption, None, Some, ◌≡◌, ◌≢◌};
ghost use Rattle.model_core.specs.{UserState};
ghost use Rattle.model_core.specs.States as model;
ghost use Rattle.redo_drive.specs.Receiving.{follower_of};
ghost use Rattle.redo_drive.specs.Steps.{steps_in_vain};
ghost use Rattle.redo_drive.specs.History.{view_of};

use model_core::FLUSH_LISTS;
use redo_archiver::Archiver;
use redo_follow::{Follower, Receiver};
use redo_logactors::{Closer, Flusher, Writer};
use redo_pageactors::{Checkpointer, Cleaner};
use redo_useractor::UserActor;

/// An actor.
#[derive(Drop)]
pub enum Actor<R: Receiver> {
    User(UserActor),
    Writer(Writer),
    Flusher(Flusher),
    Closer(Closer),
    Cleaner(Cleaner),
    Checkpointer(Checkpointer),
    Archiver(Archiver),
    Follower(Follower<R>),
}

impl<R: Receiver> Actor<R> {
    /// The user, if it is one.
    pub fn user(&self) -> Option<&UserActor>
        ensures { MatchOption result ((u : UserState) → view_of self.now ≢ model.User u) (λ user. view_of self.now ≡ model.User user.now) }
    {
        match self {
            Actor::User(user) => Some(user),
            _ => None,
        }
    }

    /// The follower, if it is one.
    pub fn follower(&self) -> Option<&Follower<R>>
        ensures { MatchOption result (follower_of self.now ≡ None) (λ follower. follower_of self.now ≡ Some follower.now) }
    {
        match self {
            Actor::Follower(follower) => Some(follower),
            _ => None,
        }
    }

    /// How many steps it takes at most from one wait to the next where it comes to nothing.
    pub fn steps_in_vain(&self) -> u64
        ensures { result ≡ steps_in_vain (view_of self.now) }
    {
        match self {
            // FAILED, a tail loaded twice and taken, and no link
            Actor::User(_) | Actor::Writer(_) | Actor::Flusher(_) | Actor::Closer(_) => 5,
            // fewer than it takes to load a page
            Actor::Cleaner(cleaner) => cleaner.frame_words().saturating_sub(1),
            // FAILED, CTAIL, each reader's place, and each list taken and given
            Actor::Checkpointer(checkpointer) => {
                2 + u64::from(checkpointer.reader_count()) + 2 * FLUSH_LISTS
            }
            // FAILED and FLUSHED
            Actor::Archiver(_) | Actor::Follower(_) => 2,
        }
    }
}
