// The state of a user.
use crate::book::Book;
use crate::line::Place;
use model_core::UserStep;
use redo_link::Advance;
use std::marker::Model;

/// The marks that a user has loaded last; of the two tails without whether they are held.
#[derive(Debug, Drop)]
pub struct Marks {
    pub(crate) ckpt: u64,
    pub(crate) write: u64,
    pub(crate) wtail: u64,
    pub(crate) ctail: u64,
    pub(crate) flushed: u64,
}

impl Model for Marks {
    ghost use Rattle.model_core.specs.{LoadedMarks};

    ghost Value = { LoadedMarks };

    ghost view = { λ m. record { ckpt = m.ckpt; write = m.write; wtail = m.wtail; ctail = m.ctail; flushed = m.flushed } };
}

/// A user: it reserves a place for the group of each of its lines in order, copies the group there, changes its pages, and
/// awaits the mark that its line names. Contracts see its state, with all its lines. In memory it holds all of them, or, if it
/// began with none, the last one alone.
#[derive(Drop)]
pub struct UserActor {
    pub(crate) user: u32,
    pub(crate) blocks: u32,
    pub(crate) book: Book,
    pub(crate) start: u64,
    pub(crate) copied: usize,
    pub(crate) page: usize,
    pub(crate) cell: usize,
    // where it is in the frame, while it loads and stores its words
    pub(crate) at: Place,
    pub(crate) word: u64,
    pub(crate) loaded: Marks,
    pub(crate) advance: Advance,
    pub(crate) code: u32,
    pub(crate) checks: bool,
    pub(crate) step: UserStep,
}

impl Model for UserActor {
    ghost use Rattle.model_core.specs.{UserState};
    ghost use Rattle.redo_useractor.specs.UserView.{user_view, IsUser};

    ghost Value = { UserState };

    ghost view = { user_view };

    ghost invariant = { IsUser };
}
