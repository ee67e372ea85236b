// What a user makes of the answers while it looks for room in the two link buffers. Where there is none it advances the tail
// itself.
ghost use Rattle.std.specs.Prelude.{◌≡◌, false};
ghost use Rattle.model_core.specs.{can_close, can_link, tail_of, user_took};
ghost use Rattle.redo_link.specs.{FindsLsn};
ghost use Rattle.redo_useractor.specs.Ending.{step_end};

use crate::actor::UserActor;
use model_core::{AdvanceStep, CLOSED_LINKS, UserStep, WRITTEN_LINKS};
use redo_link::{frees, loaded_tail, tail_of};
use redo_words::Step;

impl UserActor {
    /// WTAIL was loaded: whether the recent-written buffer has the place of its link.
    pub(crate) fn checks_link(&mut self, n: u64) -> Step
        requires step { self.old.step ≡ UserStep.LoadWtail }
        requires own { self.old.checks ≡ false }
        ensures state { self.new ≡ user_took self.old n UserStep.LoadWtail }
        ensures step { result ≡ step_end self.old n UserStep.LoadWtail self.new }
    {
        let start = self.start_lsn();
        let tail = tail_of(n);
        self.loaded.wtail = tail;
        self.step = if start < tail + WRITTEN_LINKS {
            UserStep::StoreLink
        } else {
            UserStep::AdvanceWritten(AdvanceStep::LoadTail)
        };
        Step::Moved
    }

    /// A step of its advance over the recent-written buffer was answered.
    pub(crate) fn advances_written(&mut self, n: u64, step: AdvanceStep) -> Step
        requires step { self.old.step ≡ UserStep.AdvanceWritten step }
        requires finds { FindsLsn self.old.advance n step }
        ensures state { self.new ≡ user_took self.old n (UserStep.AdvanceWritten step) }
        ensures step { result ≡ step_end self.old n (UserStep.AdvanceWritten step) self.new }
    {
        let stays = self.advance.stays_put(n, step);
        let next = self.advance.next(n, step);
        self.advance.take(n, step);
        self.loaded.wtail = loaded_tail(self.loaded.wtail, n, step);
        self.checks = stays;
        self.step = if stays {
            UserStep::LoadWtail
        } else if frees(step) {
            UserStep::ReloadWtail
        } else {
            UserStep::AdvanceWritten(next)
        };
        if stays { Step::Idle } else { Step::Moved }
    }

    /// WTAIL was loaded again, after an advance: whether there is room now.
    pub(crate) fn checks_link_again(&mut self, n: u64) -> Step
        requires step { self.old.step ≡ UserStep.ReloadWtail }
        ensures state { self.new ≡ user_took self.old n UserStep.ReloadWtail }
        ensures step { result ≡ step_end self.old n UserStep.ReloadWtail self.new }
    {
        let start = self.start_lsn();
        let tail = tail_of(n);
        self.loaded.wtail = tail;
        if start < tail + WRITTEN_LINKS {
            self.step = UserStep::StoreLink;
            return Step::Moved;
        }
        self.step = UserStep::LoadWtail;
        self.waits()
    }

    /// CTAIL was loaded: whether the recent-closed buffer has the place of its link.
    pub(crate) fn checks_close(&mut self, n: u64) -> Step
        requires step { self.old.step ≡ UserStep.LoadCtail }
        requires own { self.old.checks ≡ false }
        ensures state { self.new ≡ user_took self.old n UserStep.LoadCtail }
        ensures step { result ≡ step_end self.old n UserStep.LoadCtail self.new }
    {
        let start = self.start_lsn();
        let tail = tail_of(n);
        let (page, cell) = (self.page, self.cell);
        self.loaded.ctail = tail;
        if start < tail + CLOSED_LINKS {
            self.to_cells(page, cell);
        } else {
            self.step = UserStep::AdvanceClosed(AdvanceStep::LoadTail);
        }
        Step::Moved
    }

    /// A step of its advance over the recent-closed buffer was answered.
    pub(crate) fn advances_closed(&mut self, n: u64, step: AdvanceStep) -> Step
        requires step { self.old.step ≡ UserStep.AdvanceClosed step }
        requires finds { FindsLsn self.old.advance n step }
        ensures state { self.new ≡ user_took self.old n (UserStep.AdvanceClosed step) }
        ensures step { result ≡ step_end self.old n (UserStep.AdvanceClosed step) self.new }
    {
        let stays = self.advance.stays_put(n, step);
        let next = self.advance.next(n, step);
        self.advance.take(n, step);
        self.loaded.ctail = loaded_tail(self.loaded.ctail, n, step);
        self.checks = stays;
        self.step = if stays {
            UserStep::LoadCtail
        } else if frees(step) {
            UserStep::ReloadCtail
        } else {
            UserStep::AdvanceClosed(next)
        };
        if stays { Step::Idle } else { Step::Moved }
    }

    /// CTAIL was loaded again, after an advance: whether there is room now.
    pub(crate) fn checks_close_again(&mut self, n: u64) -> Step
        requires step { self.old.step ≡ UserStep.ReloadCtail }
        ensures state { self.new ≡ user_took self.old n UserStep.ReloadCtail }
        ensures step { result ≡ step_end self.old n UserStep.ReloadCtail self.new }
    {
        let start = self.start_lsn();
        let tail = tail_of(n);
        let (page, cell) = (self.page, self.cell);
        self.loaded.ctail = tail;
        if start < tail + CLOSED_LINKS {
            self.to_cells(page, cell);
            return Step::Moved;
        }
        self.step = UserStep::LoadCtail;
        self.waits()
    }
}
