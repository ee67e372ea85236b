// What a user makes of the answers.
ghost use Rattle.std.specs.Prelude.{◌≡◌, ◌≢◌, ◌<◌, ◌+◌, ◌^◌, ◌==◌, false, if◌then◌else◌, length, true};
ghost use Rattle.model_core.specs.States as actor;
ghost use Rattle.model_core.specs.{AnswerFits, after_link, answer_limit, answered, checked_of, group_bytes, group_end, has_space, step_of, took, user_ending, user_program, user_took};
ghost use Rattle.redo_useractor.specs.Ending.{step_end};
ghost use Rattle.redo_useractor.specs.ToLink.{lacks_room, linking_steps, to_link};
ghost use Rattle.redo_useractor.specs.UserView.{end_limit};

use crate::actor::UserActor;
use model_base::BLOCK_SIZE;
use model_core::{FREE_MARGIN, LOG_BUFFER, UserStep};
use redo_lsn::lsn_of;
use redo_words::{Answer, Step, heard, old_of};

impl UserActor {
    /// What it makes of FAILED.
    fn checked(&mut self, n: u64) -> Step
        requires { n < 2 ^ 32 }
        ensures state { self.new ≡ checked_of user_program self.old n }
        ensures step { result ≡ (if n == 0 then Step.Moved else Step.Failed n) }
    {
        self.checks = false;
        if n == 0 {
            return Step::Moved;
        }
        self.code = n as u32;
        self.step = UserStep::Failed;
        Step::Failed(self.code)
    }

    /// It waits: it checks FAILED, and then takes the same step again.
    pub(crate) fn waits(&mut self) -> Step
        ensures state { self.new ≡ record self.old { checks = true } }
        ensures step { result ≡ Step.Idle }
    {
        self.checks = true;
        Step::Idle
    }

    /// The commit of the group in hand is answered.
    fn answered(&mut self) -> Step
        requires line { self.old.k < length self.old.lines }
        requires one { length self.old.starts ≡ self.old.k + 1 }
        ensures state { self.new ≡ answered self.old }
        ensures step { result ≡ (if self.old.k + 1 == length self.old.lines then Step.Ended else Step.Moved) }
    {
        if self.book.pass() {
            self.checks = false;
            self.step = UserStep::Done;
            return Step::Ended;
        }
        self.checks = true;
        self.step = UserStep::LoadCheckpoint;
        Step::Moved
    }

    /// Its group is linked, and closed where it has pages.
    pub(crate) fn linked(&mut self) -> Step
        requires line { self.old.k < length self.old.lines }
        requires one { length self.old.starts ≡ self.old.k + 1 }
        requires small { group_end self.old < end_limit }
        ensures state { self.new ≡ after_link self.old }
        ensures step { result ≡ user_ending (after_link self.old).code (after_link self.old).step }
    {
        if self.line().mode == 0 {
            return self.answered();
        }
        self.step = UserStep::AwaitMark;
        Step::Moved
    }

    /// Whether the log has space beyond this SN for groups that have begun.
    #[tactic(auto, unfolding(model_core::specs::Lanes::lsn))]
    fn has_space(&self, sn: u64) -> bool
        requires { sn < answer_limit }
        ensures { result ≡ has_space self.now sn }
    {
        let end = self.loaded.ckpt + BLOCK_SIZE * u64::from(self.blocks);
        lsn_of(sn) + FREE_MARGIN <= end
    }

    /// SN was loaded: whether the log has space for a group.
    fn checks_space(&mut self, n: u64) -> Step
        requires step { self.old.step ≡ UserStep.LoadSn }
        requires small { n < answer_limit }
        ensures state { self.new ≡ user_took self.old n UserStep.LoadSn }
        ensures step { result ≡ step_end self.old n UserStep.LoadSn self.new }
    {
        if !self.has_space(n) {
            self.checks = true;
            self.step = UserStep::LoadCheckpoint;
            return Step::Idle;
        }
        let pages = self.line().page_count();
        self.page = 0;
        self.cell = 0;
        self.step = if pages == 0 {
            UserStep::Reserve
        } else {
            UserStep::TakeLatch
        };
        Step::Moved
    }

    /// It has the latch of a page, or that is held.
    fn takes_latch(&mut self, n: u64) -> Step
        requires step { self.old.step ≡ UserStep.TakeLatch }
        ensures state { self.new ≡ user_took self.old n UserStep.TakeLatch }
        ensures step { result ≡ step_end self.old n UserStep.TakeLatch self.new }
    {
        if n != 0 {
            return self.waits();
        }
        let pages = self.line().page_count();
        self.page += 1;
        self.step = if self.page == pages {
            UserStep::Reserve
        } else {
            UserStep::TakeLatch
        };
        Step::Moved
    }

    /// Its group has its place.
    fn reserved(&mut self, n: u64) -> Step
        requires step { self.old.step ≡ UserStep.Reserve }
        requires small { n + length (group_bytes self.old) < end_limit }
        ensures state { self.new ≡ user_took self.old n UserStep.Reserve }
        ensures step { result ≡ step_end self.old n UserStep.Reserve self.new }
    {
        self.book.start(n);
        self.start = n;
        self.copied = 0;
        self.page = 0;
        self.cell = 0;
        self.step = UserStep::LoadWrite;
        Step::Moved
    }

    /// WRITE was loaded: whether the log buffer has room for its group.
    fn checks_room(&mut self, n: u64) -> Step
        requires step { self.old.step ≡ UserStep.LoadWrite }
        requires small { n < answer_limit }
        ensures state { self.new ≡ user_took self.old n UserStep.LoadWrite }
        ensures step { result ≡ step_end self.old n UserStep.LoadWrite self.new }
    {
        let end = self.end_lsn();
        self.loaded.write = n;
        if end < n - n % BLOCK_SIZE + LOG_BUFFER {
            self.step = UserStep::AddCell;
            return Step::Moved;
        }
        self.waits()
    }

    /// Bytes of its group are copied, as many as stand in one word.
    fn copies(&mut self, n: u64) -> Step
        requires step { self.old.step ≡ UserStep.AddCell }
        ensures state { self.new ≡ user_took self.old n UserStep.AddCell }
        ensures step { result ≡ step_end self.old n UserStep.AddCell self.new }
    {
        let len = self.line().text.len();
        let crosses = self.crosses();
        self.copied += self.next_count();
        self.step = if self.copied < len {
            UserStep::AddCell
        } else if crosses {
            UserStep::StoreFirst
        } else {
            UserStep::LoadWtail
        };
        Step::Moved
    }

    /// Its link is stored.
    fn stored_link(&mut self, n: u64) -> Step
        requires step { self.old.step ≡ UserStep.StoreLink }
        ensures state { self.new ≡ user_took self.old n UserStep.StoreLink }
        ensures step { result ≡ step_end self.old n UserStep.StoreLink self.new }
    {
        if self.line().page_count() == 0 {
            return self.linked();
        }
        self.step = UserStep::LoadCtail;
        Step::Moved
    }

    /// The mark that its line names was loaded.
    fn awaited(&mut self, n: u64) -> Step
        requires step { self.old.step ≡ UserStep.AwaitMark }
        ensures state { self.new ≡ user_took self.old n UserStep.AwaitMark }
        ensures step { result ≡ step_end self.old n UserStep.AwaitMark self.new }
    {
        let end = self.end_lsn();
        if self.line().mode == 1 {
            self.loaded.flushed = n;
        } else {
            self.loaded.write = n;
        }
        if end <= n {
            self.answered()
        } else {
            self.waits()
        }
    }

    /// The Op of its own step was answered, and not a check of FAILED.
    #[tactic(auto, using(crate::proofs::Heard::heard_at_most))]
    fn took_own(&mut self, answer: Answer) -> Step
        requires own { self.old.checks ≡ false }
        requires fits { AnswerFits (actor.User self.old) answer }
        ensures state { actor.User self.new ≡ took (actor.User self.old) answer }
        ensures step { result ≡ step_of (actor.User self.old) answer }
    {
        let n = heard(answer);
        match self.step {
            UserStep::LoadCheckpoint => {
                self.loaded.ckpt = n;
                self.step = UserStep::LoadSn;
                return Step::Moved;
            }
            UserStep::LoadSn => return self.checks_space(n),
            UserStep::TakeLatch => return self.takes_latch(n),
            UserStep::Reserve => return self.reserved(n),
            UserStep::LoadWrite => return self.checks_room(n),
            UserStep::AddCell => return self.copies(n),
            UserStep::LoadWtail => return self.checks_link(n),
            UserStep::AdvanceWritten(step) => return self.advances_written(n, step),
            UserStep::ReloadWtail => return self.checks_link_again(n),
            UserStep::StoreLink => return self.stored_link(n),
            UserStep::LoadCtail => return self.checks_close(n),
            UserStep::AdvanceClosed(step) => return self.advances_closed(n, step),
            UserStep::ReloadCtail => return self.checks_close_again(n),
            UserStep::LoadFrame => return self.loaded_frame(n),
            UserStep::StoreFrame => return self.stored_frame(n),
            UserStep::LoadOldest if n == 0 => self.step = UserStep::AddToList,
            UserStep::LoadOldest | UserStep::GiveList => return self.to_next_page(),
            UserStep::AddToList => return self.added(n),
            UserStep::ReleaseLatch => return self.released(n),
            UserStep::AwaitMark => return self.awaited(n),
            UserStep::Done => return Step::Ended,
            UserStep::Failed => return Step::Failed(self.code),
            UserStep::StoreFirst => self.step = UserStep::LoadWtail,
            UserStep::StoreNewest => self.step = UserStep::LoadOldest,
            UserStep::StoreOldest => self.step = UserStep::GiveList,
            UserStep::StoreClosedLink => {
                self.page = 0;
                self.step = UserStep::ReleaseLatch;
            }
        }
        Step::Moved
    }

    /// Takes the answer to the Op that it asked for. On the way from a reservation to the link each one that doesn't wait
    /// brings it one Op nearer, but those from a load of WTAIL that finds no room up to the one that finds some.
    pub fn took(&mut self, answer: Answer) -> Step
        requires { AnswerFits (actor.User self.old) answer }
        ensures state { actor.User self.new ≡ took (actor.User self.old) answer }
        ensures step { result ≡ step_of (actor.User self.old) answer }
        ensures reserves { self.old.checks ≡ false → self.old.step ≡ UserStep.Reserve → linking_steps self.new ≡ to_link self.new + 1 }
        ensures nearer { self.old.checks ≡ false → 0 < to_link self.old → result ≢ Step.Idle → to_link self.old ≡ to_link self.new + (if lacks_room self.new then 0 else 1) }
    {
        if self.checks {
            return self.checked(old_of(answer));
        }
        self.took_own(answer)
    }
}
