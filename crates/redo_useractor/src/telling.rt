// What a user tells of its groups.
ghost use Rattle.std.specs.Prelude.{◌≡◌, ◌≢◌, ◌<◌, ◌-◌, ◌||◌, MatchOption, length, slice_index, true};
ghost use Rattle.model_core.specs.{line_at};
ghost use Rattle.redo_useractor.specs.Ending.{has_ended};

use crate::actor::UserActor;
use model_core::UserStep;

impl UserActor {
    /// Its number.
    pub fn number(&self) -> u32
        ensures { result ≡ self.now.user }
    {
        self.user
    }

    /// Whether its last commit is answered, or it has ended by a failure.
    pub fn has_ended(&self) -> bool
        ensures { result ≡ has_ended self.now.step }
    {
        matches!(self.step, UserStep::Done | UserStep::Failed)
    }

    /// The code of the failure that has ended it, if one has.
    pub fn failure(&self) -> Option<u32>
        ensures { MatchOption result (self.now.step ≢ UserStep.Failed) (λ code. (self.now.step ≡ UserStep.Failed) × (code ≡ self.now.code)) }
    {
        match self.step {
            UserStep::Failed => Some(self.code),
            _ => None,
        }
    }

    /// Whether it keeps all its lines.
    pub fn keeps_all(&self) -> bool
        ensures { result ≡ self.now.keeps }
    {
        self.book.keeps_all()
    }

    /// How many of its commits are answered.
    pub fn answered_count(&self) -> usize
        requires { self.now.keeps ≡ true }
        ensures { result ≡ self.now.k }
    {
        self.book.done_count()
    }

    /// How many groups it has reserved.
    pub fn group_count(&self) -> usize
        requires { self.now.keeps ≡ true }
        ensures { result ≡ length self.now.starts }
    {
        self.book.group_count()
    }

    /// How many bytes of groups precede one of its groups.
    pub fn group_start(&self, group: usize) -> u64
        requires keeps { self.now.keeps ≡ true }
        requires group { group < length self.now.starts }
        ensures { result ≡ slice_index self.now.starts group }
    {
        self.book.group_start(group)
    }

    /// How many bytes the group of one of its lines has.
    pub fn group_length(&self, line: usize) -> usize
        requires keeps { self.now.keeps ≡ true }
        requires line { line < length self.now.lines }
        ensures { result ≡ length (line_at self.now.lines line).bytes }
    {
        self.book.group_length(line)
    }

    /// How many bytes of groups precede its last group, and how many that has, once the commit of its last line is answered.
    pub fn last_group(&self) -> (u64, usize)
        requires done { self.now.step ≡ UserStep.Done }
        requires some { 0 < length self.now.starts }
        ensures start { result.0 ≡ slice_index self.now.starts (length self.now.starts - 1) }
        ensures length { result.1 ≡ length (line_at self.now.lines (length self.now.starts - 1)).bytes }
    {
        self.book.last_group()
    }
}
