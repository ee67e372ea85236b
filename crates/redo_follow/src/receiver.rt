// Who takes the groups that a follower reads.
ghost use Rattle.std.specs.Prelude.{List};
ghost use Rattle.model_core.specs.{Given};
ghost use Rattle.redo_follow.specs.Handing.{with_group};

/// What takes groups.
pub trait Receiver {
    /// It stands for a list of groups: those that it took, in their order.
    ghost stands_for: { Self → List Given → Type 0 };

    /// Takes a group: the lsns at which it starts and ends, and its text. It then stands for each list that it stood
    /// for, with the group at the end.
    fn group(&mut self, start: u64, end: u64, text: &[u8])
        ensures { (got : List Given) → stands_for self.old got
            → stands_for self.new (with_group got start end text.now) };
}
