// A user reads a page.
ghost use Rattle.std.specs.Prelude.{IfErr, IfOk};
ghost use Rattle.redo_live.specs.Holding.{IsUserOf};
ghost use Rattle.redo_live.specs.Reading.{HasReadPage, IsUnreadFor, MayReadPage};
ghost use Rattle.redo_live.specs.Serving.{Stays};

use crate::refused::Refused;
use crate::store::Store;
use crate::user::User;
use crossbeam_utils::Backoff;
use redo_disk::Sectors;
use redo_rule::{failure, look};
use std::sync::Wait;

impl<L: Sectors, D: Sectors> User<L, D> {
    /// Reads the user bytes of the page of this number, and answers as of which lsn they are: they have just the groups that end at
    /// or below it, each group that this user committed among them. It takes no latch, so it disturbs nobody; it tries again while
    /// others change the page. After an error the bytes are of no use.
    pub fn read_page<T: Wait>(
        &mut self,
        store: &Store<L, D>,
        rt: &T,
        number: u32,
        bytes: &mut [u8],
    ) -> Result<u64, Refused>
        requires user { IsUserOf store.now self.old }
        requires page { MayReadPage store.now number bytes.old }
        ensures mine { Stays store.now self.old self.new }
        ensures ok { IfOk result (λ as_of. HasReadPage store.now self.old number as_of bytes.new self.new) }
        ensures err { IfErr result (λ refused. IsUnreadFor store.now self.old refused self.new) }
    {
        if store.log_only {
            return Err(Refused::LogOnly);
        }
        let layout = store.shared.layout();
        let backoff = Backoff::new();
        for _ in rt.forever() {
            if let Some(as_of) = look(store.shared.ring(), &mut self.seat, layout, number, bytes) {
                return Ok(as_of);
            }
            if let Some(code) = failure(store.shared.ring(), &mut self.seat, layout) {
                return Err(Refused::Device(code));
            }
            backoff.snooze();
        }
        unreachable!()
    }
}
