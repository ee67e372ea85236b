// Commits that don't fit their store, or for which there is no room, and what their users commit then.
ghost use Rattle.std.specs.Prelude.{⊤};

use crate::lines::{commit, filled};
use crate::store::{Device, LiveStore, LiveUser, PLAIN, Way, run};
use model_script::{Misfit, Quantity};
use redo_live::{Refused, Work};
use std::alloc::Global;
use std::process::Abort;
use std::sync::Wait;
use std::test::Fail;
use std::thread::Threads;

/// Lines that don't fit, how many bytes their strings have, what of each doesn't fit, and where the byte ends that is committed
/// then. There are eight pages. User bytes
/// begin at 38, and end before 4,088. The record of a byte has six bytes, that of a string seven beside its own. A group of several
/// records ends with a byte more, and has 8,192 bytes at the most.
const ROWS: [(&str, usize, Quantity, u64, u64); 4] = [
    ("1 f s 8 38 *", 1, Quantity::Page, 8, 8210),
    ("1 n s 3 37 *", 1, Quantity::Offset, 37, 8216),
    ("1 w s 3 4087 *", 2, Quantity::Offset, 4087, 8222),
    (
        "1 f s 3 38 *;s 4 38 *;s 5 38 *",
        4000,
        Quantity::Group,
        12_022,
        8228,
    ),
];

/// A user that commits what doesn't fit, and then what does.
#[derive(Drop)]
struct Misfits<'a, R> {
    rt: &'a R,
    alloc: Global,
}

impl<'a, R: Abort + Wait> Work<Device, Device> for Misfits<'a, R> {
    ghost does = { λ _ _ _ _ _. ⊤ };

    /// Commits each row, which is refused, and a byte.
    fn serve(&self, store: &LiveStore, _place: usize, user: &mut LiveUser) {
        for (text, bytes, quantity, number, end) in ROWS {
            let line = filled(self.alloc, text, bytes);
            let refused = commit(self.rt, self.alloc, store, user, line);
            let want = Err(Refused::Unfit(Misfit { quantity, number }));
            assert!(self.rt; refused == want, "{text} {refused:?}");
            let byte = "1 f b1 3 100 7".to_string(self.alloc);
            let answer = commit(self.rt, self.alloc, store, user, byte);
            assert!(self.rt; answer == Ok(end), "{text} {answer:?}");
        }
    }
}

#[test]
fn what_does_not_fit_comes_back(rt: HostRuntime) -> Result<(), Fail> {
    let alloc = rt.alloc();
    for log_only in [true, false] {
        let way = Way { log_only, ..PLAIN };
        let (read, code) = run(&rt, alloc, way, &Misfits { rt: &rt, alloc })?;
        assert!(&rt; read.end == 8228 && code == 0, "{} {code}", read.end);
    }
    Ok(())
}

/// Users whose groups may have so many bytes each.
#[derive(Drop)]
struct Filling<'a, R> {
    rt: &'a R,
    alloc: Global,
    room: u64,
}

impl<'a, R: Abort + Wait> Work<Device, Device> for Filling<'a, R> {
    ghost does = { λ _ _ _ _ _. ⊤ };

    /// Commits the greatest string of a page as often as there is room for it, and then one of half as many bytes each time that
    /// there is no room. Sees that none is left at last for a single byte.
    fn serve(&self, store: &LiveStore, place: usize, user: &mut LiveUser) {
        let (mut bytes, mut used) = (4050usize, 0u64);
        for _ in 0..100 {
            let line = filled(self.alloc, "1 w s 3 38 *", bytes.max(1));
            match commit(self.rt, self.alloc, store, user, line) {
                Ok(_) => used = used.wrapping_add(7).wrapping_add(bytes.max(1) as u64),
                Err(refused) => {
                    assert!(self.rt; refused == Refused::Full, "{place} {refused:?}");
                    bytes /= 2;
                }
            }
        }
        let is_full = used <= self.room && self.room < used.wrapping_add(8);
        assert!(self.rt; bytes == 0 && is_full, "{place} {bytes} {used}");
    }
}

/// With the log alone groups may come up to the lsn 777,216: 8,192 and the 2,046 blocks of a round, without the margin of 278,528.
/// From 8,204 on there are 744,992 bytes between the blocks' headers and trailers, of which each user may have as many as
/// any other actor, and the writer and the flusher are two of these: one user has 248,330, and each of four 124,165.
#[test]
fn a_full_user_commits_what_there_is_room_for(rt: HostRuntime) -> Result<(), Fail> {
    let alloc = rt.alloc();
    for (users, room) in [(1, 248_330), (4, 124_165)] {
        let way = Way { users, ..PLAIN };
        let work = Filling {
            rt: &rt,
            alloc,
            room,
        };
        let (_, code) = run(&rt, alloc, way, &work)?;
        assert!(&rt; code == 0, "{users} {code}");
    }
    Ok(())
}
