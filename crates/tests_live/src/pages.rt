// Commits of which each is made of what a page is read to hold.
ghost use Rattle.std.specs.Prelude.{⊤};
ghost use Rattle.redo_live.specs.Holding.{IsUserOf};
ghost use Rattle.redo_live.specs.Serving.{Stays};

use crate::lines::commit;
use crate::store::{Device, LiveStore, LiveUser, PLAIN, Way, run};
use byteorder::{BigEndian, ByteOrder};
use redo_live::{Refused, Work};
use std::alloc::Global;
use std::process::Abort;
use std::sync::{Mutex, Wait};
use std::test::Fail;

/// How often each of four users counts on.
const TIMES: u64 = 12;

/// The page with the counter, which begins its user bytes.
const PAGE: u32 = 3;

/// The number with which bytes begin.
fn number_in(bytes: &[u8]) -> u64 {
    bytes.get(..8).map_or(0, BigEndian::read_u64)
}

/// What the counter is, and as of which lsn.
fn counted<R: Wait>(
    rt: &R,
    alloc: Global,
    store: &LiveStore,
    user: &mut LiveUser,
) -> Result<(u64, u64), Refused>
    requires { IsUserOf store.now user.old }
    ensures { Stays store.now user.old user.new }
{
    let shape = store.shape();
    let Ok(mut bytes) = vec![in alloc; 0u8; shape.user_bytes() as usize] else {
        return Err(Refused::NoMemory);
    };
    if shape.pages <= PAGE {
        return Err(Refused::Full);
    }
    let as_of = user.read_page(store, rt, PAGE, bytes.as_mut_slice())?;
    Ok((number_in(bytes.as_slice()), as_of))
}

/// Where the group ends of the last one that has counted on.
#[derive(Drop)]
struct Counting<'a, R> {
    rt: &'a R,
    alloc: Global,
    last: Mutex<u64>,
}

impl<'a, R: Abort + Wait> Work<Device, Device> for Counting<'a, R> {
    ghost does = { λ _ _ _ _ _. ⊤ };

    /// Commits what the page holds, and one more. What it holds is as of an lsn that no commit which was answered before ends above.
    fn serve(&self, store: &LiveStore, _place: usize, user: &mut LiveUser) {
        for _ in 0..TIMES {
            let mut last = self.last.lock(self.rt);
            let Ok((count, as_of)) = counted(self.rt, self.alloc, store, user) else {
                assert!(self.rt; false);
                return;
            };
            assert!(self.rt; *last <= as_of, "{count} {as_of}");
            let mode = ["n", "w", "f"][(count % 3) as usize];
            let line = format!(in self.alloc; "1 {mode} b8 {PAGE} 38 {}", count.wrapping_add(1));
            let answer = commit(self.rt, self.alloc, store, user, line);
            assert!(self.rt; answer.is_ok(), "{count} {answer:?}");
            *last = answer.unwrap_or(0);
        }
    }
}

/// What four users have counted on together, as it is read after the store is closed.
#[test]
fn a_commit_is_made_of_a_page_that_was_read(rt: HostRuntime) -> Result<(), Fail> {
    let alloc = rt.alloc();
    let way = Way {
        users: 4,
        log_only: false,
        ..PLAIN
    };
    let work = Counting {
        rt: &rt,
        alloc,
        last: Mutex::new(0),
    };
    let (read, code) = run(&rt, alloc, way, &work)?;
    let count = if (PAGE as usize) < read.pages.len() {
        number_in(read.pages.user_bytes(PAGE))
    } else {
        0
    };
    assert!(&rt; count == 4 * TIMES && code == 0, "{count} {code}");
    Ok(())
}

/// A user that reads a page of a log that runs alone.
#[derive(Drop)]
struct Unread<'a, R> {
    rt: &'a R,
    alloc: Global,
}

impl<'a, R: Abort + Wait> Work<Device, Device> for Unread<'a, R> {
    ghost does = { λ _ _ _ _ _. ⊤ };

    /// Is told that no page changes.
    fn serve(&self, store: &LiveStore, _place: usize, user: &mut LiveUser) {
        let read = counted(self.rt, self.alloc, store, user);
        assert!(self.rt; read == Err(Refused::LogOnly), "{read:?}");
    }
}

#[test]
fn a_log_that_runs_alone_has_no_page_to_read(rt: HostRuntime) -> Result<(), Fail> {
    let alloc = rt.alloc();
    let (_, code) = run(&rt, alloc, PLAIN, &Unread { rt: &rt, alloc })?;
    assert!(&rt; code == 0, "{code}");
    Ok(())
}
