// Commits from threads beside one another. What each puts is an lsn that was answered before, to whichever user.
ghost use Rattle.std.specs.Prelude.{⊤};

use crate::lines::commit;
use crate::store::{Device, LiveStore, LiveUser, PLAIN, Way, run};
use model_log::{Rec, Whole};
use redo_live::{Refused, Work};
use redo_recover::Recovered;
use std::alloc::Global;
use std::process::Abort;
use std::sync::{Mutex, Wait};
use std::test::Fail;
use std::thread::Threads;

/// The modes of the lines that each user commits. The group of one has seven bytes, so those of sixteen users end in the first block,
/// and no checkpoint passes one of them.
const MODES: [&str; 4] = ["n", "f", "w", "f"];

/// In which mode the user of this place has put which lsn, and what came of that: where the group ends, or why there is none.
#[derive(Clone, Copy, Debug)]
pub struct Told {
    pub place: usize,
    pub mode: &'static str,
    pub lsn: u64,
    pub answer: Result<u64, Refused>,
}

/// What users are told as they commit, in the order of their answers.
#[derive(Drop)]
struct Commits<'a, R> {
    rt: &'a R,
    alloc: Global,
    told: Mutex<Vec<Told>>,
}

impl<'a, R: Abort + Wait> Work<Device, Device> for Commits<'a, R> {
    ghost does = { λ _ _ _ _ _. ⊤ };

    /// The user of this place puts an lsn in each mode, at an offset of its own in a page that it shares with another one.
    fn serve(&self, store: &LiveStore, place: usize, user: &mut LiveUser) {
        for mode in MODES {
            let lsn = last_end(self.told.lock(self.rt).as_slice());
            let line = format!(in self.alloc;
                "1 {mode} b4 {} {} {lsn}",
                place % 8,
                offset_of(place)
            );
            let answer = commit(self.rt, self.alloc, store, user, line);
            let told = Told {
                place,
                mode,
                lsn,
                answer,
            };
            let _ = self.told.lock(self.rt).push(told);
        }
    }
}

/// Where the user of this place puts its lsns.
fn offset_of(place: usize) -> u64 {
    38 + 4 * (place as u64 % 16)
}

/// Where the last group ends of which a user was told, or where groups begin.
fn last_end(told: &[Told]) -> u64 {
    let ends = told.iter().filter_map(|one| one.answer.ok());
    ends.last().unwrap_or(8204)
}

/// Whether the group puts what this user was told to put, and begins where the commit that was answered by that lsn has ended, or
/// behind it.
fn is_of(group: &Whole, one: &Told) -> bool {
    match group.group.0.first() {
        Some(Rec::Num { offset, value, .. }) => {
            u64::from(*offset) == offset_of(one.place)
                && *value == one.lsn
                && one.lsn <= group.start
        }
        _ => false,
    }
}

/// Sees that the group which ends where a user was told is the user's, if the log goes as far. It does where the answer was to
/// come once the group is flushed, and, since closing flushes what is left, where no device has failed.
fn see_kept(rt: &impl Abort, one: &Told, end: u64, read: &Recovered, code: u32) {
    match read.groups.iter().find(|group| group.end == end) {
        Some(group) => assert!(rt; is_of(group, one), "{one:?} {}", group.start),
        None => {
            let may_lack = read.end < end && one.mode != "f" && code != 0;
            assert!(rt; may_lack, "{one:?} {}", read.end);
        }
    }
}

/// What the users of a new store are told that is opened in this way, and the code with which it failed, 0 if it didn't. Sees that
/// what is read of it is what they were told.
pub fn see_told<R: Abort + AllocGlobal + Threads + Wait + Sync>(
    rt: &R,
    way: Way,
) -> Result<(Vec<Told>, u32), Fail> {
    let alloc = rt.alloc();
    let count = MODES.len().saturating_mul(way.users as usize);
    let work = Commits {
        rt,
        alloc,
        told: Mutex::new(Vec::with_capacity(alloc, count)?),
    };
    let (read, code) = run(rt, alloc, way, &work)?;
    let told = work.told.into_inner();
    assert!(rt; told.len() == count, "{way:?} {}", told.len());
    for one in told.iter() {
        if let Ok(end) = one.answer {
            see_kept(rt, one, end, &read, code);
        }
    }
    Ok((told, code))
}

#[test]
fn commits_are_answered(rt: HostRuntime) -> Result<(), Fail> {
    for (users, drops) in [(1, false), (4, true), (16, false)] {
        for log_only in [true, false] {
            let way = Way {
                users,
                log_only,
                drops,
                ..PLAIN
            };
            let (told, code) = see_told(&rt, way)?;
            let all = told.iter().all(|one| one.answer.is_ok());
            assert!(&rt; all && code == 0, "{way:?} {code} {told:?}");
        }
    }
    Ok(())
}
