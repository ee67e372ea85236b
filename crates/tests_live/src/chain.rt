// Commits of which each is made of what the one before it was answered, by whichever user that was.
ghost use Rattle.std.specs.Prelude.{⊤};

use crate::lines::commit;
use crate::store::{Device, LiveStore, LiveUser, PLAIN, Way, run};
use byteorder::{BigEndian, ByteOrder};
use redo_live::Work;
use redo_recover::Recovered;
use std::alloc::Global;
use std::process::Abort;
use std::sync::{Mutex, Wait};
use std::test::Fail;

/// How many lines each of four users commits.
const LINES: u64 = 15;

/// The end of a chain: how many commits were answered, and where the last of their groups ends.
#[derive(Clone, Copy)]
struct Link {
    number: u64,
    end: u64,
}

/// A chain, which users hand on. Who holds it commits.
#[derive(Drop)]
struct Chain<'a, R> {
    rt: &'a R,
    alloc: Global,
    link: Mutex<Link>,
}

impl<'a, R: Abort + Wait> Work<Device, Device> for Chain<'a, R> {
    ghost does = { λ _ _ _ _ _. ⊤ };

    /// Puts the lsn which the last commit was answered, page by page and at the next offset once all pages have one.
    fn serve(&self, store: &LiveStore, _place: usize, user: &mut LiveUser) {
        for _ in 0..LINES {
            let mut link = self.link.lock(self.rt);
            let Link { number, end } = *link;
            let mode = ["n", "w", "f"][(number % 3) as usize];
            let offset = 38 + number / 8 % 8 * 8;
            let line = format!(in self.alloc; "1 {mode} b8 {} {offset} {end}", number % 8);
            let answer = commit(self.rt, self.alloc, store, user, line);
            assert!(self.rt; answer.is_ok(), "{number} {answer:?}");
            *link = Link {
                number: number.wrapping_add(1),
                end: answer.unwrap_or(0),
            };
        }
    }
}

/// The lsn behind so many bytes of groups: a block of 512 bytes has 496 of them, behind a header of 12.
fn lsn_behind(bytes: u64) -> u64 {
    8192 + bytes % 65_536 / 496 * 512 + bytes % 496 + 12
}

/// The lsn that the commit of this number has put, as it is read.
fn lsn_put(read: &Recovered, number: u64) -> Option<u64> {
    let (page, at) = ((number % 8) as u32, (number / 8 % 8 * 8) as usize);
    if read.pages.len() <= page as usize {
        return None;
    }
    let bytes = read.pages.user_bytes(page).get(at..at + 8)?;
    Some(BigEndian::read_u64(bytes))
}

/// The group of each commit has ten bytes.
#[test]
fn a_commit_is_made_of_an_answer(rt: HostRuntime) -> Result<(), Fail> {
    let alloc = rt.alloc();
    for log_only in [true, false] {
        let way = Way {
            users: 4,
            log_only,
            ..PLAIN
        };
        let link = Mutex::new(Link {
            number: 0,
            end: lsn_behind(0),
        });
        let work = Chain {
            rt: &rt,
            alloc,
            link,
        };
        let (read, code) = run(&rt, alloc, way, &work)?;
        assert!(&rt;
            read.end == lsn_behind(40 * LINES) && code == 0,
            "{} {code}",
            read.end
        );
        for number in 0..4 * LINES {
            let lsn = lsn_put(&read, number);
            assert!(&rt; lsn == Some(lsn_behind(10 * number)), "{number} {lsn:?}");
        }
    }
    Ok(())
}
