// Runs of seats that one thread plays in turn. The users have the first seats; then come the writer, the flusher, the closer, the
// cleaner and the checkpointer.
ghost use Rattle.std.specs.Prelude.{◌≤◌};

use super::turns::{NO_TURNS, Run, see};
use crate::store::{DATA_CALLS, LOG_ALONE, LOG_CALLS, PAGES, Way};
use crate::text::{lines_of, user_lines};
use std::test::Fail;

/// One line, whose group has six bytes and is answered once it is written.
const ONE_LINE: &str = "1 w b1 3 100 7\n";

/// A line of each of two users.
const TWO_USERS: &str = "1 w b1 3 100 7\n2 w b1 4 100 8\n";

/// A line of each of two users, on one page.
const ONE_PAGE: &str = "1 w b1 3 100 7\n2 w b1 3 101 8\n";

/// A line whose group of 13 bytes is on two pages, and is answered once it is flushed.
const TWO_PAGES: &str = "1 f b1 3 100 7;b1 4 100 8\n";

/// The user reserves by its fifth call, after those on FAILED, CKPT, SN and the latch. Its group of six bytes at 8204 fills parts of
/// two words: so it is linked by the sixth call from the reservation on, 2 + 4. The writer waits until then: it takes WTAIL, finds
/// no link, and frees it. By its 21st call from there on it waits again: FAILED, WTAIL loaded and taken, the link, its clearing, the
/// next link, WTAIL freed, CKPT, FIRST, its clearing, the first word, its clearing, the second word, four with the device, and four
/// with WTAIL. A word whose bytes aren't all written yet isn't cleared.
#[test]
fn a_link_comes_six_calls_from_the_reservation(rt: HostRuntime) -> Result<(), Fail> {
    let run = Run {
        text: ONE_LINE,
        turns: "0 9 Moved, 1 4 Idle, 0 1 Moved, 1 21 Idle, 0 11 Ended",
        ..NO_TURNS
    };
    see(&rt, &run, &["code 0 marks (8210, "])
}

/// A group of 496 bytes from 8204 on ends in the next block. Its bytes fill 63 words, those of lsns 8200 to 8703, and the end's
/// first offset is stored too: so it is linked by the 68th call from the reservation on, 63 + 4 + 1, which is the user's 72nd.
#[test]
fn a_long_link_comes_68_calls_from_the_reservation(rt: HostRuntime) -> Result<(), Fail> {
    let line = lines_of(rt.alloc(), 1, "n", 1, 496)?;
    let run = Run {
        text: &line,
        turns: "0 71 Moved, 1 4 Idle, 1 5 Idle, 0 1 Moved, 1 7 Moved",
        ..NO_TURNS
    };
    see(&rt, &run, &[" groups 1: (1, 0, 8204, 8716, "])
}

/// The second user's group is linked while the first one's isn't copied yet: its link stands, and the writer waits. Once the
/// first one's is linked too, the writer takes both.
#[test]
fn second_links_first(rt: HostRuntime) -> Result<(), Fail> {
    let run = Run {
        text: TWO_USERS,
        turns: "0 5 Moved, 1 9 Moved, 2 4 Idle, 0 5 Moved, 2 20 Moved, 0 11 Ended, 1 11 Ended",
        ..NO_TURNS
    };
    let groups = " groups 2: (1, 0, 8204, 8210, Written);(2, 0, 8210, 8216, Written); ";
    see(
        &rt,
        &run,
        &["code 0 marks (8216, 8216, 8204, 8192) ", groups],
    )
}

/// Two users on one page: the second waits until the first has released the latch. The cleaner writes both bytes, and as the page's
/// lsn the end of the second group, 8216, of whose bytes the others are 0.
#[test]
fn two_seats_write_one_page(rt: HostRuntime) -> Result<(), Fail> {
    let run = Run {
        text: ONE_PAGE,
        turns: "0 4 Moved, 1 4 Idle, 0 15 Moved, 1 2 Idle, 0 1 Moved, 1 14 Moved, 2 19 Moved, 0 1 Ended, 1 1 Ended, 3 5 Moved, 5 528 Moved",
        places: &[(3, 100), (3, 101), (3, 22), (3, 23)],
        ..NO_TURNS
    };
    see(&rt, &run, &["code 0 ", " places 7 8 32 24"])
}

/// The log device passes so many calls after those of opening.
fn log_passes(calls: u64) -> Way
    requires { calls ≤ 10 }
{
    Way {
        log_calls: Some(LOG_CALLS + calls),
        ..PAGES
    }
}

/// The data device does.
fn data_passes(calls: u64) -> Way
    requires { calls ≤ 10 }
{
    Way {
        data_calls: Some(DATA_CALLS + calls),
        ..PAGES
    }
}

/// Five rounds of the line on two pages.
fn five_rounds(way: Way) -> Run<'static> {
    Run {
        text: TWO_PAGES,
        way,
        rounds: 5,
        ..NO_TURNS
    }
}

/// A device fails at each of its calls: the log device where the group is written and where it is synced, and the data device at
/// each of the five of a batch of two pages. In the first round the user comes to wait for FLUSHED; in the second all others go
/// before it, so the call fails, and FAILED has its code, 1 or 2. The user's next step is the load of FAILED: so it ends by the
/// failure, and its group is lost, even where FLUSHED has passed its end. One call more, and nothing fails: no checkpoint is
/// written, since CTAIL, rounded down, is still that of opening.
#[test]
fn a_device_fails_at_each_call(rt: HostRuntime) -> Result<(), Fail> {
    let lost = " groups 1: (1, 0, 8204, 8217, Lost);";
    let flushed = ["code 0 ", " groups 1: (1, 0, 8204, 8217, Flushed);"];
    for calls in 0..2 {
        see(&rt, &five_rounds(log_passes(calls)), &["code 1 ", lost])?;
    }
    see(&rt, &five_rounds(log_passes(2)), &flushed)?;
    for calls in 0..5 {
        see(&rt, &five_rounds(data_passes(calls)), &["code 2 ", lost])?;
    }
    see(&rt, &five_rounds(data_passes(5)), &flushed)
}

/// The log device fails at its first call of the run, while the closer holds CTAIL, at which it has found no link. The writer stores
/// the code into FAILED, gives the device and ends. The closer frees CTAIL before it loads FAILED and ends. So does the user: it
/// goes on until it waits for FLUSHED.
#[test]
fn a_closer_frees_its_tail_before_it_ends(rt: HostRuntime) -> Result<(), Fail> {
    let run = Run {
        text: "1 f b1 3 100 7\n",
        way: log_passes(0),
        turns: "3 3 Moved, 0 10 Moved, 1 16 Failed, 3 1 Idle, 3 1 Failed, 0 11 Idle, 0 1 Failed",
        ..NO_TURNS
    };
    let group = " groups 1: (1, 0, 8204, 8210, Lost);";
    see(&rt, &run, &["code 1 marks (8210, 8204, ", group])
}

/// The turns of the run below.
const TURNS: &str =
    "0 63720 Idle, 1 5 Idle, 2 5 Idle, 3 5 Idle, 4 5 Idle, 5 5 Idle, 6 5 Idle, 7 5 Idle, 8 5 Idle, 9 5 Idle, 10 5 Idle, 11 5 Idle, 12 5 Idle, 13 5 Idle, 14 5 Idle, 15 5 Idle, 16 22736 Moved";

/// Sixteen users with groups of ten bytes go on without the writer until each waits for it: the group that it has reserved would
/// end at 73,728 or above, 65,536 lsns past the block of WRITE. The first one has moved WTAIL once, to 40,978, where its 3,176th
/// group starts.
///
/// The writer then follows 3,173 links, up to 73,716. It keeps 63,480 bytes and 128 first offsets until they are written: two of its
/// turns are for each block, and two for each of 8,063 words, but one for the last.
#[test]
fn a_writer_keeps_what_the_ring_holds(rt: HostRuntime) -> Result<(), Fail> {
    let mut text = user_lines(rt.alloc(), 1, "n", 6348, 10)?;
    text.push_str(&lines_of(rt.alloc(), 16, "n", 1, 10)?)?;
    let run = Run {
        text: &text,
        way: LOG_ALONE,
        turns: TURNS,
        ..NO_TURNS
    };
    let marks = " marks (73716, 73716, 8204, 8192) ";
    see(&rt, &run, &[marks, " groups 6364: "])
}
