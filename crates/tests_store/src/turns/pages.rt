// Runs whose pages are written to the data device.
use super::runs::{NO_TURNS, Run, see};
use std::test::Fail;

/// A line of each of two users on one page; these, the writer, the flusher, and the cleaner.
const ONE_PAGE: Run = Run {
    text: "1 w b1 3 100 7\n2 w b1 3 101 8\n",
    turns: "0+4 1-4 0+15 1-2 0+1 1+14 2+19 0.1 1.1 3+5 5+528",
    places: &[(3, 100), (3, 101)],
    ..NO_TURNS
};

/// Two users on one page: the second waits until the first has released the latch. The cleaner writes both bytes.
#[test]
fn two_users_on_one_page(rt: HostRuntime) -> Result<(), Fail> {
    let left =
        "Done 0 2: (1, 0, 8204, 8210, Flushed);(2, 0, 8210, 8216, Flushed); (8216, 8216, 8216, 8192)";
    see(&rt, &ONE_PAGE, &[left, "places 7 8 "])
}

/// Two lines of a user on one page, and a line of another user on another page; these, the writer, the flusher, and the
/// cleaner.
const HELD: Run = Run {
    text: "1 n b1 3 100 7\n1 n b1 3 100 9\n2 n b1 4 100 8\n",
    turns: "0+20 1.19 2+19 3+5 0+4 5+529 5-10 0.12",
    places: &[(3, 100), (4, 100)],
    ..NO_TURNS
};

/// The cleaner goes on to the next page where a latch is held, and leaves the page of the latch in its list: the user that
/// holds it finds the oldest change still there, and doesn't list the page again, which would take it three turns more.
#[test]
fn a_held_latch_is_left(rt: HostRuntime) -> Result<(), Fail> {
    see(&rt, &HELD, &["Done 0 ", "places 0 8 "])
}

/// A line of 8,192 bytes of each of two users; these, the writer, the flusher, the closer, the cleaner, and the checkpointer. By
/// `5+2` page 4 is ahead of what the cleaner knows to be flushed.
const OLD_PAGES: Run = Run {
    text: "\
1 n s 3 38 (55*4050);s 3 38 (55*4050);s 3 38 (55*70)\n\
2 n s 4 38 (66*4050);s 4 38 (66*4050);s 4 38 (66*70)\n",
    turns: "0.1566 2+2126 3+5 1.1567 4+8 6-10 5+2 2+2128 3+5 6-11 5+529 6-11 5+528 6+15",
    ..NO_TURNS
};

/// The log is flushed up to 25,116, but no checkpoint goes above the oldest change of a page that isn't written yet, less
/// 16,384: at first that of page 3, then that of page 4 at 16,652.
#[test]
fn a_checkpoint_waits_for_old_pages(rt: HostRuntime) -> Result<(), Fail> {
    let groups = "Done 0 2: (1, 0, 8204, 16652, Flushed);(2, 0, 16652, 25116, Flushed); ";
    let marks = "(25116, 25116, 25116, 25088) (0, 25116)";
    let pages = "[(3, 16652, Some(85));(4, 25116, Some(102));]";
    see(&rt, &OLD_PAGES, &[groups, marks, pages])
}

/// A line whose group of 29 bytes writes over its own bytes, with all of the page's user bytes set to 0 in between.
const OVERLAPPING: Run = Run {
    text: "1 f b8 3 40 1;i 3;s 3 41 0a0b;b2 3 42 7\n",
    turns: "0+529",
    rounds: 4,
    places: &[
        (3, 38),
        (3, 40),
        (3, 41),
        (3, 42),
        (3, 43),
        (3, 47),
        (3, 4087),
    ],
    ..NO_TURNS
};

/// The last record that writes a cell decides it. The user goes over the 507 words of user bytes: the first holds two of them
/// and is loaded before it is stored, the others are stored at once. So it takes 4 turns up to its latch, 2 for its place, 5 to copy
/// its words, 2 for its link, 1 for the closed mark, 508 for the frame, and 7 up to the latch's release.
#[test]
fn records_write_over_one_another(rt: HostRuntime) -> Result<(), Fail> {
    let wants = ["Done 0 ", " (1, 8233) ", "places 0 0 10 0 7 0 0 "];
    see(&rt, &OVERLAPPING, &wants)
}
