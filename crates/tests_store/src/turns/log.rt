// Runs up to the log device.
use super::runs::{NO_TURNS, Run, see};
use std::test::Fail;

/// One line, whose group has six bytes and is answered once it is written.
const ONE_LINE: &str = "1 w b1 3 100 7\n";

/// A line of each of two users.
const TWO_USERS: &str = "1 w b1 3 100 7\n2 w b1 4 100 8\n";

/// A user, and the writer.
const WRITTEN: Run = Run {
    text: ONE_LINE,
    turns: "0+20 1+15 0.1",
    ..NO_TURNS
};

/// A group that is written, and never flushed, is lost in the crash: its user was answered for the write alone.
#[test]
fn written_is_not_flushed(rt: HostRuntime) -> Result<(), Fail> {
    let want = "Done 0 1: (1, 0, 8204, 8210, Written); (8210, 8210, 8204, 8192) (0, 8204)";
    see(&rt, &WRITTEN, &[want])
}

/// A user, and the writer.
const SHORT: Run = Run {
    text: ONE_LINE,
    turns: "0+9 1-4 0+1 1+5",
    ..NO_TURNS
};

/// The same with a longer line.
const LONG: Run = Run {
    text: "1 n s 3 38 (5a*1193)\n",
    turns: "0+161 1-4 0+1 1+5",
    ..NO_TURNS
};

/// From the reservation to the link a group takes four steps, one for each word that its bytes fill, and one where it stores a
/// first offset. Six bytes at 8,204 fill two words. 1,200 fill 153: 63 in each of two blocks, and 27 in a third. A user reserves
/// by its fifth turn, so it is linked by its tenth one or its 162nd. The writer frees WTAIL and waits as long as it finds no link;
/// once one stands, it clears it.
#[test]
fn a_link_comes_behind_its_words(rt: HostRuntime) -> Result<(), Fail> {
    see(&rt, &SHORT, &[" 1: (1, 0, "])?;
    see(&rt, &LONG, &[" 1: (1, 0, "])
}

/// Two users, and the writer.
const BOTH_LINKED: Run = Run {
    text: TWO_USERS,
    turns: "0+5 1+9 2-4 0+5 2+20 0.11 1.11",
    ..NO_TURNS
};

/// The first of these turns.
const SECOND_LINKED: Run = Run {
    turns: "0+5 1+9 2-4",
    ..BOTH_LINKED
};

/// The second user's group is linked while the first one's isn't copied yet: its link stands, and the tail stays before the
/// first one's. Once that is linked too, the writer takes both.
#[test]
fn second_links_first(rt: HostRuntime) -> Result<(), Fail> {
    let want = "2: (1, 0, 8204, 8210, Lost);(2, 0, 8210, 8216, Lost); (8204, 8204, 8204, 8192)";
    see(&rt, &SECOND_LINKED, &[want])?;
    let want =
        "Done 0 2: (1, 0, 8204, 8210, Written);(2, 0, 8210, 8216, Written); (8216, 8216, 8204, 8192)";
    see(&rt, &BOTH_LINKED, &[want])
}
