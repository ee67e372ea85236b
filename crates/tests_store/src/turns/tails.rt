// Tails that are moved by users, and by the writer beside them.
use super::runs::{NO_TURNS, Run, see};
use std::test::Fail;

/// Five lines of a user, whose groups have 4,007 bytes each. The other seats are the writer's, the flusher's, the closer's, the
/// cleaner's and the checkpointer's.
const CLOSED: Run = Run {
    text: "\
1 n s 3 38 (5a*4000)\n\
1 n s 3 38 (5a*4000)\n\
1 n s 3 38 (5a*4000)\n\
1 n s 3 38 (5a*4000)\n\
1 n s 3 38 (5a*4000)\n",
    turns: "0.5149 1+5190 2+5 4+528 5+14",
    ..NO_TURNS
};

/// The closer gets no turn. The user's fifth group starts at 24,744, which is 16,540 above CTAIL: so the user takes CTAIL, follows
/// the links of its four groups, and frees it where the fifth starts. The checkpoint tells it, since no page bounds it.
///
/// A group takes 517 turns besides those for the words of its bytes, of which there are 510, 510, 510, 509 and 509. The first one
/// takes three more to list the page. The advance takes 13: the tail is loaded and taken, each link is loaded and cleared, none is
/// found, the tail is freed, and loaded again. So the five take 1030, 1027, 1027, 1026 and 1039 turns.
#[test]
fn a_user_moves_the_tail_of_closed_groups(rt: HostRuntime) -> Result<(), Fail> {
    let marks = "(28879, 28879, 28879, 24576) (1, 28879)";
    see(&rt, &CLOSED, &["Done 0 ", marks])
}

/// Lines of five users, of 8,192 bytes each.
const FIVE_LINES: &str = "\
1 n s 1 38 (55*4050);s 1 38 (55*4050);s 1 38 (55*70)\n\
2 n s 2 38 (55*4050);s 2 38 (55*4050);s 2 38 (55*70)\n\
3 n s 3 38 (55*4050);s 3 38 (55*4050);s 3 38 (55*70)\n\
4 n s 4 38 (55*4050);s 4 38 (55*4050);s 4 38 (55*70)\n\
5 n s 5 38 (55*4050);s 5 38 (55*4050);s 5 38 (55*70)\n";

/// The turns after which the fifth user, whose group starts at 42,028, has found no room above WTAIL. The others have linked their
/// groups, and the writer, at seat 5, has had no turn.
const NO_ROOM: &str = "0+1050 1+1051 2+1050 3+1051 4+1049";

/// The user takes WTAIL after the writer has loaded it: the writer's compare-exchange finds another word, and the writer waits,
/// without a second try, also where the user has freed WTAIL by then. It waits too where it finds WTAIL held. The user follows the
/// four links, since it loads none from 32,768 lsns on, and frees WTAIL at its own start. The writer goes on over the fifth link.
#[test]
fn a_user_takes_the_tail_before_the_writer(rt: HostRuntime) -> Result<(), Fail> {
    for meeting in ["5+1 4+2 5-1 5-2 4+9", "5+1 4+11 5-1"] {
        let turns = format!(in rt.alloc(); "{NO_ROOM} {meeting} 4+2 5+10583")?;
        let run = Run {
            text: FIVE_LINES,
            turns: turns.as_str(),
            ..NO_TURNS
        };
        see(&rt, &run, &["(50476, 50476, 8204, 8192)"])?;
    }
    Ok(())
}

/// The writer takes WTAIL after the user has loaded it: the user waits likewise, and has room once the writer has freed WTAIL.
#[test]
fn the_writer_takes_the_tail_before_a_user(rt: HostRuntime) -> Result<(), Fail> {
    for meeting in ["4+1 5+2 4-1 4-3 5+9", "4+1 5+11 4-1"] {
        let turns = format!(in rt.alloc(); "{NO_ROOM} {meeting} 4+3 5+8464")?;
        let run = Run {
            text: FIVE_LINES,
            turns: turns.as_str(),
            ..NO_TURNS
        };
        see(&rt, &run, &["(42028, 42028, 8204, 8192)"])?;
    }
    Ok(())
}

/// Two lines of user 1, and such lines of five others.
const SEVEN_LINES: &str = "\
1 n b1 0 100 7\n\
1 n b1 0 101 8\n\
2 n s 2 38 (55*4050);s 2 38 (55*4050);s 2 38 (55*70)\n\
3 n s 3 38 (55*4050);s 3 38 (55*4050);s 3 38 (55*70)\n\
4 n s 4 38 (55*4050);s 4 38 (55*4050);s 4 38 (55*70)\n\
5 n s 5 38 (55*4050);s 5 38 (55*4050);s 5 38 (55*70)\n\
6 n s 6 38 (55*4050);s 6 38 (55*4050);s 6 38 (55*70)\n";

/// The turns after which the last user, at seat 5, waits for user 1; the writer's seat is 6.
const RESERVED: &str = "0+25 1+1049 2+1050 3+1049 4+1050 5+1048 5-7 5-6";

/// User 1 has linked its group at 8,204, and only reserved its next one, at 8,210. Four of the others have linked their groups after
/// that. The last one's group starts at 42,040: it moves WTAIL to 8,210, and has no room then either. When it looks again no link
/// stands at WTAIL, so it frees WTAIL as it was.
///
/// The writer loses WTAIL to that user, or finds that the user holds it: it goes on with the tail that it has loaded, 8,210, and
/// writes up to there. Once user 1 has linked its group, the last user clears five links, and has room.
#[test]
fn the_writer_goes_on_with_a_tail_that_a_user_holds(rt: HostRuntime) -> Result<(), Fail> {
    for meeting in ["6+1 5+4 6+1", "5+4 6+1"] {
        for (more, marks) in [
            ("", "(8210, 8210, 8204, 8192)"),
            ("5-2 0+4 5+17 6+10581", "(50488, 50488, 8204, 8192)"),
        ] {
            let turns = format!(in rt.alloc(); "{RESERVED} {meeting} 6+10 {more}")?;
            let run = Run {
                text: SEVEN_LINES,
                turns: turns.as_str(),
                ..NO_TURNS
            };
            see(&rt, &run, &[marks])?;
        }
    }
    Ok(())
}
