// Runs in which the log buffer, or the log itself, comes round.
use super::runs::{NO_TURNS, Run, see};
use std::test::Fail;

/// A line of 8,192 bytes, the most that a group may have, of each of eight users, each on a page of its own; these, and the
/// writer.
const FULL_RING: Run = Run {
    text: "\
1 f s 0 38 (11*4050);s 0 38 (11*4050);s 0 38 (11*70)\n\
2 f s 1 38 (22*4050);s 1 38 (22*4050);s 1 38 (22*70)\n\
3 f s 2 38 (33*4050);s 2 38 (33*4050);s 2 38 (33*70)\n\
4 f s 3 38 (44*4050);s 3 38 (44*4050);s 3 38 (44*70)\n\
5 f s 4 38 (55*4050);s 4 38 (55*4050);s 4 38 (55*70)\n\
6 f s 5 38 (66*4050);s 5 38 (66*4050);s 5 38 (66*70)\n\
7 f s 6 38 (77*4050);s 6 38 (77*4050);s 6 38 (77*70)\n\
8 f s 7 38 (88*4050);s 7 38 (88*4050);s 7 38 (88*70)\n",
    turns: "0+6 1+6 2+6 3+6 4+6 5+6 6+6 7-6 0+1044 8+2124 7-2 8+2 7+2",
    rounds: 2,
    ..NO_TURNS
};

/// What is told of the groups of it, and of the pages.
const GROUPS: &str = "Done 0 8: \
(1, 0, 8204, 16652, Flushed);(2, 0, 16652, 25116, Flushed);(3, 0, 25116, 33564, Flushed);(4, 0, 33564, 42028, Flushed);\
(5, 0, 42028, 50476, Flushed);(6, 0, 50476, 58940, Flushed);(7, 0, 58940, 67388, Flushed);(8, 0, 67388, 75852, Flushed); ";

const PAGES: &str = "(75852, 75852, 75852, 75776) (0, 75852) [\
(0, 16652, Some(17));(1, 25116, Some(34));(2, 33564, Some(51));(3, 42028, Some(68));\
(4, 50476, Some(85));(5, 58940, Some(102));(6, 67388, Some(119));(7, 75852, Some(136));]";

/// Seven users have reserved 8,192 bytes each. The eighth one's group would end at 75,852, which is past the log buffer of
/// 65,536 bytes from the block of WRITE on: it waits until the first group is written, and WRITE stands at 16,652. In the
/// first round the sixth user finds its link 32,768 past WTAIL, and moves WTAIL itself over the groups that are linked. In the
/// second the third, the fifth and the seventh move CTAIL. The k-th group ends at the sn 7,936 + 8,192 * k.
#[test]
fn a_full_ring(rt: HostRuntime) -> Result<(), Fail> {
    see(&rt, &FULL_RING, &[GROUPS, PAGES])
}

/// Such a line of each of three users.
const CLOSED_TAIL: Run = Run {
    text: "\
1 n s 0 38 (11*4050);s 0 38 (11*4050);s 0 38 (11*70)\n\
2 n s 1 38 (22*4050);s 1 38 (22*4050);s 1 38 (22*70)\n\
3 n s 2 38 (33*4050);s 2 38 (33*4050);s 2 38 (33*70)\n",
    turns: "0+1564 1.1567 2-1055 0.2 2.526",
    ..NO_TURNS
};

/// The closer gets no turn. The third user's group starts at 25,116, and CTAIL stands at 8,204. As long as the first one isn't
/// closed the third finds no link at CTAIL, frees it and waits. Then it moves CTAIL itself over the first two, and ends.
#[test]
fn a_user_moves_the_closed_tail(rt: HostRuntime) -> Result<(), Fail> {
    let groups =
        "Done 0 3: (1, 0, 8204, 16652, Copied);(2, 0, 16652, 25116, Copied);(3, 0, 25116, 33564, Copied); ";
    see(&rt, &CLOSED_TAIL, &[groups, "(8204, 8204, 8204, 8192)"])
}
