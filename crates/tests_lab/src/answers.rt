// Calls on devices that hold zeros.
use crate::tables::{play, play_with};
use std::test::Fail;

#[test]
fn answers_calls(rt: HostRuntime) -> Result<(), Fail> {
    play(
        &rt,
        "
new | crash              |                | 0 | open 8204 / marks 8204 8204 8204 8192 / recovered 0 8204
new | crash --max 0      |                | 0 | open 8204 / marks 8204 8204 8204 8192 / recovered 0 8204
new | crash --stop-log 0 | 1 f b1 3 100 7 | 0 | open none / left 1 1 / recovered 0 8204
new | run                | 1 f b1 3 100 7 | 0 | open 8204 / g 8204 8210 1 0 flushed / marks 8210 8210 8210 8192
new | run --log-only     | 1 f b1 3 100 7 | 0 | open 8204 / g 8204 8210 1 0 flushed / marks 8210 8210 8210 8192
new | crash              | 1 f i 3        | 0 | open 8204 / g 8204 8207 1 0 flushed / marks 8207 8207 8207 8192 / recovered 1 8207 / p 3 8207 -
new | format             | 1 f b1 3 100 7 | 0 | formatted 8192
new | gen 1 1 1          | 1 f b1 3 100 7 | 0 | 1 n b8 3 3089 5627;b1 3 250 246
new | gen 1 1 1 --max 0  | 1 f b1 3 100 7 | 0 | 1 n b8 3 3089 5627;b1 3 250 246
",
    )
}

#[test]
fn refuses_calls(rt: HostRuntime) -> Result<(), Fail> {
    play(
        &rt,
        "
new | crash                                 | 1 x b1 3 100 7  |  3 | fault script line 1
new | crash                                 | 1 f b1 9 100 7  | 10 | fault fit page 9
new | crash                                 | 1 f b2 3 4087 7 | 10 | fault fit offset 4087
new | crash                                 | 17 f i 3        | 10 | fault fit user 17
new | recover                               | 1 f b1 3 100 7  |  8 | fault store unformatted
new | dump                                  | 1 f b1 3 100 7  |  8 | fault store unformatted
new |                                       | 1 f b1 3 100 7  |  2 | fault words
new | format --pages 9                      | 1 f b1 3 100 7  | 10 | fault fit store 561152
new | format --pages 64                     | 1 f b1 3 100 7  | 10 | fault fit store 786432
new | format --log-blocks 2049              | 1 f b1 3 100 7  | 10 | fault fit log 1051136
new | format --page-size 16384              | 1 f b1 3 100 7  | 10 | fault fit store 2228224
new | format --page-size 16384 --pages 2    | 1 f b1 3 100 7  | 10 | fault fit store 2129920
new | format --page-size 16384 --pages 1024 | 1 f b1 3 100 7  | 10 | fault fit store 18874368
new | format --page-size 8192               | 1 f b1 3 100 7  |  2 | fault words
",
    )
}

/// The archive's device holds zeros.
#[test]
fn restores_nothing_without_an_archive(rt: HostRuntime) -> Result<(), Fail> {
    play(
        &rt,
        "
new  | restore --to 8204                 |                | 12 | fault archive none
new  | restore --to 18446744073709551615 |                | 12 | fault archive none
new  | restore                           |                |  2 | fault words
new  | run                               | 1 f b1 3 100 7 |  0 | open 8204 / g 8204 8210 1 0 flushed / marks 8210 8210 8210 8192
same | restore --to 8210                 | 1 x            | 12 | fault archive none
same | recover                           |                |  0 | read 1 8210 / p 3 8210 (00*62)07
",
    )
}

#[test]
fn reads_what_was_kept(rt: HostRuntime) -> Result<(), Fail> {
    play(
        &rt,
        "
new | crash                                 | 1 f b1 3 100 7 | 0 | open 8204 / g 8204 8210 1 0 flushed / marks 8210 8210 8210 8192 / recovered 1 8210 / p 3 8210 (00*62)07
new | crash --log-only                      | 1 f b1 3 100 7 | 0 | open 8204 / g 8204 8210 1 0 flushed / marks 8210 8210 8210 8192 / recovered 1 8210 / p 3 8210 (00*62)07
new | crash --threads --log-only            | 1 f b1 3 100 7 | 0 | open 8204 / g 8204 8210 1 0 flushed / marks 8210 8210 8210 8192 / recovered 1 8210 / p 3 8210 (00*62)07
new | crash --threads                       | 1 f b1 3 100 7 | 0 | open 8204 / g 8204 8210 1 0 flushed / marks 8210 8210 8210 8192 / recovered 1 8210 / p 3 8210 (00*62)07
new | crash --workers 1                     | 1 f b1 3 100 7 | 0 | open 8204 / g 8204 8210 1 0 flushed / marks 8210 8210 8210 8192 / recovered 1 8210 / p 3 8210 (00*62)07
new | crash --workers 5                     | 1 f b1 3 100 7 | 0 | open 8204 / g 8204 8210 1 0 flushed / marks 8210 8210 8210 8192 / recovered 1 8210 / p 3 8210 (00*62)07
new | crash --workers 16                    | 1 f b1 3 100 7 | 0 | open 8204 / g 8204 8210 1 0 flushed / marks 8210 8210 8210 8192 / recovered 1 8210 / p 3 8210 (00*62)07
new | crash --turns 5 --max 1000000         | 1 f b1 3 100 7 | 0 | open 8204 / g 8204 8210 1 0 flushed / marks 8210 8210 8210 8192 / recovered 1 8210 / p 3 8210 (00*62)07
new | crash --stop-log 18446744073709551615 | 1 f b1 3 100 7 | 0 | open 8204 / g 8204 8210 1 0 flushed / marks 8210 8210 8210 8192 / recovered 1 8210 / p 3 8210 (00*62)07
",
    )
}

#[test]
fn reads_two_pages_of_one_line(rt: HostRuntime) -> Result<(), Fail> {
    play(
        &rt,
        "
new  | crash               | 1 f b1 3 100 7;b1 4 100 8 | 0 | open 8204 / g 8204 8217 1 0 flushed / marks 8217 8217 8217 8192 / recovered 1 8217 / p 3 8217 (00*62)07 / p 4 8217 (00*62)08
new  | crash --workers 8   | 1 f b1 3 100 7;b1 4 100 8 | 0 | open 8204 / g 8204 8217 1 0 flushed / marks 8217 8217 8217 8192 / recovered 1 8217 / p 3 8217 (00*62)07 / p 4 8217 (00*62)08
same | recover --workers 8 |                           | 0 | read 1 8217 / p 3 8217 (00*62)07 / p 4 8217 (00*62)08
",
    )
}

/// The log has four blocks with one group each, and no checkpoint after the first.
#[test]
fn reads_each_block_by_a_worker_of_its_own(rt: HostRuntime) -> Result<(), Fail> {
    play(
        &rt,
        "
new  | crash --log-only --workers 4 | [1 f s 3 38 (07*489) / *4] | 0 | open 8204 / g 8204 8716 1 0 flushed / g 8716 9228 1 1 flushed / g 9228 9740 1 2 flushed / g 9740 10252 1 3 flushed / marks 10252 10252 10252 8192 / recovered 4 10252 / p 3 10252 (07*489)
same | recover --workers 16         |                            | 0 | read 4 10252 / p 3 10252 (07*489)
",
    )
}

/// The lines have three strings: 8,122 bytes of text and those of the last string, 71 and then 70.
#[test]
fn refuses_a_group_that_is_too_long(rt: HostRuntime) -> Result<(), Fail> {
    play(
        &rt,
        "
new  | run     | 1 f s 3 38 (07*4050);s 3 38 (07*4050);s 3 38 (07*71) / | 10 | fault fit group 8193
same | recover |                                                         |  0 | read 0 8204
new  | crash   | 1 f s 3 38 (07*4050);s 3 38 (07*4050);s 3 38 (07*71) / | 10 | fault fit group 8193
same | recover |                                                         |  0 | read 0 8204
new  | run     | 1 f s 3 38 (07*4050);s 3 38 (07*4050);s 3 38 (07*70) / |  0 | open 8204 / g 8204 16652 1 0 flushed / marks 16652 16652 16652 8192
new  | crash   | 1 f s 3 38 (07*4050);s 3 38 (07*4050);s 3 38 (07*70) / |  0 | open 8204 / g 8204 16652 1 0 flushed / marks 16652 16652 16652 8192 / recovered 1 16652 / p 3 16652 (07*4050)
",
    )
}

/// So many lines of 8,192 bytes are more than one round of the log.
const MANY_LINES: &str = "[1 f s 3 38 (07*4050);s 3 38 (07*4050);s 3 38 (07*70) / *130]";

#[test]
fn refuses_a_script_for_which_the_log_alone_has_no_room(rt: HostRuntime) -> Result<(), Fail> {
    play_with(
        &rt,
        MANY_LINES,
        "
new | run --log-only   | @ | 10 | fault fit total 1107516
new | crash --log-only | @ | 10 | fault fit total 1107516
",
    )
}

/// 28 groups of 8,192 bytes, and the first string of another one. With a second string of 3,646 bytes that has 7,711, and all of them
/// 237,087.
const FULL_LOG: &str =
    "[1 f s 3 38 (07*4050);s 3 38 (07*4050);s 3 38 (07*70) / *28]1 f s 3 38 (07*4050)";

/// In a log of 1,024 blocks, of which 1,022 are the ring, the last lsn at which a group may end is 252923: the end of its block, with
/// 278,528 more, is one round from 8192 on. A group of one byte more would end in the next block.
#[test]
fn runs_the_log_alone_up_to_its_last_byte(rt: HostRuntime) -> Result<(), Fail> {
    play_with(
        &rt,
        FULL_LOG,
        "
new  | format --log-blocks 1024 |                    |  0 | formatted 8192
same | crash --log-only         | @;s 4 38 (08*3647) | 10 | fault fit total 252940
new  | format --log-blocks 1024 |                    |  0 | formatted 8192
same | crash --log-only         | @;s 4 38 (08*3646) |  0 | .. / g 244972 252923 1 28 flushed / .. / recovered 29 252923 / ..
",
    )
}

/// The first group starts at sn 7936, and the last after 129 of 8192 bytes.
#[test]
fn frees_the_log_by_checkpoints(rt: HostRuntime) -> Result<(), Fail> {
    play_with(
        &rt,
        MANY_LINES,
        "
new | crash           | @ | 0 | .. / g 1099052 1107516 1 129 flushed / .. / recovered 130 1107516 / ..
new | crash --threads | @ | 0 | .. / g 1099052 1107516 1 129 flushed / .. / recovered 130 1107516 / ..
",
    )
}

#[test]
fn spends_its_turns(rt: HostRuntime) -> Result<(), Fail> {
    play(
        &rt,
        "
new | run --turns 1 --max 6   | 1 f b1 3 100 7 | 9 | fault turns 6 user 1
new | crash --turns 1 --max 6 | 1 f b1 3 100 7 | 9 | fault turns 6 user 1
new | run --turns 7 --max 3   | 1 f b1 3 100 7 | 9 | fault turns 3 user 1
new | crash --turns 7 --max 3 | 1 f b1 3 100 7 | 9 | fault turns 3 user 1
new | run --max 0             | 1 f b1 3 100 7 | 9 | fault turns 0 user 1
new | crash --max 0           | 1 f b1 3 100 7 | 9 | fault turns 0 user 1
",
    )
}

/// Of two users the least that hasn't ended is named.
#[test]
fn names_the_least_user_that_has_not_ended(rt: HostRuntime) -> Result<(), Fail> {
    play(
        &rt,
        "new | run --max 0 | 5 n i 3 / 2 n i 3 / | 9 | fault turns 0 user 2",
    )
}
