// Stores of other sizes, page places that are broken, and stores that are near a limit or not in order.
use crate::tables::play;
use std::test::Fail;

#[test]
fn refuses_a_page_ahead_of_the_log(rt: HostRuntime) -> Result<(), Fail> {
    play(
        &rt,
        "
new   | format  |                | 0 | formatted 8192
ahead | recover | 1 f b1 3 100 7 | 8 | fault store ahead 5 9000
new   | format  |                | 0 | formatted 8192
ahead | dump    | 1 f b1 3 100 7 | 8 | fault store ahead 5 9000
new   | format  |                | 0 | formatted 8192
ahead | run     | 1 f b1 3 100 7 | 8 | fault store ahead 5 9000
new   | format  |                | 0 | formatted 8192
ahead | crash   | 1 f b1 3 100 7 | 8 | fault store ahead 5 9000
",
    )
}

#[test]
fn refuses_a_page_that_is_lost(rt: HostRuntime) -> Result<(), Fail> {
    play(
        &rt,
        "
new  | format  | | 0 | formatted 8192
lost | recover | | 8 | fault store lost 5
same | dump    | | 8 | fault store lost 5
",
    )
}

#[test]
fn refuses_a_store_that_cannot_be_read(rt: HostRuntime) -> Result<(), Fail> {
    play(
        &rt,
        "
new           | format     |                |  0 | formatted 8192
log of 3      | recover    |                | 10 | fault fit log 2048
same          | dump       |                | 10 | fault fit log 2048
same          | run        | 1 f b1 3 100 7 | 10 | fault fit log 2048
log of 2      | recover    |                | 10 | fault fit log 2048
same          | run        | 1 f b1 3 100 7 | 10 | fault fit log 2048
same          | crash      | 1 f b1 3 100 7 | 10 | fault fit log 2048
new           | format     |                |  0 | formatted 8192
log of 8      | recover    |                | 10 | fault fit log 1050624
same          | dump --why |                | 10 | fault fit log 1050624
same          | crash      | 1 f b1 3 100 7 | 10 | fault fit log 1050624
new           | format     |                |  0 | formatted 8192
data of 120   | recover    |                | 10 | fault fit store 557056
same          | dump       |                | 10 | fault fit store 557056
same          | run        | 1 f b1 3 100 7 | 10 | fault fit store 557056
new           | format     |                |  0 | formatted 8192
other format  | recover    |                |  8 | fault store format 9
same          | dump       |                |  8 | fault store format 9
same          | crash      | 1 f b1 3 100 7 |  8 | fault store format 9
new           | format     |                |  0 | formatted 8192
no checkpoint | recover    |                |  8 | fault store checkpoint
same          | dump --why |                |  8 | fault store checkpoint
same          | run        | 1 f b1 3 100 7 |  8 | fault store checkpoint
",
    )
}

#[test]
fn runs_on_a_store_of_other_sizes(rt: HostRuntime) -> Result<(), Fail> {
    play(
        &rt,
        "
new  | format --pages 4 --space=9 --log-blocks 1024 |                |  0 | formatted 8192
same | run                                          | 1 f b1 3 100 7 |  0 | open 8204 / g 8204 8210 1 0 flushed / marks 8210 8210 8210 8192
same | dump                                         |                |  0 | store 4096 4 9 1024 128 / checkpoint 1 8192 / block 8192 17 18 12 0 / group 8204 8210 1 / rec b1 3 100 7 / end 8210
same | run                                          | 1 f i 4        | 10 | fault fit page 4
",
    )
}

/// A page has 16,384 bytes, of which the last that is written is the one at 16375. A run whose script doesn't fit has opened the
/// store, so the next one makes checkpoint 2.
#[test]
fn runs_on_a_store_of_large_pages(rt: HostRuntime) -> Result<(), Fail> {
    play(
        &rt,
        "
large data | format --page-size 16384 |                  |  0 | formatted 8192
same       | run                      | 1 f b2 3 16375 7 | 10 | fault fit offset 16375
same       | run                      | 1 f b2 3 16374 7 |  0 | open 8204 / g 8204 8210 1 0 flushed / marks 8210 8210 8210 8192
same       | dump                     |                  |  0 | store 16384 8 1 2048 128 / checkpoint 2 8192 / block 8192 17 18 12 0 / group 8204 8210 1 / rec b2 3 16374 7 / end 8210
same       | recover                  |                  |  0 | read 1 8210 / p 3 8210 (00*16337)07
same       | crash                    | 1 f b2 3 16374 8 |  0 | open 8716 / g 8716 8722 1 0 flushed / marks 8722 8722 8722 8704 / recovered 1 8722 / p 3 8722 (00*16337)08
same       | crash --threads          | 1 f b2 3 16375 8 | 10 | fault fit offset 16375
",
    )
}

/// Stores that are read, and are not in order. A copy of page 5 in a slot doesn't count while the place passes. Then opening
/// writes the page, to slot 0 after 10 calls of the data device and to its place after two more, and of that write a crash
/// keeps half. Now the newest copy counts: of two with one lsn that in slot 0, and one that is ahead of the log leaves no store.
/// Where the newest checkpoint has the number 2^63, or stands at 2^60 - 2^30, which is 1152921503533105152, the call does what it
/// does elsewhere.
#[test]
fn opens_a_store_out_of_order(rt: HostRuntime) -> Result<(), Fail> {
    play(
        &rt,
        "
new         | run --log-only                 | 1 f b1 5 100 7 | 0 | open 8204 / g 8204 8210 1 0 flushed / marks 8210 8210 8210 8192
copy beside | recover                        |                | 0 | read 1 8210 / p 5 8210 (00*62)07
same        | crash --stop-data 12 --pick 15 | 2 f b1 4 100 8 | 0 | open none / left 2 1 / recovered 0 8210 / p 5 8210 (00*62)07
new         | run --log-only                 | 1 f b1 5 100 7 | 0 | open 8204 / g 8204 8210 1 0 flushed / marks 8210 8210 8210 8192
copy ahead  | recover                        |                | 0 | read 1 8210 / p 5 8210 (00*62)07
same        | crash --stop-data 12 --pick 15 | 2 f b1 4 100 8 | 8 | fault store ahead 5 9000
new         | format                         |                | 0 | formatted 8192
high number | run                            | 1 f b1 3 100 7 | 0 | open 8204 / g 8204 8210 1 0 flushed / marks 8210 8210 8210 8192
same        | dump                           |                | 0 | store 4096 8 1 2048 128 / checkpoint 9223372036854775809 8192 / block 8192 17 18 12 0 / group 8204 8210 1 / rec b1 3 100 7 / end 8210
new         | format                         |                | 0 | formatted 8192
high lsn    | crash                          | 1 f b1 3 100 7 | 0 | open 1152921503533105164 / g 1152921503533105164 1152921503533105170 1 0 flushed / marks 1152921503533105170 1152921503533105170 1152921503533105170 1152921503533105152 / recovered 1 1152921503533105170 / p 3 1152921503533105170 (00*62)07
",
    )
}

/// After the last number, 2^64 - 1, comes 0, which isn't the newest: the log is read from the old checkpoint on. The tail block that
/// had the block there has the new run's by then, so nothing is read, and page 3, which opening wrote, is ahead of the log.
#[test]
fn is_refused_past_the_last_number(rt: HostRuntime) -> Result<(), Fail> {
    play(
        &rt,
        "
new         | run --log-only   | 1 f b1 3 100 7 | 0 | open 8204 / g 8204 8210 1 0 flushed / marks 8210 8210 8210 8192
last number | crash --log-only | 2 f b1 4 100 8 | 8 | fault store ahead 3 8210
",
    )
}

/// The newest checkpoint stands at the last block below 2^60, which is 1152921504606846976. A group of 496 bytes would end 12 bytes
/// above that, and one of 495 ends 5 below it.
#[test]
fn refuses_a_script_that_ends_above_the_last_lsn(rt: HostRuntime) -> Result<(), Fail> {
    play(
        &rt,
        "
new      | format |                     |  0 | formatted 8192
last lsn | crash  | 1 f s 3 38 (07*489) | 10 | fault fit lsn 1152921504606846988
same     | crash  | 1 f s 3 38 (07*488) |  0 | open 1152921504606846476 / g 1152921504606846476 1152921504606846971 1 0 flushed / marks 1152921504606846971 1152921504606846971 1152921504606846971 1152921504606846464 / recovered 1 1152921504606846971 / p 3 1152921504606846971 (07*488)
",
    )
}
