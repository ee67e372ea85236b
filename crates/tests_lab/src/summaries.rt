// The summaries of `gen --run`, on devices that hold zeros and on others.
use crate::calls::log_calls;
use crate::tables::{play, play_at};
use std::test::Fail;

/// The script of `gen 11 1 1` is one line, `1 f b2 4 3710 23702`; of `gen 7 3 4`, three users and five others take turns, of which
/// none goes to user 1.
#[test]
fn sums_up_a_run(rt: HostRuntime) -> Result<(), Fail> {
    play(
        &rt,
        "
new | gen 1 1 0 --run         | 1 f b1 3 100 7 | 0 | summary 0 8204 8192 00000000
new | gen 11 1 1 --run        | 1 f b1 3 100 7 | 0 | summary 1 8212 8192 499734af
new | gen 7 3 4 --run --max 5 | 1 f b1 3 100 7 | 9 | fault turns 5 user 1
",
    )
}

/// A long run on devices that hold zeros. Another implementation of the same actors comes to the same numbers.
#[test]
fn sums_up_the_same_run_again(rt: HostRuntime) -> Result<(), Fail> {
    play(
        &rt,
        "
new | gen 7 16 1000 --run --max 1000000000 | | 0 | summary 1000 29900 12800 0953ff5f
new | gen 7 16 1000 --run --max 1000000000 | | 0 | summary 1000 29900 12800 0953ff5f
",
    )
}

#[test]
fn refuses_a_store_of_fewer_pages(rt: HostRuntime) -> Result<(), Fail> {
    play(
        &rt,
        "
new  | format --pages 4 | |  0 | formatted 8192
same | gen 11 1 1 --run | | 10 | fault fit page 4
",
    )
}

/// The line writes at offset 3710, which is 3672 past the first user byte.
#[test]
fn leaves_what_recovery_reads(rt: HostRuntime) -> Result<(), Fail> {
    play(
        &rt,
        "
new  | gen 11 1 1 --run | | 0 | summary 1 8212 8192 499734af
same | recover          | | 0 | read 1 8212 / p 4 8212 (00*3672)5c96
",
    )
}

/// A failure is told by its line alone: of the first call, of the first one after the opening, and of the last one, which reads
/// after the run.
#[test]
fn tells_of_a_failure_by_its_line_alone(rt: HostRuntime) -> Result<(), Fail> {
    let (early, opening) = log_calls(&rt, "run")?;
    let (earlier, later) = log_calls(&rt, "gen 11 1 1 --run")?;
    for failing in [
        0,
        early.saturating_add(opening),
        earlier.saturating_add(later).saturating_sub(1),
    ] {
        play_at(
            &rt,
            failing,
            "log fails @ | gen 11 1 1 --run | | 6 | fault log device",
        )?;
    }
    play(
        &rt,
        "data fails 0 | gen 11 1 1 --run | | 7 | fault data device",
    )
}
