// Runs in threads: that they end, and where users pass the gate.
use crate::store::{Device, LOG_CALLS, Ready, WAYS, Way, make_ready, no_followers};
use crate::text::{lines_of, user_lines};
use crate::told::{see_told, told_of};
use crate::watch::{NOBODY, Watch};
use redo_drive::{Closed, Driven};
use redo_follow::Tally;
use redo_threads::{Gate, drive_in_threads};
use std::alloc::Global;
use std::process::Abort;
use std::sync::Wait;
use std::test::Fail;
use std::thread::Threads;

/// What the run in threads of a script on a new store leaves.
pub fn left_by<R: Threads + Wait + Sync, G: Gate>(
    rt: &R,
    alloc: Global,
    text: &str,
    way: Way,
    gate: &G,
) -> Result<Closed<Device, Device>, Fail> {
    let Ready { opened, script } = make_ready(alloc, text.as_bytes(), way)?;
    match drive_in_threads::<R, Device, Device, Device, Tally, G>(
        rt,
        alloc,
        opened,
        &script,
        way.log_only,
        way.own_writes,
        None,
        no_followers(alloc),
        gate,
    ) {
        Ok((Driven { closed, .. }, _, _)) => Ok(closed),
        Err(_) => Err(Fail::from("no memory")),
    }
}

/// Sees that all of these are told of a run: of what it leaves, and of how often its users passed each point.
fn see<R: Abort + AllocGlobal + Threads + Wait + Sync>(
    rt: &R,
    text: &str,
    way: Way,
    watch: &Watch,
    wants: &[&str],
) -> Result<(), Fail> {
    let closed = left_by(rt, rt.alloc(), text, way, watch)?;
    let left = told_of(rt.alloc(), &closed)?;
    let passed = watch.passed();
    let told = format!(in rt.alloc(); "{left} passed {passed:?}")?;
    see_told(rt, &told, wants);
    Ok(())
}

/// Sees that all is flushed of so many users with so many lines each, where these threads are refused.
fn see_users_end<R: Abort + AllocGlobal + Threads + Wait + Sync>(
    rt: &R,
    users: u32,
    lines: usize,
    refused: (usize, usize),
) -> Result<(), Fail> {
    let text = lines_of(rt.alloc(), users, "f", lines, 8)?;
    let groups = (users as usize).saturating_mul(lines);
    let groups = format!(in rt.alloc(); "all flushed true groups {groups}: ")?;
    for way in WAYS {
        let watch = Watch::new(false, refused);
        see(rt, &text, way, &watch, &["code 0 ", &groups])?;
    }
    Ok(())
}

/// With no line there is no user to wait for, and sixteen users share four pages.
#[test]
fn users_end(rt: HostRuntime) -> Result<(), Fail> {
    see_users_end(&rt, 0, 0, NOBODY)?;
    see_users_end(&rt, 1, 1, NOBODY)?;
    see_users_end(&rt, 16, 3, NOBODY)
}

/// The caller plays in place of a thread that is refused, beside the threads of the others: of two users, writer and flusher, if
/// they play, closer, cleaner and checkpointer each one alone, several and all.
#[test]
fn an_actor_with_no_thread_is_played(rt: HostRuntime) -> Result<(), Fail> {
    for number in 0..7 {
        see_users_end(&rt, 2, 3, (number, number + 1))?;
        see_users_end(&rt, 2, 3, (number, 7))?;
    }
    Ok(())
}

/// The log device fails where the group is written: the user is never answered.
#[test]
fn a_failure_ends_all(rt: HostRuntime) -> Result<(), Fail> {
    for way in WAYS {
        let failing = Way {
            log_calls: Some(LOG_CALLS),
            ..way
        };
        let watch = Watch::new(false, NOBODY);
        let wants = ["code 1 ", " groups 1: (1, 0, 8204, 8210, Lost);"];
        see(&rt, "1 f b1 3 100 7\n", failing, &watch, &wants)?;
    }
    Ok(())
}

/// Sees that so many groups pass each point once, of which the last is for pages alone.
fn see_points<R: Abort + AllocGlobal + Threads + Wait + Sync>(
    rt: &R,
    text: &str,
    groups: u64,
) -> Result<(), Fail> {
    let alone = format!(in rt.alloc(); "passed {:?}", (groups, groups, groups, 0u64))?;
    let pages = format!(in rt.alloc(); "passed {:?}", (groups, groups, groups, groups))?;
    for way in WAYS {
        let want = if way.log_only { &alone } else { &pages };
        see(rt, text, way, &Watch::new(false, NOBODY), &[want])?;
    }
    Ok(())
}

/// The first of three groups is on one page, the second on two, and the third has 600 bytes: so it ends in another
/// block.
#[test]
fn each_group_passes_each_point(rt: HostRuntime) -> Result<(), Fail> {
    let short = "1 f b1 3 100 7\n2 n b1 4 100 8;b1 5 100 8\n";
    let mut text = String::from_str(rt.alloc(), short)?;
    text.push_str(&user_lines(rt.alloc(), 1, "f", 1, 600)?)?;
    see_points(&rt, &text, 3)
}

/// Four groups of 4,057 bytes fill the recent-closed buffer, so users move the tails too. A link that a user clears
/// there is none of its own: each group passes each point once.
#[test]
fn clearing_links_passes_no_point(rt: HostRuntime) -> Result<(), Fail> {
    let text = lines_of(rt.alloc(), 16, "n", 3, 4057)?;
    see_points(&rt, &text, 48)
}

/// While user 1 is held with its reserved place, user 2 links its group. Where it writes for itself, it can't write that yet.
#[test]
fn a_user_links_beside_another(rt: HostRuntime) -> Result<(), Fail> {
    for way in WAYS {
        let watch = Watch::new(true, NOBODY);
        let wants = ["code 0 ", "all flushed true groups 2: "];
        see(&rt, "1 f b1 3 100 7\n2 f b1 4 100 8\n", way, &watch, &wants)?;
        assert!(rt; watch.seen() == 2);
    }
    Ok(())
}

/// Beside two users play writer, flusher, and with the pages closer, cleaner and checkpointer. Where users write for themselves,
/// nobody plays the writer or the flusher.
#[test]
fn users_that_write_have_no_writer(rt: HostRuntime) -> Result<(), Fail> {
    let players = [4, 7, 2, 5];
    for (way, players) in WAYS.into_iter().zip(players) {
        let watch = Watch::new(false, NOBODY);
        let text = "1 f b1 3 100 7\n2 f b1 4 100 8\n";
        see(&rt, text, way, &watch, &["code 0 "])?;
        assert!(rt; watch.players() == players);
    }
    Ok(())
}
