// Runs by turns whose users write for themselves.
ghost use Rattle.redo_ownmachine.specs.OwnCrew.{HasRoom};
ghost use Rattle.redo_ownmachine.specs.OwnStore.{OwnIsOnRun};

use super::runs::{left_of, spelled, turns_of};
use super::store::{no_followers, opened, own_driven_on, own_machine_on};
use redo_disk::Sectors;
use redo_drive::RunEnd;
use redo_follow::Receiver;
use redo_machine::Turned;
use redo_ownmachine::OwnMachine;
use std::alloc::Global;
use std::process::Abort;
use std::test::Fail;

/// Two lines of each of seven users, of up to 8,192 bytes: at times all that move wait for the link of one that doesn't.
const SEVEN_USERS: &str = "1 n s 1 38 (5a*2892)\n1 f s 1 38 (5a*4050);s 1 38 (5a*3935)\n\
2 w s 2 38 (5a*4050);s 2 38 (5a*3935)\n2 n s 2 38 (5a*4050);s 2 38 (5a*218)\n\
3 w s 3 38 (5a*4050);s 3 38 (5a*691)\n3 w s 3 38 (5a*4050);s 3 38 (5a*3935)\n\
4 f s 4 38 (5a*4050);s 4 38 (5a*1045)\n4 w b1 4 100 7\n\
5 n s 5 38 (5a*2984)\n5 f s 5 38 (5a*4050);s 5 38 (5a*4050);s 5 38 (5a*70)\n\
6 n s 6 38 (5a*4050);s 6 38 (5a*3935)\n6 w s 6 38 (5a*2921)\n\
7 f s 7 38 (5a*4050);s 7 38 (5a*3935)\n7 n b1 7 100 7\n";

/// Without a writer and a flusher each user ends, and each commit is answered: those of mode f by a flush, also where this user
/// writes and flushes itself.
#[test]
fn seven_users_write_for_themselves(rt: HostRuntime) -> Result<(), Fail> {
    let alloc = rt.alloc();
    let text = spelled(alloc, SEVEN_USERS)?;
    let opened = opened(alloc, 511)?;
    let (driven, actors) = own_driven_on(
        &rt,
        alloc,
        opened,
        text.as_bytes(),
        7,
        no_followers(alloc),
    );
    let told = left_of(alloc, driven.ended, &driven.closed)?;
    assert!(rt; driven.ended == RunEnd::Done, "{told}");
    assert!(rt;
        told.starts_with("Done 0 14: (") && !told.contains("Lost"),
        "{told}"
    );
    assert_eq!(rt; actors.len(), 7 + 5);
    Ok(())
}

/// Turns of these users, by seats, as `Run::turns` spells them. User 6 reserves first and copies last. So user 1, whose second group
/// starts 32,780 further on, finds no room for its link, and asks for DEVICE. Then all before that group is linked, and user 7
/// writes and flushes it, and ends. The others come to wait for what user 1 alone gives them: users 2, 3 and 5 for their marks,
/// users 4 and 6 for room for their links. User 2 has DEVICE, where nothing is new, and users 3 and 5 have asked for it.
const ALL_BUT_ONE_WAIT: &str =
    "5+4 6+4 0+377 2+4 3+4 4+4 0+1027 5+1021 2+609 3+654 4+385 6+9243 6.8 2+1 3+1 1+1025 2+1025 4+1049 \
3+7 5+379 1+4 2-2 4-2";

/// Gives the one at a seat turns until one doesn't move it on, at most so many. Answers how many, and how the last ends.
fn take_own_turns<L: Sectors, D: Sectors, A: Sectors, R: Receiver>(
    rt: &impl Abort,
    machine: &mut OwnMachine<L, D, A, R>,
    seat: usize,
    most: u64,
) -> (u64, Turned)
    requires on_run { OwnIsOnRun L.seen D.seen A.seen machine.old }
    requires room { HasRoom machine.old }
    ensures on_run { OwnIsOnRun L.seen D.seen A.seen machine.new }
    ensures room { HasRoom machine.new }
{
    for turn in 0..most {
        assert!(rt; seat < machine.seats());
        let turned = machine.turn(seat);
        if turned != Turned::Moved {
            return (turn + 1, turned);
        }
    }
    (most, Turned::Moved)
}

/// Gives the turns that a word spells, and sees that they go as it says.
fn see_own_turns<L: Sectors, D: Sectors, A: Sectors, R: Receiver>(
    rt: &impl Abort,
    machine: &mut OwnMachine<L, D, A, R>,
    word: &str,
)
    requires on_run { OwnIsOnRun L.seen D.seen A.seen machine.old }
    requires room { HasRoom machine.old }
    ensures on_run { OwnIsOnRun L.seen D.seen A.seen machine.new }
    ensures room { HasRoom machine.new }
{
    let Some((seat, count, last)) = turns_of(word) else {
        panic!(rt; "no turns: {word}");
    };
    let (taken, found) = take_own_turns(rt, machine, seat, count);
    assert!(rt;
        found == last && taken == count,
        "{word}: {found:?} after {taken}"
    );
}

/// Gives the turns after which all but one wait for that one.
fn bring_to_waits<L: Sectors, D: Sectors, A: Sectors, R: Receiver>(
    rt: &impl Abort,
    machine: &mut OwnMachine<L, D, A, R>,
)
    requires on_run { OwnIsOnRun L.seen D.seen A.seen machine.old }
    requires room { HasRoom machine.old }
    ensures on_run { OwnIsOnRun L.seen D.seen A.seen machine.new }
    ensures room { HasRoom machine.new }
{
    for word in ALL_BUT_ONE_WAIT.split_whitespace() {
        see_own_turns(rt, machine, word);
    }
}

/// Gives rounds of one turn for each seat until each user has ended, at most so many, and answers how it then stands.
fn take_rounds<L: Sectors, D: Sectors, A: Sectors, R: Receiver>(
    rt: &impl Abort,
    machine: &mut OwnMachine<L, D, A, R>,
    most: u64,
) -> RunEnd
    requires on_run { OwnIsOnRun L.seen D.seen A.seen machine.old }
    requires room { HasRoom machine.old }
    ensures on_run { OwnIsOnRun L.seen D.seen A.seen machine.new }
    ensures room { HasRoom machine.new }
{
    for _ in 0..most {
        if machine.run(0, 0) == RunEnd::Done {
            return RunEnd::Done;
        }
        for seat in 0..machine.seats() {
            take_own_turns(rt, machine, seat, 1);
        }
    }
    machine.run(0, 0)
}

/// Where all but one wait for that one's link, and by rounds one of them has DEVICE whenever it asks, it looks at its condition
/// again: so it links, and each user ends within 12,000 rounds.
#[test]
fn rounds_end_where_all_but_one_wait(rt: HostRuntime) -> Result<(), Fail> {
    let alloc = rt.alloc();
    let text = spelled(alloc, SEVEN_USERS)?;
    let mut machine = own_machine_on(&rt, alloc, opened(alloc, 511)?, text.as_bytes());
    bring_to_waits(&rt, &mut machine);
    let (closed, _, _) = machine.finish();
    let told = left_of(alloc, RunEnd::Done, &closed)?;
    let stands = told.contains("(1, 1, 40984, 49240, ") && told.contains("(6, 1, 74212, 77236, ");
    assert!(rt;
        stands && told.ends_with(" (40984, 40984, 40984, 8192)"),
        "{told}"
    );
    let mut machine = own_machine_on(&rt, alloc, opened(alloc, 511)?, text.as_bytes());
    bring_to_waits(&rt, &mut machine);
    let ended = take_rounds(&rt, &mut machine, 12_000);
    let (closed, _, _) = machine.finish();
    let told = left_of(alloc, ended, &closed)?;
    assert!(rt;
        told.starts_with("Done 0 14: (") && !told.contains("Lost"),
        "{told}"
    );
    Ok(())
}
