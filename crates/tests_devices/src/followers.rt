// A follower over a block that it is given.

use redo_block::fill;
use redo_follow::{Follower, Receiver, Tally};
use redo_words::{Answer, Op, Step, Word};
use std::test::Fail;

/// The text of the group of `1 f b1 3 100 7`.
const GROUP: [u8; 6] = [0x81, 1, 3, 0, 100, 7];

/// A receiver that keeps the last group.
#[derive(Drop)]
struct Last {
    start: u64,
    end: u64,
    is_the_group: bool,
}

impl Receiver for Last {
    ghost stands_for = { λ _ _. Unit {0} };

    fn group(&mut self, start: u64, end: u64, text: &[u8]) {
        self.start = start;
        self.end = end;
        self.is_the_group = text == GROUP.as_slice();
    }
}

/// The block 8192 with that group and a part of the next one, of which nothing is flushed.
fn block() -> [u8; 512] {
    let mut block = [0; 512];
    fill(&mut block, 8_192, &[0x81, 1, 3, 0, 100, 7, 0x81, 1], 12, 0);
    block
}

/// What it does about a block, with FLUSHED at 8,210.
fn follow<R: Receiver>(follower: &mut Follower<R>, block: &[u8; 512]) -> (Op, Op) {
    follower.took(Answer::Old(8_210));
    follower.took(Answer::Taken(None));
    let asked = follower.next();
    *follower.room() = *block;
    follower.took(Answer::Called(0));
    follower.took(Answer::Taken(None));
    (asked, follower.next())
}

/// A follower of a run that starts at 8,204.
fn follower(rt: &HostRuntime) -> Result<Follower<Last>, Fail> {
    let last = Last {
        start: 0,
        end: 0,
        is_the_group: false,
    };
    Ok(Follower::new(rt.alloc(), 1, 8_204, last)?)
}

#[test]
fn hands_on_what_is_flushed(rt: HostRuntime) -> Result<(), Fail> {
    let mut follower = follower(&rt)?;
    let asked = follow(&mut follower, &block());
    assert!(rt; asked == (Op::ReadBlock(8_192), Op::Store(Word::Place(1), 8_210)));
    let last = follower.receiver();
    assert!(rt; last.start == 8_204 && last.end == 8_210 && last.is_the_group);
    Ok(())
}

#[test]
fn keeps_nothing_of_what_is_no_block(rt: HostRuntime) -> Result<(), Fail> {
    let mut follower = follower(&rt)?;
    let asked = follow(&mut follower, &[0; 512]);
    assert!(rt; asked == (Op::ReadBlock(8_192), Op::Load(Word::Flushed)));
    assert!(rt; !follower.receiver().is_the_group);
    Ok(())
}

#[test]
fn a_tally_counts(rt: HostRuntime) {
    let mut tally = Tally::new();
    tally.group(8_204, 8_210, &GROUP);
    assert!(rt; tally.count() == 1 && tally.crc() == 0xe4fd_66e1);
}
