// The state of a follower.
ghost use Rattle.std.specs.Prelude.{◌≡◌, ◌≤◌, ◌<◌, ◌^◌, IfOk};
ghost use Rattle.model_core.specs.{new_reader};
ghost use Rattle.model_core.specs.declared.limits.TheConstants.{READERS};

use crate::receiver::Receiver;
use model_base::{BLOCK_SIZE, MAX_GROUP};
use model_core::ReaderStep;
use model_log::BLOCK_DATA;
use redo_lsn::NoMemory;
use std::alloc::Global;
use std::marker::Model;

/// A follower: it reads the log back up to FLUSHED, hands its groups on to a receiver, and stores up to where it has
/// them. Contracts see its state and the receiver.
#[derive(Drop)]
pub struct Follower<R: Receiver> {
    pub(crate) number: u32,
    pub(crate) own: u64,
    pub(crate) place: u64,
    pub(crate) mark: u64,
    pub(crate) block: [u8; 512],
    // up to where it has the groups, and the bytes from there on that it has read
    pub(crate) at: u64,
    pub(crate) kept: Vec<u8>,
    pub(crate) code: u32,
    pub(crate) checks: bool,
    pub(crate) step: ReaderStep,
    pub(crate) receiver: R,
}

impl<R: Receiver> Model for Follower<R> {
    ghost use Rattle.std.specs.Prelude.{false, ◌≡◌, ◌≤◌, ◌<◌, ◌+◌, ◌^◌, [], vec_capacity, length};
    ghost use Rattle.redo_follow.specs.declared.follower.TheConstants.{ROOM};
    ghost use Rattle.redo_follow.specs.Handing.{IsFollowerStep};
    ghost use Rattle.redo_follow.specs.Following.{Following};

    ghost Value = { Following R };

    ghost view = { λ f. record {
      state = record {
        number = f.number;
        own = f.own;
        place = f.place;
        mark = f.mark;
        block = f.block;
        at = f.at;
        kept = f.kept.items;
        texts = [];
        lost = 0;
        code = f.code;
        checks = f.checks;
        step = f.step;
      };
      receiver = f.receiver;
    } };

    ghost invariant = { λ f.
        (0 < f.number) × (f.mark < 2 ^ 61) × (f.at + length f.kept.items < 2 ^ 61)
        × (ROOM ≤ vec_capacity f.kept) × (length f.kept.items ≤ ROOM) × IsFollowerStep f.step };
}

impl<R: Receiver + Drop> Follower<R> {
    /// A follower of this number, of a run that starts at this lsn. It takes the room for what it keeps.
    pub fn new(alloc: Global, number: u32, start: u64, receiver: R) -> Result<Follower<R>, NoMemory>
        requires number { 0 < number }
        requires start { start < 2 ^ 61 }
        ensures state { IfOk result (λ follower. follower.state ≡ new_reader number start) }
        ensures receiver { IfOk result (λ follower. follower.receiver ≡ receiver) }
    {
        let kept = Vec::with_capacity(alloc, ROOM)?;
        Ok(Follower {
            number,
            own: start,
            place: start,
            mark: 0,
            block: [0; 512],
            at: start / BLOCK_SIZE * BLOCK_DATA,
            kept,
            code: 0,
            checks: false,
            step: ReaderStep::LoadFlushed,
            receiver,
        })
    }
}

/// How many bytes it keeps at the most: less than a group, and a block's.
pub(crate) const ROOM: usize = MAX_GROUP as usize + 512;
