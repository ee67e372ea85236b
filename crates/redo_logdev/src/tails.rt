// How the calls move the marks of the tail blocks.
ghost use Rattle.std.specs.Prelude.{◌≡◌};
ghost use Rattle.model_log.specs.{IsTailPlace, other_tail};
ghost use Rattle.model_parts.specs.{tails_synced, tails_written};

use model_log::{BLOCK_HEADER, HEADER_BLOCKS};
use model_parts::TailMarks;
use redo_lsn::block_of;

/// The other of the two tail blocks.
pub fn other_tail(tail: u64) -> u64
    requires { IsTailPlace tail }
    ensures { result ≡ other_tail tail }
{
    2 * HEADER_BLOCKS + 1 - tail
}

/// The marks once a call wrote the run up to the mark: its incomplete block, if it has one, went to the tail block that
/// the last good sync left free.
pub fn tails_written(mark: u64, tails: TailMarks) -> TailMarks
    requires { IsTailPlace tails.tail }
    ensures { result ≡ tails_written mark tails }
{
    if block_of(mark) + BLOCK_HEADER < mark {
        TailMarks {
            newest: other_tail(tails.tail),
            ..tails
        }
    } else {
        tails
    }
}

/// The marks after a good sync: the run stays up to the written mark.
pub fn tails_synced(written: u64, tails: TailMarks) -> TailMarks
    ensures { result ≡ tails_synced written tails }
{
    TailMarks {
        kept: written,
        tail: tails.newest,
        newest: tails.newest,
    }
}
