// Handing on the whole groups in front of some bytes.
ghost use Rattle.std.specs.Prelude.{◌+◌, ◌<◌, ◌^◌, length};
ghost use Rattle.redo_follow.specs.Handing.{HandsOn};

use crate::receiver::Receiver;
use redo_lsn::lsn_of;
use redo_num::Got;
use redo_record::span;

/// Hands on the whole groups in front of the bytes, of which the first stands at this sn, and tells how many bytes they
/// are.
pub(crate) fn hand_on<R: Receiver>(receiver: &mut R, at: u64, bytes: &[u8]) -> usize
    requires { at + length bytes.now < 2 ^ 61 }
    ensures { HandsOn R.stands_for at bytes.now receiver.old receiver.new result }
{
    let mut taken = 0;
    while let Got::Value(_, length) = span(&bytes[taken..]) {
        let end = taken + length;
        receiver.group(
            lsn_of(at + taken as u64),
            lsn_of(at + end as u64),
            &bytes[taken..end],
        );
        taken = end;
    }
    taken
}
