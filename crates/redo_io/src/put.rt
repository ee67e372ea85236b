// Writing a text whole.
ghost use Rattle.std.specs.Prelude.{◌≡◌, ◌≤◌, ◌<◌, OnOk, OnErr};
ghost use Rattle.model_base.specs.{HasRisen};
ghost use Rattle.redo_io.specs.Ends.{with_taken, TakesPart};
ghost use Rattle.redo_io.specs.Writes.{IsPutThrough};

use crate::{IoFault, Sink};

/// Writes all the bytes. It takes no memory. After an error the sink has taken some of them off the front.
pub fn put_all<O: Sink>(sink: &mut O, bytes: &[u8]) -> Result<(), IoFault>
    ensures ok { OnOk result ((O.seen sink.new).taken ≡ with_taken (O.seen sink.old).taken bytes.now) }
    ensures err { OnErr result (TakesPart (O.seen sink.old).taken bytes.now (O.seen sink.new).taken) }
    ensures later { (O.seen sink.old).faults ≤ (O.seen sink.new).faults }
    ensures cause { OnErr result (HasRisen (O.seen sink.old).faults (O.seen sink.new).faults) }
    ensures writes { IsPutThrough O.write_gives sink.old bytes.now result sink.new }
{
    let mut rest = bytes;
    while !rest.is_empty() {
        let count = sink.write(rest)?;
        rest = &rest[count..];
    }
    Ok(())
}
