// Reading a text whole.
ghost use Rattle.std.specs.Prelude.{◌≡◌, ◌≤◌, ◌<◌, ◌+◌, ◌^◌, length, IfOk, IfSome, IsErrOf, vec_len};
ghost use Rattle.model_base.specs.{HasRisen};
ghost use Rattle.redo_io.specs.Reads.{IsReadThrough};
ghost use Rattle.redo_io.specs.Ends.{TakesAtMost};
ghost use Rattle.redo_io.specs.Steps.{IsAllOf};

use crate::{ReadFault, Source, Text};
use std::alloc::{AllocError, Global};

/// Bytes that are read at once, at the most.
pub const PIECE: usize = 65_536;

fn empty_piece(alloc: Global) -> Result<Vec<u8>, AllocError>
    ensures { IfOk result (λ piece. vec_len piece ≡ PIECE) }
{
    Ok(vec![in alloc; 0; PIECE]?)
}

/// Reads all that is left, if that is at most `limit` bytes. After an error some bytes are gone from the source.
pub fn read_all<S: Source>(alloc: Global, src: &mut S, limit: usize) -> Result<Text, ReadFault>
    requires { limit ≤ 2 ^ 32 }
    ensures ok { IfOk result (IsAllOf limit (S.seen src.old).left (S.seen src.new).left) }
    ensures fault { IsErrOf result ReadFault.Fault → HasRisen (S.seen src.old).faults (S.seen src.new).faults }
    ensures too_long { IsErrOf result ReadFault.TooLong →
        IfSome (S.seen src.old).left (λ bytes. limit < length bytes) }
    ensures taken { TakesAtMost (limit + PIECE) (S.seen src.old).left (S.seen src.new).left }
    ensures later { (S.seen src.old).faults ≤ (S.seen src.new).faults }
    ensures reads { IsReadThrough S.read_gives PIECE src.old result src.new }
{
    let mut text = Vec::new(alloc);
    let mut piece = empty_piece(alloc)?;
    loop {
        let count = src.read(piece.as_mut_slice())?;
        if count == 0 {
            return Ok(Text::new(text));
        }
        if count > limit - text.len() {
            return Err(ReadFault::TooLong);
        }
        text.extend_from_slice(&piece[..count])?;
    }
}
