// The append of one block to the archive.
ghost use Rattle.std.specs.Prelude.{◌≡◌};
ghost use Rattle.redo_archiver.specs.Appending.{append_answer, append_requests, IsAppended, KeepsBlock, MayAppendBlock};
ghost use Rattle.redo_disk.specs.{error_of, MakesCalls, Serve};

use model_archive::one_block_archived;
use redo_archive::ArchPart;
use redo_disk::{DevError, Sectors};
use redo_words::Answer;

/// The answer to an append that ended so.
fn answer_of(ended: Result<(), DevError>) -> Answer
    ensures { result ≡ append_answer (error_of ended) }
{
    match ended {
        Ok(()) => Answer::Called(0),
        Err(DevError::Failed) => Answer::Failed(4),
        Err(DevError::NoMemory) => Answer::Failed(3),
    }
}

/// Appends a block to the archive, up to this mark, and answers as the archiver's Op is: `Called` with 0 where that
/// went well, else `Failed` with what FAILED gets, which is 4, or 3 for want of memory.
pub fn append_block<A: Sectors>(part: &mut ArchPart<A>, block: &[u8; 512], mark: u64) -> Answer
    requires { MayAppendBlock A.seen part.old mark }
    ensures appended { IsAppended A.seen part.old mark result part.new }
    ensures holds { KeepsBlock A.seen part.old mark block.now part.new }
    ensures calls { MakesCalls A.gives part.old.dev part.new.dev
        (Serve (append_requests part.old mark block.now) part.new.failed) }
{
    one_block_archived();
    answer_of(part.append(mark, block))
}
