// The head and the newest mark of an archive.
ghost use Rattle.std.specs.Prelude.{◌≡◌, length, IfSome, MatchOption};
ghost use Rattle.model_archive.specs.declared.layout.TheConstants.{ARCHIVE_HEADER};
ghost use Rattle.redo_archive.specs.Restoring.{IsSoundExtent, NamesExtent, NamesNone};

use crate::head::read_archive_head;
use crate::marks::read_mark;
use model_archive::Extent;
use model_base::BLOCK_SIZE;
use redo_header::newer;
use redo_recover::sector_at;

/// What the head and the newest mark name, if both pass.
pub(crate) fn extent_in(header: &[u8]) -> Option<Extent>
    requires { length header.now ≡ ARCHIVE_HEADER }
    ensures names { MatchOption result (NamesNone header.now) (NamesExtent header.now) }
    ensures sound { IfSome result IsSoundExtent }
{
    let size = BLOCK_SIZE as usize;
    let (start, shape) = read_archive_head(sector_at(header, 0))?;
    let first = read_mark(sector_at(header, size), 1, start);
    let second = read_mark(sector_at(header, 2 * size), 2, start);
    let (_, mark) = newer(first, second)?;
    Some(Extent { shape, start, mark })
}
