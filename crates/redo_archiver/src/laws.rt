// What a drive keeps of its archiver and of the archive beside it. Each law is the contract of a function that does
// nothing.
ghost use Rattle.std.specs.Prelude.{◌≡◌, ◌≤◌, ◌<◌, ◌+◌, ◌-◌, ◌++◌, [], ℕ, List, None};
ghost use Rattle.model_archive.specs.{pages_end};
ghost use Rattle.model_base.specs.declared.limits.TheConstants.{BLOCK_SIZE, LSN_LIMIT};
ghost use Rattle.model_base.specs.declared.shape.Shape.{Shape};
ghost use Rattle.model_core.specs.{after_of, new_reader, next, reader_program, ReaderState};
ghost use Rattle.model_core.specs.States as actor;
ghost use Rattle.model_core.specs.ReaderProgram.{Filling, reader_filled};
ghost use Rattle.model_core.specs.declared.ops.Answer.{Answer};
ghost use Rattle.model_core.specs.declared.ops.Op.TheVariants as op;
ghost use Rattle.model_log.specs.{block_of, IsAtDataStart, IsBoundary, IsBoundaryBlock, IsDataLsn, IsRunOf, spans_of};
ghost use Rattle.model_log.specs.declared.group.Whole.{Whole};
ghost use Rattle.model_page.specs.declared.content.Content.{Content};
ghost use Rattle.redo_archive.specs.Part.{IsBegun, Part, PartArchives};
ghost use Rattle.redo_archiver.specs.Appending.{finishing_mark, IsToFinish, IsAppended, KeepsBlock, MayAppendBlock, AppendsNothing, HasArchived, HearsFlushed, IsFullBlock, KeepsPace};

use redo_disk::Sectors;

/// An archive that was just begun, on a device with room up to the block of the limit, stands beside a new archiver.
pub fn archive_begins<A: Sectors>()
    ensures { (shape : Shape) (s limit : ℕ) (pages : List Content) (dev : A)
        (part : Part A) → IsBegun A.seen A.gives shape s pages dev part → IsAtDataStart s → s ≤ limit → limit < LSN_LIMIT
        → pages_end shape + (block_of limit + BLOCK_SIZE - block_of s) ≤ (A.seen dev).size
        → HasArchived A.seen limit s pages [] (new_reader 0 s) part }
{}

/// The archive stands so where more is flushed, and where the run has more groups.
pub fn archive_stays<A: Sectors>()
    ensures pace { (limit flushed later : ℕ) (r : ReaderState) (part : Part A)
        → flushed ≤ later → later ≤ limit → KeepsPace A.seen limit flushed r part
        → KeepsPace A.seen limit later r part }
    ensures archives { (pages : List Content) (wholes more : List Whole) (part : Part A)
        → IsRunOf part.start (wholes ++ more) → PartArchives A.seen pages wholes part
        → PartArchives A.seen pages (wholes ++ more) part }
{}

/// A turn of the archiver that appends nothing leaves the archive as far as it is.
pub fn archiver_turns<A: Sectors>()
    ensures { (limit flushed : ℕ) (r : ReaderState) (part : Part A) (filling : Filling)
        (answer : Answer) → AppendsNothing r → HearsFlushed flushed r answer → KeepsPace A.seen limit flushed r part
        → KeepsPace A.seen limit flushed (after_of reader_program (reader_filled r filling r.step) answer) part }
{}

/// Where it asks for an append that may be done.
pub fn archiver_may_append<A: Sectors>()
    ensures { (limit flushed mark : ℕ) (r : ReaderState) (part : Part A)
        → next (actor.Reader r) ≡ op.Append mark → KeepsPace A.seen limit flushed r part
        → MayAppendBlock A.seen part mark }
{}

/// And after that, whatever the append has answered, the archive is again as far as the archiver; and it archives the
/// run, if the block was the run's for its groups at an earlier time.
pub fn archiver_appends<A: Sectors>()
    ensures pace { (limit flushed mark : ℕ) (r : ReaderState) (old new : Part A)
        (filling : Filling) (answer : Answer) → next (actor.Reader r) ≡ op.Append mark
        → IsAppended A.seen old mark answer new → KeepsPace A.seen limit flushed r old
        → KeepsPace A.seen limit flushed (after_of reader_program (reader_filled r filling r.step) answer) new }
    ensures archives { (limit flushed mark : ℕ) (pages : List Content)
        (early late : List Whole) (r : ReaderState) (old new : Part A) → next (actor.Reader r) ≡ op.Append mark
        → KeepsPace A.seen limit flushed r old → IsRunOf old.start (early ++ late)
        → IsFullBlock old.start early r.place r.block → KeepsBlock A.seen old mark r.block new
        → PartArchives A.seen pages (early ++ late) old → PartArchives A.seen pages (early ++ late) new }
{}

/// After the run the archive lacks what is flushed above its newest mark. Its next block may be appended, and it then
/// lacks what is left, and archives the run, if the block was that of the run for a boundary at or above FLUSHED.
pub fn archive_finishes<A: Sectors>()
    ensures begins { (limit flushed : ℕ) (r : ReaderState) (part : Part A)
        → IsDataLsn flushed → KeepsPace A.seen limit flushed r part → IsToFinish A.seen flushed part }
    ensures may { (flushed : ℕ) (part : Part A) → part.failed ≡ None
        → part.marks.mark < flushed → IsToFinish A.seen flushed part
        → MayAppendBlock A.seen part (finishing_mark flushed part) }
    ensures goes_on { (flushed : ℕ) (old new : Part A) (answer : Answer)
        → old.marks.mark < flushed → IsAppended A.seen old (finishing_mark flushed old) answer new
        → IsToFinish A.seen flushed old → IsToFinish A.seen flushed new }
    ensures archives { (flushed m : ℕ) (pages : List Content) (wholes : List Whole)
        (old new : Part A) (block : List ℕ) → old.marks.mark < flushed → IsToFinish A.seen flushed old
        → IsRunOf old.start wholes → IsBoundary old.start (spans_of wholes) m → flushed ≤ m
        → IsBoundaryBlock old.start wholes m (block_of old.marks.mark) block
        → KeepsBlock A.seen old (finishing_mark flushed old) block new
        → PartArchives A.seen pages wholes old → PartArchives A.seen pages wholes new }
{}
