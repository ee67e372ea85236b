// What holds of every archive. Each law is the contract of a function that does nothing.
ghost use Rattle.std.specs.Prelude.{◌≡◌, ◌≤◌, ◌<◌, ◌+◌, ◌*◌, ◌++◌, ℕ, List, length};
ghost use Rattle.std.specs.List.{AllByRecursion};
ghost use Rattle.model_base.specs.declared.limits.TheConstants.{BLOCK_SIZE};
ghost use Rattle.model_base.specs.declared.shape.Shape.{Shape};
ghost use Rattle.model_device.specs.{Disk};
ghost use Rattle.model_log.specs.{block_of, blocks_between, groups_of, IsAtDataStart, IsBoundary, IsBoundaryBlock, IsRunOf, last_span_end, spans_of};
ghost use Rattle.model_log.specs.declared.group.Whole.{Whole};
ghost use Rattle.model_page.specs.declared.content.Content.{Content};
ghost use Rattle.model_store.specs.{folded, IsStorable};
ghost use Rattle.model_archive.specs.Holds.{ArchiveHolds, AreArchivedBlocks, IsArchivedBlock};
ghost use Rattle.model_archive.specs.Reads.{ReadsArchive};
ghost use Rattle.model_archive.specs.Restore.{ending_by, IsRestored, RefusesRestore, IsFairArchive, RestoresUpTo};
ghost use Rattle.model_archive.specs.declared.marks.ArchMarks.{ArchMarks};
ghost use Rattle.model_archive.specs.declared.refusal.RestoreRefusal.{RestoreRefusal};

use model_log::one_group;

/// From whatever a crash leaves that is fair of a device that holds the archive of a run, for each lsn from its start
/// up to a mark, the newest good one or the one asked for last, the opened pages are restored with exactly those groups
/// applied that end at or below it.
pub fn archive_reads()
    ensures { (shape : Shape) (s : ℕ) (pages : List Content) (wholes : List Whole) (marks : ArchMarks) (disk : Disk)
        (image : List ℕ) → AllByRecursion (IsStorable shape) (groups_of wholes)
        → ArchiveHolds shape s pages wholes marks disk → IsFairArchive disk image
        → ReadsArchive s pages wholes marks image }
{}

/// What a device archives of a run it archives of a longer one.
pub fn longer_archive()
    ensures { (shape : Shape) (s : ℕ) (pages : List Content) (wholes more : List Whole) (marks : ArchMarks)
        (disk : Disk) → IsRunOf s (wholes ++ more) → ArchiveHolds shape s pages wholes marks disk
        → ArchiveHolds shape s pages (wholes ++ more) marks disk }
{}

/// A block of a run for a boundary, which is what the log part reads back for its written mark, is as an archive holds
/// it for each mark up to that boundary.
pub fn boundary_block_archived()
    ensures { (s : ℕ) (wholes : List Whole) (boundary mark b : ℕ) (bytes : List ℕ)
        → IsBoundary s (spans_of wholes) boundary → IsBoundaryBlock s wholes boundary b bytes → mark ≤ boundary
        → IsArchivedBlock s wholes mark b bytes }
{}

/// From an lsn at the first data byte of a block up to a later mark, at most at that of the next block, there is one
/// block.
pub fn one_block_archived()
    ensures one { (from mark : ℕ) → IsAtDataStart from → from < mark → mark ≤ from + BLOCK_SIZE
        → blocks_between from mark ≡ 1 }
    ensures are { (s : ℕ) (wholes : List Whole) (from mark : ℕ) (bytes : List ℕ) → blocks_between from mark ≡ 1
        → length bytes ≡ BLOCK_SIZE → IsArchivedBlock s wholes mark (block_of from) bytes
        → AreArchivedBlocks s wholes from mark bytes }
{}

/// For an lsn a device restores one thing, or is refused for one cause.
pub fn one_restore()
    ensures restored { (image : List ℕ) (lsn n m end last : ℕ) (xs ys : List Content)
        → IsRestored image lsn n end xs → IsRestored image lsn m last ys → (n ≡ m) × (end ≡ last) × (xs ≡ ys) }
    ensures not_both { (image : List ℕ) (lsn n end : ℕ) (xs : List Content) (refusal : RestoreRefusal)
        → IsRestored image lsn n end xs → RefusesRestore image lsn refusal → ⊥ }
    ensures refused { (image : List ℕ) (lsn : ℕ) (first second : RestoreRefusal)
        → RefusesRestore image lsn first → RefusesRestore image lsn second → first ≡ second }
{
    one_group();
}

/// So whatever is restored for an lsn up to such a mark is that, and it is refused for no cause.
pub fn restored_exactly()
    ensures same { (s mark lsn n end : ℕ) (pages restored : List Content) (wholes : List Whole) (image : List ℕ)
        → RestoresUpTo s pages wholes mark image → s ≤ lsn → lsn ≤ mark → IsRestored image lsn n end restored
        → (n ≡ length (ending_by lsn wholes)) × (end ≡ last_span_end s (spans_of (ending_by lsn wholes)))
        × (restored ≡ folded pages (ending_by lsn wholes)) }
    ensures never_refused { (s mark lsn : ℕ) (pages : List Content) (wholes : List Whole) (image : List ℕ)
        (refusal : RestoreRefusal) → RestoresUpTo s pages wholes mark image → s ≤ lsn → lsn ≤ mark
        → RefusesRestore image lsn refusal → ⊥ }
{
    one_group();
}
