// What holds of each log device that holds a run.
ghost use Rattle.std.specs.Prelude.{◌++◌, ℕ, List};
ghost use Rattle.model_base.specs.declared.shape.Shape.{Shape};
ghost use Rattle.model_log.specs.declared.group.Whole.{Whole};
ghost use Rattle.model_device.specs.{Disk};
ghost use Rattle.model_log.specs.{IsRunOf};
ghost use Rattle.model_parts.specs.Held.{LogHolds, LogHoldsWith, IsLive};
ghost use Rattle.model_store.specs.{IsFairLog};
ghost use Rattle.model_parts.specs.declared.marks.LogMarks.{LogMarks};
ghost use Rattle.model_parts.specs.declared.marks.TailMarks.{TailMarks};
ghost use Rattle.model_parts.specs.Reads.{CrashReads, FitsStore};

use model_log::one_group;

/// From whatever a crash leaves that is fair of a log device that holds a run, the scan reads exactly its groups from the newest
/// checkpoint up to a boundary from the stable mark up to the last mark given, and isn't refused.
pub fn crash_reads()
    ensures { (shape : Shape) (s : ℕ) (wholes : List Whole) (marks : LogMarks) (disk : Disk) (image : List ℕ)
        → FitsStore shape wholes marks → LogHolds shape s wholes marks disk
        → IsFairLog disk image → CrashReads shape s wholes marks image }
{
    one_group();
}

/// What a device holds of a run it holds of a longer one.
pub fn longer_run()
    ensures holds { (shape : Shape) (s : ℕ) (wholes more : List Whole) (marks : LogMarks) (tails : TailMarks) (disk : Disk)
        → IsRunOf s (wholes ++ more) → LogHoldsWith shape s wholes marks tails disk
        → LogHoldsWith shape s (wholes ++ more) marks tails disk }
    ensures live { (shape : Shape) (s : ℕ) (wholes more : List Whole) (marks : LogMarks) (tails : TailMarks) (disk : Disk)
        → IsRunOf s (wholes ++ more) → IsLive shape s wholes marks tails disk
        → IsLive shape s (wholes ++ more) marks tails disk }
{}
