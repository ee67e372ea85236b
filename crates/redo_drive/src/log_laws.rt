// That the log part meets the laws by which the running store speaks of it, what the log half of the invariant says then,
// and that the device holds what the part does, of a shape that stays.
ghost use Rattle.std.specs.Prelude.{List, Some, ℕ, ◌≡◌};
ghost use Rattle.model_base.specs.declared.shape.Shape.{Shape};
ghost use Rattle.model_core.specs.{Actor, Lent, LogServed, SharedWords, Setup};
ghost use Rattle.model_core.specs.declared.ops.Op.{Op};
ghost use Rattle.model_device.specs.{Disk};
ghost use Rattle.model_running.specs.{LogTells};
ghost use Rattle.model_logcore.specs.{LogGhost, LogWatermarks, LogHalf};
ghost use Rattle.model_logcore.specs.LogLaws.{LogLaws};
ghost use Rattle.redo_logdev.specs.Part.{Part};
ghost use Rattle.redo_drive.specs.LogPartSide.{HasBegun, log_side};

use redo_disk::Sectors;

/// A run that began at whatever lsn, with whatever part, may speak of the part by these laws.
pub fn log_part_meets_laws<L: Sectors>()
    ensures { (faults start : ℕ) (first : Part L) → LogLaws (log_side L.seen faults first.marks.number (HasBegun L.seen start first)) }
{}

/// Where the log half of the invariant holds over the log part, so do the watermarks of the log.
pub fn log_half_has_watermarks<L: Sectors>()
    ensures { (faults start : ℕ) (first : Part L) (setup : Setup) (words : SharedWords) (ghosts : LogGhost) (part : Part L) (actors : List Actor)
        → LogHalf (log_side L.seen faults first.marks.number (HasBegun L.seen start first)) setup words ghosts part actors
        → LogWatermarks (log_side L.seen faults first.marks.number (HasBegun L.seen start first)) setup words part actors }
{}

/// What the part holds of a run its device does, where the device tells what it means, and its checkpoint isn't older than
/// the one that the run began with.
pub fn log_part_tells<L: Sectors>()
    ensures { (faults start : ℕ) (first part : Part L) (setup : Setup) (shape : Shape) (disk : Disk)
        → HasBegun L.seen start first → part.shape ≡ shape → (L.seen part.dev).tells ≡ Some disk
        → LogTells (log_side L.seen faults first.marks.number (HasBegun L.seen start first)) setup shape first.marks.number part disk }
{}

/// No Op of a running store changes the shape of its log part.
pub fn log_part_keeps_its_shape<L: Sectors>()
    ensures { (faults start : ℕ) (first old new : Part L) (given : Lent) (asked : Op) (code : ℕ)
        → LogServed (log_side L.seen faults first.marks.number (HasBegun L.seen start first)) old given asked code new → new.shape ≡ old.shape }
{}
