// What holds of each run that its devices hold.
ghost use Rattle.std.specs.Prelude.{◌≡◌, ◌≢◌, ◌≤◌, ◌<◌, ◌+◌, ◌++◌, [], ℕ, List, Option, Some};
ghost use Rattle.std.specs.List.{AllByRecursion};
ghost use Rattle.model_base.specs.{run_shape};
ghost use Rattle.model_base.specs.declared.shape.Shape.{Shape};
ghost use Rattle.model_log.specs.{groups_of, IsDataLsn, IsRunOf, last_span_end, spans_of};
ghost use Rattle.model_log.specs.declared.group.Whole.{Whole};
ghost use Rattle.model_device.specs.{Disk};
ghost use Rattle.model_page.specs.declared.content.Content.{Content};
ghost use Rattle.model_store.specs.{IsFair, IsFairLog, IsReading, IsStorable, page_folded, Refuses, upto, Reading};
ghost use Rattle.model_store.specs.declared.refusal.Refusal.{Refusal};
ghost use Rattle.model_theorem.specs.Older.{HeldOlder};
ghost use Rattle.model_theorem.specs.Run.{HasCheckpointFrom, IsOpenedBefore, IsPrefixRead, ReadsPrefix};
ghost use Rattle.model_theorem.specs.Closed.{Held, IsClosed, IsHeld};
ghost use Rattle.model_report.specs.{IsLeft};
ghost use Rattle.model_script.specs.declared.script.ScriptLine.{ScriptLine};
ghost use Rattle.model_theorem.specs.Kept.{DataHolds, HasOpenedPages, IsStored};
ghost use Rattle.model_theorem.specs.Start.{IsStart, opened_as, unplayed};
ghost use Rattle.model_theorem.specs.Given.{AreGiven};
ghost use Rattle.model_parts.specs.{first_marks, first_tails, IsLive, numbers_taken, start_of};

use model_parts::crash_reads;
use model_store::{one_answer, one_reading};

/// Whatever a crash leaves of two devices that hold a run, if it is fair, is read, in one way and without a refusal: as the
/// opened pages with the first groups of the run applied whole, which reach every flushed one.
pub fn held_run_reads()
    ensures read { (held : Held) (log data_bytes : List ℕ)
        → IsHeld held → IsFairLog held.log_disk log → IsFair held.opened.shape held.data_disk data_bytes
        → ReadsPrefix held.script held.opened (Some held.run) log data_bytes }
    ensures each { (held : Held) (log data_bytes : List ℕ)
        → IsHeld held → IsFairLog held.log_disk log → IsFair held.opened.shape held.data_disk data_bytes
        → (reading : Reading) → IsReading log data_bytes reading
        → IsPrefixRead held.script held.opened (Some held.run) reading }
    ensures not_refused { (held : Held) (log data_bytes : List ℕ)
        → IsHeld held → IsFairLog held.log_disk log → IsFair held.opened.shape held.data_disk data_bytes
        → (refusal : Refusal) → Refuses log data_bytes refusal → ⊥ }
{
    crash_reads();
    one_reading();
    one_answer();
}

/// Whatever a crash leaves that is fair of a log device that holds a run has a newest checkpoint, which isn't older than the
/// one that opening made. So, where the device held an older one when its fuse was armed, it tells that opening came to its
/// end.
pub fn held_run_is_opened()
    ensures number { (held : Held) (log : List ℕ) → IsHeld held → IsFairLog held.log_disk log
        → HasCheckpointFrom held.opened.shape held.number log }
    ensures opened { (held : Held) (armed_from : Disk) → IsHeld held
        → HeldOlder held.opened.shape held.number armed_from
        → IsOpenedBefore held.opened.shape armed_from held.log_disk (Some held.run) }
{}

/// A store that opening made ready may be given to a run: its log device holds the run of no group, and its data device
/// the opened pages. With no line played it is a closed run.
pub fn opened_store_is_closed()
    ensures given { (reading : Reading) (script : List ScriptLine) (log_disk data_disk : Disk)
        → IsStart reading script log_disk data_disk → AreGiven script (opened_as reading) }
    ensures live { (reading : Reading) (script : List ScriptLine) (log_disk data_disk : Disk)
        → IsStart reading script log_disk data_disk
        → IsLive (run_shape reading.shape) (start_of reading) []
        (first_marks (start_of reading) (reading.number + numbers_taken reading.format))
        (first_tails (start_of reading)) log_disk }
    ensures unwritten { (reading : Reading) (script : List ScriptLine) (log_disk data_disk : Disk)
        → IsStart reading script log_disk data_disk → HasOpenedPages (run_shape reading.shape) reading.pages data_disk }
    ensures closed { (failures : ℕ) (reading : Reading) (script : List ScriptLine) (left : List (ℕ × ℕ)) (log_disk data_disk : Disk)
        → IsStart reading script log_disk data_disk → IsLeft script [] left → (left ≢ [] → 0 < failures)
        → IsClosed failures (unplayed reading script left log_disk data_disk) }
{}

/// What a data device holds of a run that keeps each page as it was last written, or as the batch at hand has it.
pub fn stored_pages_hold()
    ensures { (shape : Shape) (opened : List Content) (wholes : List Whole) (stable ckpt : ℕ) (was : ℕ → Content) (batch : ℕ → Option Content) (disk : Disk)
        → IsStored shape opened wholes stable ckpt was batch disk → DataHolds shape opened wholes stable ckpt disk }
{}

/// A data device holds of a longer run what it holds of a run.
pub fn longer_data()
    ensures { (shape : Shape) (opened : List Content) (s : ℕ) (wholes more : List Whole) (stable ckpt : ℕ) (disk : Disk)
        → IsDataLsn s → IsRunOf s (wholes ++ more) → AllByRecursion (IsStorable shape) (groups_of (wholes ++ more))
        → stable ≤ last_span_end s (spans_of wholes) → ckpt ≤ last_span_end s (spans_of wholes)
        → DataHolds shape opened wholes stable ckpt disk → DataHolds shape opened (wholes ++ more) stable ckpt disk }
{}

/// A page with all groups of a run applied is a prefix of the run at its own lsn.
pub fn whole_page_is_prefix()
    ensures { (p s : ℕ) (wholes : List Whole) (page : Content) → IsDataLsn s → IsRunOf s wholes → page.lsn ≤ s
        → page_folded p wholes page ≡ upto p (page_folded p wholes page).lsn wholes page }
{}
