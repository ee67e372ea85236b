// What the parts of the promise refuse, and what they admit together. Each law stands as the contract of a function with nothing to do.
ghost use Rattle.std.specs.Prelude.{◌≡◌, ◌≢◌, ◌≤◌, ℕ, List, Option, Some, None, slice_get};
ghost use Rattle.model_base.specs.declared.shape.Shape.{Shape};
ghost use Rattle.model_device.specs.{Disk};
ghost use Rattle.model_device.specs.declared.write.Write.{Write};
ghost use Rattle.model_log.specs.{start_after};
ghost use Rattle.model_report.specs.declared.entry.Entry.{Entry};
ghost use Rattle.model_report.specs.declared.entry.State.TheVariants.{Lost};
ghost use Rattle.model_script.specs.declared.script.ScriptLine.{ScriptLine};
ghost use Rattle.model_store.specs.{Reading};
ghost use Rattle.model_theorem.specs.Examples.{AreOfBlocks, HasGap, IsAdmitted, IsStillUnopened, LacksFlushedGroup, MovedCheckpoint, ReadsAsOpened, WasOpened, empty_crash, lost_crash, new_store, stopped_crash};
ghost use Rattle.model_theorem.specs.Run.{IsOpenedBefore, IsPrefixRead, IsRun, LosesOnlyByFailure, Opened, Ran, entries_of};

/// A group that was printed as flushed and that the recovered log lacks is refused.
pub fn missing_flushed_group_is_refused()
    ensures { (script : List ScriptLine) (opened : Opened) (run : Ran) (reading : Reading) →
        IsPrefixRead script opened (Some run) reading → LacksFlushedGroup run reading → ⊥ }
{}

/// A history with a gap is refused.
pub fn gap_is_refused()
    ensures { (script : List ScriptLine) (opened : Opened) (run : Ran) → IsRun script opened run → HasGap run → ⊥ }
{}

/// A run that doesn't start after the opened log is refused.
pub fn other_start_is_refused()
    ensures { (script : List ScriptLine) (opened : Opened) (run : Ran) →
        IsRun script opened run → run.start ≢ start_after opened.end → ⊥ }
{}

/// Pages that changed though opening was stopped are refused.
pub fn changed_pages_are_refused()
    ensures { (script : List ScriptLine) (opened : Opened) (reading : Reading) →
        IsPrefixRead script opened None reading → reading.pages ≢ opened.pages → ⊥ }
{}

/// A lost group is refused where no call of a device failed.
pub fn loss_for_nothing_is_refused()
    ensures { (run : Option Ran) (left : List (ℕ × ℕ)) (i : ℕ) (entry : Entry) →
        LosesOnlyByFailure 0 run left → slice_get (entries_of run) i ≡ Some entry → entry.state ≡ Lost → ⊥ }
{}

/// A run that is told though opening was stopped is refused: the log device's newest checkpoint is the one that was found.
pub fn run_without_opening_is_refused()
    ensures { (shape : Shape) (armed_from crashed_from : Disk) (run : Ran) →
        IsOpenedBefore shape armed_from crashed_from (Some run) → IsStillUnopened shape armed_from crashed_from → ⊥ }
{}

/// An opening that is told as stopped though it came to its end is refused: the log device's newest checkpoint is another
/// than was found.
pub fn stop_behind_opening_is_refused()
    ensures { (shape : Shape) (armed_from crashed_from : Disk) →
        IsOpenedBefore shape armed_from crashed_from None → WasOpened shape armed_from crashed_from → ⊥ }
{}

/// An empty script is admitted, over devices that are read as what was opened, once the checkpoint was moved.
pub fn empty_run_is_admitted()
    ensures { (found log data_bytes : List ℕ) (opened : Opened) (reading : Reading) →
        ReadsAsOpened log data_bytes opened reading → MovedCheckpoint found opened reading →
        IsAdmitted (empty_crash found log data_bytes opened reading) }
{}

/// A lost group is admitted where the sync after its write failed.
pub fn lost_group_is_admitted()
    ensures { (found log : List ℕ) (writes : List Write) (reads data_bytes : List ℕ) (reading : Reading) →
        ReadsAsOpened log data_bytes new_store reading → MovedCheckpoint found new_store reading → AreOfBlocks writes → 8192 ≤ reading.ckpt →
        IsAdmitted (lost_crash found log writes reads data_bytes reading) }
{}

/// An opening that was stopped is admitted.
pub fn stopped_opening_is_admitted()
    ensures { (log data_bytes : List ℕ) (reading : Reading) →
        ReadsAsOpened log data_bytes new_store reading → IsAdmitted (stopped_crash log data_bytes reading) }
{}
