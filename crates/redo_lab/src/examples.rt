// What the promise of stops and of arming refuses, and what it admits. Each law stands as the contract of a function with nothing
// to do.
ghost use Rattle.std.specs.Prelude.{ℕ, ◌≢◌, List, None, Option, Some};
ghost use Rattle.model_device.specs.declared.write.Write.{Write};
ghost use Rattle.model_store.specs.{IsUnused};
ghost use Rattle.model_theorem.specs.{LosesOnlyByFailure};
ghost use Rattle.redo_lab.specs.Call.{Guarded, mids};
ghost use Rattle.redo_lab.specs.Crash.{AreArmedFirst, AreCrashedAs, IsCrashedAs};
ghost use Rattle.redo_lab.specs.Examples.{ArmsLate, HasNotFailed, IsAdmitted, call_with, failed_call, quiet_call, stopped_call};

use model_store::one_reading;

/// A stop that isn't the one of the words is refused.
pub fn other_stop_is_refused()
    ensures { (limit : Option ℕ) (pick : ℕ) (device : Guarded) →
        IsCrashedAs limit pick device → device.fuse.limit ≢ limit → ⊥ }
{}

/// Stopping an opening for nothing is refused: the words ask for no stop, and neither device has failed.
pub fn stop_for_nothing_is_refused()
    ensures { (log store : Guarded) (pick : ℕ) (left : List (ℕ × ℕ)) → AreCrashedAs None None pick (call_with log store)
        → LosesOnlyByFailure (mids (call_with log store)) None left → HasNotFailed log → HasNotFailed store → ⊥ }
{}

/// Arming the fuses after the opening of a new store is refused.
pub fn late_arming_is_refused()
    ensures { (log store : Guarded) → AreArmedFirst (call_with log store) → ArmsLate log store → ⊥ }
{
    one_reading();
}

/// A crash with no stop is admitted, where no call failed or where the device itself failed; so is a stop at the first call.
pub fn stops_are_admitted()
    ensures quiet { (found log data_bytes : List ℕ) → (IsUnused found → ⊥)
        → IsAdmitted None (quiet_call found log data_bytes) }
    ensures failed { (found log : List ℕ) (writes : List Write) (reads data_bytes : List ℕ) → (IsUnused found → ⊥)
        → IsAdmitted None (failed_call found log writes reads data_bytes) }
    ensures stopped { (log data_bytes : List ℕ) → (IsUnused log → ⊥)
        → IsAdmitted (Some 0) (stopped_call log data_bytes) }
{}
