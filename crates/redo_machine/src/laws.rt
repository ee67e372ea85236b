// What holds of a machine in its run: the watermarks of the running store, that a failure stays one, and what its followers'
// receivers have got. A caller learns it by citing a function that does nothing.
ghost use Rattle.std.specs.Prelude.{Bool, List, ℕ, ◌<◌, ◌≡◌};
ghost use lib.ListN.{get_elem?};
ghost use mathlib.Core.Option.{some};
ghost use Rattle.model_core.specs.{Actor};
ghost use Rattle.model_core.specs.declared.ops.Step.{Step};
ghost use Rattle.model_running.specs.{HasWatermarks};
ghost use Rattle.redo_drive.specs.{RunOf, run_data_side, run_log_side, RunsFromWith, RunsWith, TakesTurn, code_in, core_of};
ghost use Rattle.redo_drive.specs.declared.actor.Actor.{Actor as TheActor};
ghost use Rattle.redo_drive.specs.declared.actor.Actor.TheVariants as own;
ghost use Rattle.redo_drive.specs.declared.parts.Parts.{Parts};
ghost use Rattle.redo_follow.specs.Following.{Following};
ghost use Rattle.redo_machine.specs.Following.{FollowsLog};

use redo_disk::Sectors;
use redo_follow::Receiver;

/// A machine in its run has each of the watermarks of a running store.
pub fn running_machine_has_watermarks<L: Sectors, D: Sectors>()
    ensures { (run : RunOf L D) (archive : Bool) (parts : Parts L D) (actors : List Actor) → RunsWith L.seen D.seen run archive parts actors
        → HasWatermarks (run_log_side L.seen D.seen run) (run_data_side L.seen D.seen run) run.setup (core_of L.seen D.seen run parts actors) }
{}

/// Once FAILED has a code, it has one after each turn.
pub fn turn_keeps_failed<L: Sectors, D: Sectors>()
    ensures { (run : RunOf L D) (archive : Bool) (old new : Parts L D) (actors after : List Actor) (seat : ℕ) (step : Step)
        → RunsWith L.seen D.seen run archive old actors
        → TakesTurn L.seen D.seen run old actors seat step new after → 0 < code_in old → 0 < code_in new }
{}

/// A follower's receiver, in a machine in its run, stands at each step for the flushed groups up to the follower's place, in the
/// log's order, each once, as long as the log device tells what it means.
pub fn running_machine_has_followed<L: Sectors, D: Sectors, R: Receiver>()
    ensures { (run : RunOf L D) (archive : Bool) (starts actors : List (TheActor R)) (parts : Parts L D)
        (from : RunsFromWith L.seen D.seen R.stands_for run archive starts parts actors)
        → (run_log_side L.seen D.seen run).Tells parts.log → (seat : ℕ) (before after : Following R) → 0 < before.state.number
        → get_elem? starts seat ≡ some (own.Follower before) → get_elem? actors seat ≡ some (own.Follower after)
        → FollowsLog R.stands_for run.setup.base from.runs.running.log_ghost.log parts before after }
{}
