// What holds of a machine in its run: the watermarks of the running store, and that a failure stays one. A caller learns it by
// citing a function that does nothing.
ghost use Rattle.std.specs.Prelude.{Bool, ℕ, ◌<◌};
ghost use Rattle.model_core.specs.declared.ops.Step.{Step};
ghost use Rattle.model_running.specs.{HasWatermarks};
ghost use Rattle.redo_drive.specs.{RunOf, run_data_side, run_log_side, code_in, core_of};
ghost use Rattle.redo_drive.specs.declared.parts.Parts.{Parts};
ghost use Rattle.redo_ownmachine.specs.OwnSeats.{OwnSeats, actors_of};
ghost use Rattle.redo_ownmachine.specs.OwnStore.{OwnRunsWith, TakesOwnTurn};

use redo_disk::Sectors;

/// A machine in its run has each of the watermarks of a running store, had it a writer and a flusher as far as its users have
/// brought them.
pub fn own_machine_has_watermarks<L: Sectors, D: Sectors>()
    ensures { (run : RunOf L D) (archive : Bool) (parts : Parts L D) (seats : OwnSeats)
        → OwnRunsWith L.seen D.seen run archive parts seats
        → HasWatermarks (run_log_side L.seen D.seen run) (run_data_side L.seen D.seen run) run.setup (core_of L.seen D.seen run parts (actors_of seats)) }
{}

/// Once FAILED has a code, it has one after each turn.
pub fn own_turn_keeps_failed<L: Sectors, D: Sectors>()
    ensures { (run : RunOf L D) (archive : Bool) (old new : Parts L D) (seats after : OwnSeats) (seat : ℕ) (step : Step)
        → OwnRunsWith L.seen D.seen run archive old seats
        → TakesOwnTurn L.seen L.gives D.seen D.gives run old seats seat step new after → 0 < code_in old → 0 < code_in new }
{}
