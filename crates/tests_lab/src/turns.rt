// Whose turns the first ones of a run are.
ghost use Rattle.std.specs.Prelude.{◌≡◌, ◌∷◌, [], map};
ghost use Rattle.model_running.specs.{seat_of_turn};

use redo_script::Draws;

/// The seats of six turns in all among six seats, by seed 1. One user has the first seat, before the writer, the flusher, the
/// closer, the cleaner and the checkpointer. So the turns are the flusher's, the cleaner's and the closer's, as it is drawn, and
/// in the second half the closer's, the cleaner's and the checkpointer's.
fn seats_of_six_turns() -> [u64; 6]
    ensures { result ≡ map (seat_of_turn 1 6 6) (0 ∷ 1 ∷ 2 ∷ 3 ∷ 4 ∷ 5 ∷ []) }
{
    [2, 4, 3, 3, 4, 5]
}

/// The draws of seed 1 begin as the numbers of the example of `rand` in the C standard do, which is the same generator.
#[test]
fn turns_go_as_the_seed_draws(rt: HostRuntime) {
    let mut draws = Draws::new(1);
    let drawn = [draws.take(), draws.take(), draws.take()];
    assert_eq!(rt; drawn, [16_838, 5_758, 10_113]);
    let seats = seats_of_six_turns();
    for (seat, draw) in seats.iter().zip(drawn) {
        assert_eq!(rt; *seat, u64::from(draw) % 6);
    }
}
