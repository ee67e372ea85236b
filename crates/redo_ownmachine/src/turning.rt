// One turn, where users write for themselves.
ghost use Rattle.std.specs.Prelude.{◌≡◌, ◌≢◌, ◌<◌, ◌+◌, ◌⊎◌, ℕ, Bool, List, Option, length};
ghost use Rattle.model_core.specs.{HasLost};
ghost use Rattle.model_own.specs.{own_lends, own_next};
ghost use Rattle.redo_archive.specs.Part.{Part};
ghost use Rattle.redo_drive.specs.{AskOfBoth, CallOnBoth, HasSamePages, RunOf, FailedHasCause, code_in};
ghost use Rattle.redo_drive.specs.declared.actor.Actor.{Actor as TheActor};
ghost use Rattle.redo_ownmachine.specs.OwnCrew.{HasSameSeats, seats_of};
ghost use Rattle.redo_ownmachine.specs.OwnSeats.{actors_of};
ghost use Rattle.redo_ownmachine.specs.OwnStore.{OwnAlone, OwnComesFrom, OwnIsOnRun, OwnRunsWith, TakesOwnTurn};
ghost use Rattle.redo_ownmachine.specs.Serving.{IsUserServed, MayServeUser};

use crate::machine::OwnMachine;
use redo_archiver::{archive_stays, archiver_may_append};
use redo_disk::Sectors;
use redo_drive::Parts;
use redo_follow::Receiver;
use redo_machine::{play, serve_with};
use redo_ownuser::{LogWork, OwnUser};
use redo_words::Step;

/// Plays the Op that a user asks for, its own or one of the log's work, and gives the user the answer.
fn serve_user<L: Sectors, D: Sectors>(
    parts: &mut Parts<L, D>,
    work: &mut LogWork,
    user: &mut OwnUser,
) -> Step
    requires { MayServeUser parts.old user.old work.old }
    ensures pages { HasSamePages parts.old parts.new }
    ensures served { (run : RunOf L D) → IsUserServed L.seen D.seen run parts.old user.old work.old result parts.new user.new work.new }
    ensures asked { AskOfBoth L.gives D.gives (own_lends user.old work.old) (own_next user.old work.old) parts.old parts.new }
    ensures calls { CallOnBoth L.gives D.gives parts.old parts.new }
{
    let answer = play(parts, user.next(work), user.lent(work));
    user.took(work, answer)
}

impl<L: Sectors, D: Sectors, A: Sectors, R: Receiver> OwnMachine<L, D, A, R> {
    /// How many seats there are: those of the users, and behind them those of the other actors.
    pub fn seats(&self) -> usize
        ensures { result ≡ length self.now.users.items + length self.now.others.items }
    {
        self.users.len() + self.others.len()
    }

    /// Gives the one at a seat its turn.
    pub fn turn(&mut self, seat: usize) -> Step
        requires on_run { OwnIsOnRun L.seen D.seen A.seen self.old }
        requires seat { seat < length self.old.users.items + length self.old.others.items }
        ensures on_run { OwnIsOnRun L.seen D.seen A.seen self.new }
        ensures turn { (run : RunOf L D) (archive : Bool) → OwnRunsWith L.seen D.seen run archive self.old.parts (seats_of self.old)
            → TakesOwnTurn L.seen L.gives D.seen D.gives run self.old.parts (seats_of self.old) seat result self.new.parts (seats_of self.new)
            × OwnRunsWith L.seen D.seen run archive self.new.parts (seats_of self.new) }
        ensures from { (run : RunOf L D) (archive : Bool) (starts : List (TheActor R)) (before : Option (Part A))
            → OwnComesFrom L.seen D.seen A.seen A.gives R.stands_for run archive starts before self.old
            → OwnComesFrom L.seen D.seen A.seen A.gives R.stands_for run archive starts before self.new }
        ensures cause { (run : RunOf L D) (archive : Bool) (code : ℕ) → OwnRunsWith L.seen D.seen run archive self.old.parts (seats_of self.old)
            → result ≡ Step.Failed code
            → FailedHasCause L.seen D.seen run self.new.parts ⊎ HasLost (actors_of (seats_of self.new)) (code_in self.new.parts) }
        ensures alone { (run : RunOf L D) → OwnAlone L.seen D.seen run self.old.parts (seats_of self.old)
            → (result ≢ Step.Idle) × OwnAlone L.seen D.seen run self.new.parts (seats_of self.new) }
        ensures calls { CallOnBoth L.gives D.gives self.old.parts self.new.parts }
        ensures seats { HasSameSeats self.old self.new }
    {
        archive_stays::<A>();
        archiver_may_append::<A>();
        let users = self.users.len();
        if seat < users {
            serve_user(&mut self.parts, &mut self.work, &mut self.users[seat])
        } else {
            serve_with(
                &mut self.parts,
                &mut self.archive,
                &mut self.others[seat - users],
            )
        }
    }
}
