// One turn.
ghost use Rattle.std.specs.Prelude.{◌≡◌, ◌<◌, ◌⊎◌, ℕ, Bool, IfSome, List, Option, length, slice_get};
ghost use Rattle.model_core.specs.{lent, next, HasLost};
ghost use Rattle.model_core.specs.declared.ops.Op.TheVariants as op;
ghost use Rattle.redo_drive.specs.{AskOfBoth, CallOnBoth, HasSamePages, RunOf, RunsWith, FailedHasCause, IsServed, MayServe, TakesTurn, code_in, view_of, views_of};
ghost use Rattle.redo_drive.specs.declared.actor.Actor.{Actor as TheActor};
ghost use Rattle.redo_logdev.specs.{MayRead};
ghost use Rattle.redo_archive.specs.Part.{Part};
ghost use Rattle.redo_machine.specs.Reading.{ComesFrom, HasAppended, IsArchiver, IsOnRun, IsServedWith, MayAppendTo, MayServeWith, HasPlayed, HasRead};

use crate::machine::Machine;
use crate::playing::play;
use redo_archive::ArchPart;
use redo_archiver::{append_block, archiver_appends, archiver_may_append};
use redo_disk::Sectors;
use redo_drive::{Actor, Device, Parts, answer_of, call_read};
use redo_follow::Receiver;
use redo_words::{Answer, Op, Step};

/// Reads a block of the log into the room that a reader of it has.
fn read_block<L: Sectors, D: Sectors, R: Receiver>(
    parts: &mut Parts<L, D>,
    actor: &mut Actor<R>,
    lsn: u64,
) -> Answer
    requires asks { next (view_of actor.old) ≡ op.ReadBlock lsn }
    requires may { MayRead parts.old.log lsn }
    ensures read { HasRead L.seen D.seen lsn parts.old actor.old result parts.new actor.new }
    ensures pages { HasSamePages parts.old parts.new }
    ensures asked { AskOfBoth L.gives D.gives (lent (view_of actor.old)) (op.ReadBlock lsn) parts.old parts.new }
    ensures calls { CallOnBoth L.gives D.gives parts.old parts.new }
{
    match actor {
        Actor::Archiver(archiver) => {
            let ended = call_read(&mut parts.log, lsn, archiver.room());
            answer_of(Device::Log, ended, 0)
        }
        Actor::Follower(follower) => {
            let ended = call_read(&mut parts.log, lsn, follower.room());
            answer_of(Device::Log, ended, 0)
        }
        _ => unreachable!(),
    }
}

/// Plays the Op that an actor asks for: a read of the log into the room that a reader has for it, any other Op with what the
/// actor lends.
fn play_next<L: Sectors, D: Sectors, R: Receiver>(
    parts: &mut Parts<L, D>,
    actor: &mut Actor<R>,
) -> Answer
    requires { MayServe parts.old (view_of actor.old) }
    ensures played { HasPlayed L.seen D.seen parts.old actor.old result parts.new actor.new }
    ensures pages { HasSamePages parts.old parts.new }
    ensures asked { AskOfBoth L.gives D.gives (lent (view_of actor.old)) (next (view_of actor.old)) parts.old parts.new }
    ensures calls { CallOnBoth L.gives D.gives parts.old parts.new }
{
    match actor.next() {
        Op::ReadBlock(lsn) => read_block(parts, actor, lsn),
        op => play(parts, op, actor.lent()),
    }
}

/// Plays the Op that an actor asks for, and gives the actor the answer.
pub fn serve<L: Sectors, D: Sectors, R: Receiver>(
    parts: &mut Parts<L, D>,
    actor: &mut Actor<R>,
) -> Step
    requires { MayServe parts.old (view_of actor.old) }
    ensures pages { HasSamePages parts.old parts.new }
    ensures served { (run : RunOf L D) → IsServed L.seen D.seen R.stands_for run parts.old actor.old result parts.new actor.new }
    ensures asked { AskOfBoth L.gives D.gives (lent (view_of actor.old)) (next (view_of actor.old)) parts.old parts.new }
    ensures calls { CallOnBoth L.gives D.gives parts.old parts.new }
{
    let answer = play_next(parts, actor);
    actor.took(answer)
}

/// Appends the block that the archiver has read to the archive.
fn append<A: Sectors, R: Receiver>(
    archive: &mut Option<ArchPart<A>>,
    actor: &Actor<R>,
    mark: u64,
) -> Answer
    requires asks { next (view_of actor.now) ≡ op.Append mark }
    requires may { MayAppendTo A.seen archive.old mark }
    requires archiver { IsArchiver actor.now }
    ensures { HasAppended A.seen A.gives archive.old actor.now result archive.new }
{
    archiver_appends::<A>();
    let Actor::Archiver(archiver) = actor else {
        unreachable!()
    };
    match archive {
        Some(part) => append_block(part, archiver.block(), mark),
        None => unreachable!(),
    }
}

/// Gives an actor its turn, beside an archive or none.
pub fn serve_with<L: Sectors, D: Sectors, A: Sectors, R: Receiver>(
    parts: &mut Parts<L, D>,
    archive: &mut Option<ArchPart<A>>,
    actor: &mut Actor<R>,
) -> Step
    requires { MayServeWith A.seen parts.old archive.old actor.old }
    ensures pages { HasSamePages parts.old parts.new }
    ensures served { (run : RunOf L D)
        → IsServedWith L.seen D.seen A.seen A.gives R.stands_for run parts.old archive.old actor.old result parts.new
        archive.new actor.new }
    ensures asked { AskOfBoth L.gives D.gives (lent (view_of actor.old)) (next (view_of actor.old)) parts.old parts.new }
    ensures calls { CallOnBoth L.gives D.gives parts.old parts.new }
{
    match actor.next() {
        Op::Append(mark) => {
            let answer = append(archive, actor, mark);
            actor.took(answer)
        }
        _ => serve(parts, actor),
    }
}

impl<L: Sectors, D: Sectors, A: Sectors, R: Receiver> Machine<L, D, A, R> {
    /// How many actors there are.
    pub fn seats(&self) -> usize
        ensures { result ≡ length self.now.actors.items }
    {
        self.actors.len()
    }

    /// Gives the actor at a seat its turn.
    pub fn turn(&mut self, seat: usize) -> Step
        requires on_run { IsOnRun L.seen D.seen A.seen self.old }
        requires seat { seat < length self.old.actors.items }
        ensures on_run { IsOnRun L.seen D.seen A.seen self.new }
        ensures turn { (run : RunOf L D) (archive : Bool) → RunsWith L.seen D.seen run archive self.old.parts (views_of self.old.actors.items)
            → TakesTurn L.seen D.seen run self.old.parts (views_of self.old.actors.items) seat result self.new.parts (views_of self.new.actors.items)
            × RunsWith L.seen D.seen run archive self.new.parts (views_of self.new.actors.items) }
        ensures from { (run : RunOf L D) (archive : Bool) (starts : List (TheActor R)) (before : Option (Part A))
            → ComesFrom L.seen D.seen A.seen A.gives R.stands_for run archive starts before self.old
            → ComesFrom L.seen D.seen A.seen A.gives R.stands_for run archive starts before self.new }
        ensures cause { (run : RunOf L D) (archive : Bool) (code : ℕ) → RunsWith L.seen D.seen run archive self.old.parts (views_of self.old.actors.items)
            → result ≡ Step.Failed code
            → FailedHasCause L.seen D.seen run self.new.parts ⊎ HasLost (views_of self.new.actors.items) (code_in self.new.parts) }
        ensures seats { length self.new.actors.items ≡ length self.old.actors.items }
        ensures asked { IfSome (slice_get self.old.actors.items seat) (λ actor. AskOfBoth L.gives D.gives (lent (view_of actor)) (next (view_of actor)) self.old.parts self.new.parts) }
        ensures calls { CallOnBoth L.gives D.gives self.old.parts self.new.parts }
        ensures entries { self.new.entries ≡ self.old.entries }
    {
        archiver_may_append::<A>();
        serve_with(&mut self.parts, &mut self.archive, &mut self.actors[seat])
    }
}
