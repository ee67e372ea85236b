// The archiver appends the blocks that it has read.
ghost use Rattle.std.specs.Prelude.{◌≡◌};
ghost use Rattle.model_core.specs.{next};
ghost use Rattle.model_core.specs.declared.ops.Op.TheVariants as op;
ghost use Rattle.redo_archiver.specs.{MayAppendBlock};
ghost use Rattle.redo_drive.specs.{view_of};
ghost use Rattle.redo_ownrule.specs.Playing.{IsPlayerSeat, PlayerAsks};
ghost use Rattle.redo_rule.specs.Seating.{IsSeatOf};
ghost use Rattle.redo_threads.specs.Archiving.{GoesOnWith, HasAppended, IsArchiver, MayArchive};

use redo_archive::ArchPart;
use redo_archiver::{append_block, archiver_appends, archiver_may_append, archiver_turns};
use redo_disk::Sectors;
use redo_drive::Actor;
use redo_follow::Receiver;
use redo_ownrule::{Player, play};
use redo_rule::{Ring, Seat, append};
use redo_words::{Layout, Op, Step};

/// Appends the block that the archiver has read, up to this mark, and tells the table.
fn append_to<L: Sectors, D: Sectors, A: Sectors, F: Receiver>(
    table: &Ring<L, D>,
    seat: &mut Seat<L, D>,
    actor: &mut Actor<F>,
    part: &mut ArchPart<A>,
    mark: u64,
) -> Step
    requires seat { IsSeatOf table.now.table_id seat.old (view_of actor.old) }
    requires asks { next (view_of actor.old) ≡ op.Append mark }
    requires archiver { IsArchiver actor.old }
    requires may { MayAppendBlock A.seen part.old mark }
    ensures { HasAppended A.seen A.gives F.stands_for table.now.table_id mark seat.old actor.old part.old seat.new
        actor.new part.new }
{
    archiver_appends::<A>();
    let Actor::Archiver(archiver) = &*actor else {
        unreachable!()
    };
    append_block(part, archiver.block(), mark);
    append(table, seat, actor, part.failed())
}

/// Plays the Op that a player asks for in its seat; an append of the archiver with this archive, if there is one.
pub(crate) fn play_with<L: Sectors, D: Sectors, A: Sectors, F: Receiver>(
    table: &Ring<L, D>,
    layout: Layout,
    seat: &mut Seat<L, D>,
    player: &mut Player<F>,
    archive: &mut Option<ArchPart<A>>,
    op: Op,
) -> Step
    requires layout { seat.old.me.0.layout ≡ layout }
    requires seat { IsPlayerSeat table.now.table_id seat.old player.old }
    requires asks { PlayerAsks seat.old.me.0 player.old op }
    requires archive { MayArchive A.seen A.gives seat.old.me.0 player.old archive.old }
    ensures { GoesOnWith A.seen A.gives F.stands_for table.now.table_id seat.old player.old archive.old seat.new
        player.new archive.new }
{
    archiver_turns::<A>();
    archiver_may_append::<A>();
    let Op::Append(mark) = op else {
        return play(table, seat, player, layout, op);
    };
    match archive {
        Some(part) => match player {
            Player::Plain(actor) => append_to(table, seat, actor, part, mark),
            Player::Own(_) => unreachable!(),
        },
        None => play(table, seat, player, layout, op),
    }
}
