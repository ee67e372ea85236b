// A line is handed in to a user, in a run that goes on.
ghost use Rattle.std.specs.Prelude.{[], ◌≡◌};
ghost use Rattle.redo_rule.specs.HandIn.{MayHandIn, handed_in, line_about};

use crate::law::{Ring, Seat, Slot, View};
use atomic_table::Play;
use model_script::ScriptLine;
use redo_disk::Sectors;
use std::marker::{Brand, PhantomData};

/// Which line it is, as its user runs it. Each call picks it.
pub trait Handing {
    ghost use Rattle.model_core.specs.{Line};

    ghost line: { Line };
}

impl Handing for Brand {
    ghost line = { record { mode = 0; bytes = []; changes = [] } };
}

/// The handing in of that line.
struct HandedIn<H: Handing> {
    of: PhantomData<H>,
}

impl<L: Sectors, D: Sectors, H: Handing> Play<Slot<L, D>, View<L, D>> for HandedIn<H> {
    ghost then = { λ _. handed_in H.line };
}

/// Hands in the line that the type has.
fn hand_as<L: Sectors, D: Sectors, H: Handing>(
    table: &Ring<L, D>,
    token: &mut Seat<L, D>,
    line: &ScriptLine,
)
    requires may { MayHandIn table.now.table_id table.now.key token.old line.now }
    requires line { H.line ≡ line_about table.now.key line.now }
    ensures of { token.new.table_id ≡ token.old.table_id }
    ensures id { token.new.id ≡ token.old.id }
    ensures line { handed_in (line_about table.now.key line.now) token.old.me 0 token.new.me }
{
    table.load::<HandedIn<H>>(token, 0);
}

/// Hands a line in to the user of this seat, which has done all its lines: it has one line more, to which it goes on, and all
/// else is as it was.
pub fn hand_in<L: Sectors, D: Sectors>(
    table: &Ring<L, D>,
    token: &mut Seat<L, D>,
    line: &ScriptLine,
)
    requires may { MayHandIn table.now.table_id table.now.key token.old line.now }
    ensures of { token.new.table_id ≡ token.old.table_id }
    ensures id { token.new.id ≡ token.old.id }
    ensures line { handed_in (line_about table.now.key line.now) token.old.me 0 token.new.me }
{
    hand_as::<L, D, Brand>(table, token, line);
}
