// Both parts and the lists in their slots, and a table over them.
ghost use Rattle.std.specs.Prelude.{[], ◌++◌, ◌<◌, ◌∷◌, ◌≡◌, ◌≤◌, IfErr, IfOk, length, replicate, vec_capacity, vec_len};
ghost use Rattle.model_base.specs.declared.limits.TheConstants.{BLOCK_SIZE};
ghost use Rattle.atomic_table.specs.Table.{opening};
ghost use Rattle.redo_drive.specs.{AreLists, Listings};
ghost use Rattle.redo_rule.specs.Ruled.{Ruled, first_view};
ghost use Rattle.redo_rule.specs.Sharing.{AreLaid, laid};
ghost use Rattle.redo_rule.specs.declared.law.Desk.{Desk};
ghost use Rattle.redo_store.specs.Part as store_dev;

use crate::law::{About, Board, Desk, SLOTS, Seat, Slot};
use crate::slots::{data_in, desk_in, drop_list};
use atomic_table::Table;
use redo_disk::Sectors;
use redo_drive::FlushLists;
use redo_logdev::LogPart;
use redo_ownuser::LogWork;
use redo_store::DataPart;
use std::alloc::Global;

/// Both parts, with the log's work if users write for themselves, and the lists, in their slots, and room for so many seats.
pub fn lay_out<L: Sectors, D: Sectors>(
    alloc: Global,
    seats: usize,
    log: LogPart<L>,
    store: DataPart<D>,
    lists: FlushLists,
    work: Option<LogWork>,
) -> Result<(Vec<Seat<L, D>>, Vec<Slot<L, D>>), (LogPart<L>, DataPart<D>)>
    ensures room { IfOk result (λ made. (made.0.items ≡ []) × (seats ≤ vec_capacity made.0)) }
    ensures slots { IfOk result (λ made. (made.1.items ≡ laid (record { part = log; block = replicate BLOCK_SIZE 0; work = work }) lists store) × AreLists lists) }
    ensures err { IfErr result (λ parts. (parts.0 ≡ log) × (parts.1 ≡ store)) }
{
    let Ok(room) = Vec::with_capacity(alloc, seats) else {
        return Err((log, store));
    };
    let Ok(mut slots) = Vec::with_capacity(alloc, SLOTS) else {
        return Err((log, store));
    };
    let mut lists = lists.into_lists();
    let Some(d) = lists.pop() else { unreachable!() };
    let Some(c) = lists.pop() else { unreachable!() };
    let Some(b) = lists.pop() else { unreachable!() };
    let Some(a) = lists.pop() else { unreachable!() };
    slots.push_reserved(Slot::Log(Desk {
        part: log,
        block: [0; 512],
        work,
    }));
    slots.push_reserved(Slot::Pages(a));
    slots.push_reserved(Slot::Pages(b));
    slots.push_reserved(Slot::Pages(c));
    slots.push_reserved(Slot::Pages(d));
    slots.push_reserved(Slot::Data(store));
    Ok((room, slots))
}

/// The table over words and slots on which the rule holds.
pub fn make_board<L: Sectors, D: Sectors>(
    alloc: Global,
    words: &[u64],
    slots: Vec<Slot<L, D>>,
    about: &About<L, D>,
) -> Result<(Board<L, D>, Seat<L, D>), Vec<Slot<L, D>>>
    requires { Ruled L.seen L.gives D.seen D.gives about.now (opening words.now slots.items (first_view about.now)) }
    ensures ids { IfOk result (λ made. made.1.table_id ≡ made.0.shared.table_id) }
    ensures words { IfOk result (λ made. made.0.shared.table_id.words ≡ length words.now) }
    ensures slots { IfOk result (λ made. made.0.shared.table_id.slots ≡ length slots.items) }
    ensures me { IfOk result (λ made. made.1.me ≡ (first_view about.now, [])) }
    ensures key { IfOk result (λ made. made.0.shared.key ≡ about.now) }
    ensures err { IfErr result (λ left. left.items ≡ slots.items) }
{
    match Table::new(alloc, words, slots, about) {
        Ok(made) => Ok(made),
        Err(refused) => Err(refused.slots),
    }
}

/// What lies in the last slot.
fn last_slot<L: Sectors, D: Sectors>(slots: &mut Vec<Slot<L, D>>) -> Slot<L, D>
    requires { 0 < vec_len slots.old }
    ensures { slots.old.items ≡ slots.new.items ++ result ∷ [] }
{
    match slots.pop() {
        Some(slot) => slot,
        None => unreachable!(),
    }
}

/// Both parts, out of their slots.
pub fn parts_in<L: Sectors, D: Sectors>(mut slots: Vec<Slot<L, D>>) -> (LogPart<L>, DataPart<D>)
    requires { AreLaid slots.items }
    ensures { (desk : Desk L) (lists : Listings) (stored : store_dev.Part D) → slots.items ≡ laid desk lists stored → (result.0 ≡ desk.part) × (result.1 ≡ stored) }
{
    let data = last_slot(&mut slots);
    let d = last_slot(&mut slots);
    let c = last_slot(&mut slots);
    let b = last_slot(&mut slots);
    let a = last_slot(&mut slots);
    let log = last_slot(&mut slots);
    slots.destroy_empty();
    drop_list(a);
    drop_list(b);
    drop_list(c);
    drop_list(d);
    (desk_in(log).part, data_in(data))
}
