// A store after its run.
ghost use Rattle.std.specs.Prelude.{[], ◌∷◌, ◌<◌, ◌≡◌, slice_index};
ghost use Rattle.std.specs.Slots.{IsFull, slots_items, slots_len};
ghost use Rattle.model_core.specs.{index};
ghost use Rattle.redo_rule.specs.Closing.{EmptiesTable, EndsRun, KeepsLists, LeavesTable};
ghost use Rattle.redo_rule.specs.Seats.{no_pages};
ghost use Rattle.redo_rule.specs.Cutting.{IsFirst};

use crate::law::{Board, DATA_SLOT, Desk, LOG_SLOT, Seat, Slot};
use crate::slots::{await_list, data_in, desk_in, drop_list};
use atomic_table::Closed as ClosedTable;
use model_report::Marks;
use redo_disk::Sectors;
use redo_link::tail_of;
use redo_logdev::LogPart;
use redo_ownuser::LogWork;
use redo_store::DataPart;
use redo_words::{Layout, Word, number_of};
use std::alloc::Global;
use std::sync::Wait;

/// The words of a store without pages.
const NO_PAGES: Layout = Layout {
    pages: 0,
    page_size: 0,
};

/// What a table leaves but for the history: with the log's work, if users wrote for themselves.
pub struct Left<L: Sectors, D: Sectors> {
    pub marks: Marks,
    pub log: LogPart<L>,
    pub store: DataPart<D>,
    pub code: u32,
    pub work: Option<LogWork>,
}

/// What stands in a word that is no page's: it has its number in each layout.
fn word_in<L: Sectors, D: Sectors>(closed: &ClosedTable<Slot<L, D>, Global>, word: Word) -> u64
    requires there { index no_pages word < slots_len closed.now.words }
    requires full { IsFull closed.now.words }
    ensures { result ≡ slice_index (slots_items closed.now.words) (index no_pages word) }
{
    closed.word(number_of(NO_PAGES, word) as usize)
}

/// What a table leaves, and what lies in the slots of its flush lists, given the seat that knows who may hold the log part or the
/// data part, of whom none does.
fn empty_table<L: Sectors, D: Sectors>(
    board: Board<L, D>,
    first: Seat<L, D>,
) -> (Left<L, D>, (Slot<L, D>, Slot<L, D>, Slot<L, D>, Slot<L, D>))
    requires first { IsFirst board.shared.table_id first }
    requires ends { EndsRun L.seen L.gives D.seen D.gives board.shared.key first }
    ensures { EmptiesTable L.seen L.gives D.seen D.gives board.shared.key first result.0
        (result.1.0 ∷ result.1.1 ∷ result.1.2 ∷ result.1.3 ∷ []) }
{
    let mut closed = board.close_with(first);
    let marks = Marks {
        wtail: tail_of(word_in(&closed, Word::Wtail)),
        write: word_in(&closed, Word::Write),
        flushed: word_in(&closed, Word::Flushed),
        ckpt: word_in(&closed, Word::Ckpt),
    };
    let code = word_in(&closed, Word::Failed) as u32;
    let log = closed.take(LOG_SLOT);
    let first_list = closed.take(LOG_SLOT + 1);
    let second_list = closed.take(LOG_SLOT + 2);
    let third_list = closed.take(LOG_SLOT + 3);
    let last_list = closed.take(LOG_SLOT + 4);
    let data = closed.take(DATA_SLOT);
    closed.free();
    let Desk {
        part,
        block: _,
        work,
    } = desk_in(log);
    let left = Left {
        marks,
        log: part,
        store: data_in(data),
        code,
        work,
    };
    (left, (first_list, second_list, third_list, last_list))
}

/// Closes a table, given the seat that knows all actors, of which none holds anything.
pub fn close_table<L: Sectors, D: Sectors>(board: Board<L, D>, first: Seat<L, D>) -> Left<L, D>
    requires first { IsFirst board.shared.table_id first }
    requires ends { EndsRun L.seen L.gives D.seen D.gives board.shared.key first }
    requires lists { KeepsLists L.seen L.gives D.seen D.gives board.shared.key first }
    ensures { LeavesTable L.seen L.gives D.seen D.gives board.shared.key first result }
{
    let (left, lists) = empty_table(board, first);
    let (first_list, second_list, third_list, last_list) = lists;
    drop_list(first_list);
    drop_list(second_list);
    drop_list(third_list);
    drop_list(last_list);
    left
}

/// Closes a table some of whose seats were dropped, given the seat that knows who may hold the log part or the data part, of
/// whom none does. It waits for ever where a flush list was dropped with its seat.
pub fn close_known<T: Wait, L: Sectors, D: Sectors>(
    rt: &T,
    board: Board<L, D>,
    first: Seat<L, D>,
) -> Left<L, D>
    requires first { IsFirst board.shared.table_id first }
    requires ends { EndsRun L.seen L.gives D.seen D.gives board.shared.key first }
    ensures { LeavesTable L.seen L.gives D.seen D.gives board.shared.key first result }
{
    let (left, lists) = empty_table(board, first);
    let (first_list, second_list, third_list, last_list) = lists;
    await_list(rt, first_list);
    await_list(rt, second_list);
    await_list(rt, third_list);
    await_list(rt, last_list);
    left
}
