// The rule of the table, and what a seat knows.
use atomic_table::{Shared, Table, TableRule};
use model_own::ErrandStep;
use model_reads::{Glance, ReadEnd};
use model_script::Script;
use redo_disk::Sectors;
use redo_drive::{Actor, Plan};
use redo_flushlist::FlushList;
use redo_follow::Tally;
use redo_logdev::LogPart;
use redo_ownuser::LogWork;
use redo_store::{DataPart, Opened};
use redo_words::Layout;
use std::alloc::Global;
use std::collections::LinkedList;
use std::marker::Model;
use std::snapshot::Snapshot;

/// The log part, the block that was read last off its device, and the log's work where users write for themselves.
#[derive(Drop)]
pub struct Desk<L: Sectors> {
    pub part: LogPart<L>,
    pub block: [u8; 512],
    pub work: Option<LogWork>,
}

/// The slot of the log part. Those of the flush lists follow.
pub const LOG_SLOT: usize = 0;

/// The slot of the data part. It alone has no turn word, since the cleaner alone comes to it.
pub const DATA_SLOT: usize = 5;

/// How many slots there are.
pub const SLOTS: usize = 6;

/// The turn word of the log part. Those of the flush lists follow.
pub const LOG_TURN: usize = 7;

/// What lies in a slot: the log part, a flush list, or the data part.
#[derive(Drop)]
pub enum Slot<L: Sectors, D: Sectors> {
    Log(Desk<L>),
    Pages(FlushList),
    Data(DataPart<D>),
}

/// An actor's state, as the definitions see it. No value of it is made.
#[derive(Drop)]
pub struct Viewed {
    actor: Actor<Tally>,
}

impl Model for Viewed {
    ghost use Rattle.model_core.specs.{Actor};
    ghost use Rattle.redo_drive.specs.History.{view_of};

    ghost Value = { Actor };

    ghost view = { λ viewed. view_of viewed.actor };
}

/// A group that was handed on.
#[derive(Drop)]
struct Group {
    start: u64,
    end: u64,
    text: LinkedList<u8>,
}

/// Groups that were handed on, in their order. No value of it is made.
#[derive(Drop)]
pub struct Groups {
    groups: LinkedList<Group>,
}

impl Model for Groups {
    ghost use Rattle.std.specs.Prelude.{List, map};
    ghost use Rattle.model_core.specs.{Given};

    ghost Value = { List Given };

    ghost view = { λ heard. map (λ group. record { start = group.start; end = group.end; text = group.text }) heard.groups };
}

/// A block of the log that was given to the archive to be appended, by its place.
#[derive(Drop)]
pub struct Block {
    pub place: u64,
    pub bytes: LinkedList<u8>,
}

/// What an actor has handed on: a follower groups, to its receiver, and the archiver blocks, to its archive; and what reads in
/// its seat came to, with the page that is being read. No value of it is made.
#[derive(Drop)]
pub struct Heard {
    pub groups: Groups,
    pub blocks: LinkedList<Block>,
    pub reads: LinkedList<ReadEnd>,
    pub glance: Option<Glance>,
}

/// Of a user that writes for itself: where it is on its errand, and whether it has been on one for its condition.
#[derive(Drop)]
pub struct Errand {
    pub step: ErrandStep,
    pub helped: bool,
}

/// An actor's state, with its number among the actors, with all that it has handed on, and with its errand, if it is a user that
/// writes for itself.
#[derive(Drop)]
pub struct Numbered {
    pub number: u64,
    pub actor: Viewed,
    pub heard: Heard,
    pub errand: Option<Errand>,
}

/// The data part as the seat that keeps it knows it, and whether it is out of its slot, with that seat.
#[derive(Drop)]
pub struct Keeping<D: Sectors> {
    pub part: DataPart<D>,
    pub out: bool,
}

/// What a seat knows: what its table was told, which words there are, the states of its actors, what it holds, and
/// the data part. No value of it is made.
#[derive(Drop)]
pub struct View<L: Sectors, D: Sectors> {
    pub about: Option<About<L, D>>,
    pub layout: Layout,
    pub seats: LinkedList<Numbered>,
    pub held: Option<Slot<L, D>>,
    pub data_part: Option<Keeping<D>>,
}

/// Of a live run, into which lines are handed while it goes on: how many users there are, and of how many bytes each one's
/// groups may be together.
#[derive(Drop)]
pub struct Live {
    pub users: u32,
    pub quota: u64,
}

/// What a table is told once: the opened store, the script, whether the run is a live one, its plan, and whether users write for
/// themselves. The actors as they begin follow from that. A live run begins with no line of its users.
#[derive(Drop)]
pub struct About<L: Sectors, D: Sectors> {
    pub opened: Snapshot<Opened<L, D>>,
    pub script: Snapshot<Script>,
    pub live: Option<Live>,
    pub plan: Plan,
    pub own_writes: bool,
}

pub struct Law;

impl<L: Sectors, D: Sectors> TableRule<Slot<L, D>, View<L, D>, About<L, D>> for Law {
    ghost use Rattle.redo_rule.specs.Ruled.{Ruled, first_view};

    ghost holds = { Ruled L.seen L.gives D.seen D.gives };

    ghost first = { first_view };
}

/// The words and slots as all threads see them.
pub type Ring<L, D> = Shared<Slot<L, D>, View<L, D>, About<L, D>, Law>;

/// The table, with its words and slots.
pub type Board<L, D> = Table<Slot<L, D>, View<L, D>, About<L, D>, Law, Global>;

/// A seat at the table. It has no bytes, and may go to another thread.
pub type Seat<L, D> = atomic_table::Seat<Slot<L, D>, View<L, D>>;
