// A page is read beside the turns of the actors: by loads alone, which disturb nobody.
ghost use Rattle.std.specs.Prelude.{[], ◌∷◌, ◌*◌, ◌+◌, ◌/◌, ◌%◌, ◌<◌, ◌^◌, ◌≡◌, ◌≢◌, ℕ, IfSome, MatchOption, length, slice_index, true};
ghost use Rattle.model_base.specs.{frame_length};
ghost use Rattle.model_base.specs.declared.limits.TheConstants.{USER_START as user_start};
ghost use Rattle.model_core.specs.Layout.{frame_words};
ghost use Rattle.model_core.specs.declared.limits.TheConstants.{WORD_LANES};
ghost use Rattle.model_reads.specs.{added, begun, dated, freed, read_of};
ghost use Rattle.model_reads.specs.declared.read.Glance.{Glance};
ghost use Rattle.model_reads.specs.declared.read.ReadEnd.TheVariants.{Failed, Page};
ghost use Rattle.redo_rule.specs.Reading.{Glanced, HasAllWords, HasReadSo, HasOwnBelow, HasReadNone, HasReadPage, IsAt, MayRead, adds, begins, checks, dates, ends, frees, lane_at};
ghost use Rattle.redo_rule.specs.declared.law.Numbered.{Numbered};

use crate::law::{Ring, Seat, Slot, View};
use atomic_table::Play;
use model_base::USER_START;
use redo_disk::Sectors;
use redo_lsn::lsn_of;
use redo_words::{Layout, Word, number_of};
use std::marker::{Brand, PhantomData};

/// Which page is read. Each call picks it.
pub trait Naming {
    ghost page: { ℕ };
}

impl Naming for Brand {
    ghost page = { 0 };
}

/// The load of FAILED.
struct Checked;

impl<L: Sectors, D: Sectors> Play<Slot<L, D>, View<L, D>> for Checked {
    ghost then = { λ _. checks };
}

/// The load of its NEWEST, which begins.
struct Begun<H: Naming> {
    of: PhantomData<H>,
}

impl<L: Sectors, D: Sectors, H: Naming> Play<Slot<L, D>, View<L, D>> for Begun<H> {
    ghost then = { λ _. begins H.page };
}

/// The load of the next word of its frame.
struct Added;

impl<L: Sectors, D: Sectors> Play<Slot<L, D>, View<L, D>> for Added {
    ghost then = { λ _. adds };
}

/// The load of SN.
struct Dated;

impl<L: Sectors, D: Sectors> Play<Slot<L, D>, View<L, D>> for Dated {
    ghost then = { λ _. dates };
}

/// The load of its latch.
struct Freed;

impl<L: Sectors, D: Sectors> Play<Slot<L, D>, View<L, D>> for Freed {
    ghost then = { λ _. frees };
}

/// The load of NEWEST again.
struct Ended;

impl<L: Sectors, D: Sectors> Play<Slot<L, D>, View<L, D>> for Ended {
    ghost then = { λ _. ends };
}

/// Loads NEWEST of the page that the type names, which begins.
fn begin_as<L: Sectors, D: Sectors, H: Naming>(
    table: &Ring<L, D>,
    token: &mut Seat<L, D>,
    layout: Layout,
    page: u32,
) -> u64
    requires may { MayRead table.now.table_id token.old layout page }
    requires page { H.page ≡ page }
    ensures { Glanced token.old (begun page result) token.new }
{
    table.load::<Begun<H>>(token, number_of(layout, Word::Newest(page)) as usize)
}

/// Loads NEWEST of a page, which is read from now on.
fn begin<L: Sectors, D: Sectors>(
    table: &Ring<L, D>,
    token: &mut Seat<L, D>,
    layout: Layout,
    page: u32,
) -> u64
    requires may { MayRead table.now.table_id token.old layout page }
    ensures { Glanced token.old (begun page result) token.new }
{
    begin_as::<L, D, Brand>(table, token, layout, page)
}

/// Loads the next word of the page's frame, which has this number.
fn add<L: Sectors, D: Sectors>(
    table: &Ring<L, D>,
    token: &mut Seat<L, D>,
    layout: Layout,
    page: u32,
    number: u32,
) -> u64
    requires at { (g : Glance) × IsAt table.now.table_id token.old layout page g × (length g.words ≡ number) }
    requires room { number < frame_words layout.page_size }
    ensures { (g : Glance) → IsAt table.now.table_id token.old layout page g → Glanced token.old (added g result) token.new }
{
    table.load::<Added>(token, number_of(layout, Word::Frame(page, number)) as usize)
}

/// Loads SN: the page is read as of there.
fn date<L: Sectors, D: Sectors>(
    table: &Ring<L, D>,
    token: &mut Seat<L, D>,
    layout: Layout,
    page: u32,
) -> u64
    requires at { (g : Glance) × IsAt table.now.table_id token.old layout page g }
    ensures dated { (g : Glance) → IsAt table.now.table_id token.old layout page g → Glanced token.old (dated g result) token.new }
    ensures small { result < 2 ^ 61 }
    ensures own { (x : Numbered) → token.old.me.0.seats ≡ x ∷ [] → HasOwnBelow x.actor result }
{
    table.load::<Dated>(token, number_of(layout, Word::Sn) as usize)
}

/// Loads the page's latch.
fn free<L: Sectors, D: Sectors>(
    table: &Ring<L, D>,
    token: &mut Seat<L, D>,
    layout: Layout,
    page: u32,
) -> u64
    requires at { (g : Glance) × IsAt table.now.table_id token.old layout page g }
    ensures free { result ≡ 0 → (g : Glance) → IsAt table.now.table_id token.old layout page g → Glanced token.old (freed g) token.new }
    ensures held { result ≢ 0 → (g : Glance) → IsAt table.now.table_id token.old layout page g → Glanced token.old g token.new }
{
    table.load::<Freed>(token, number_of(layout, Word::Latch(page)) as usize)
}

/// Loads NEWEST again: where that is as it was, the page is read.
fn end<L: Sectors, D: Sectors>(
    table: &Ring<L, D>,
    token: &mut Seat<L, D>,
    layout: Layout,
    page: u32,
) -> u64
    requires at { (g : Glance) × IsAt table.now.table_id token.old layout page g × (g.seen_free ≡ true) × (WORD_LANES * length g.words ≡ layout.page_size) }
    ensures same { (g : Glance) → IsAt table.now.table_id token.old layout page g → result ≡ g.newest → HasReadSo token.old (Page (read_of g)) token.new }
    ensures other { (g : Glance) → IsAt table.now.table_id token.old layout page g → result ≢ g.newest → Glanced token.old g token.new }
{
    table.load::<Ended>(token, number_of(layout, Word::Newest(page)) as usize)
}

/// Stores the user bytes that stand in the lanes of a word of a page's frame, which has this number, among those of the page.
fn put_word(bytes: &mut [u8], number: u32, word: u64)
    ensures here { (j : ℕ) → j < length bytes.old → (user_start + j) / WORD_LANES ≡ number
        → slice_index bytes.new j ≡ lane_at j word }
    ensures same { (j : ℕ) → j < length bytes.old → (user_start + j) / WORD_LANES ≢ number → slice_index bytes.new j ≡ slice_index bytes.old j }
    ensures long { length bytes.new ≡ length bytes.old }
{
    let lanes = word.to_le_bytes();
    for lane in 0..8usize {
        let place = number as usize * 8 + lane;
        if place >= USER_START as usize && place - (USER_START as usize) < bytes.len() {
            bytes[place - USER_START as usize] = lanes[lane];
        }
    }
}

/// Loads all words of the page's frame, and stores its user bytes.
fn read_words<L: Sectors, D: Sectors>(
    table: &Ring<L, D>,
    token: &mut Seat<L, D>,
    layout: Layout,
    page: u32,
    bytes: &mut [u8],
)
    requires at { (n : ℕ) × IsAt table.now.table_id token.old layout page (begun page n) }
    requires size { layout.page_size % WORD_LANES ≡ 0 }
    ensures { (n : ℕ) → IsAt table.now.table_id token.old layout page (begun page n) → HasAllWords token.old page n layout.page_size bytes.new token.new }
{
    for number in 0..layout.page_size / 8 {
        let word = add(table, token, layout, page, number);
        put_word(bytes, number, word);
    }
}

/// The code with which the run has failed, if it has: that ends the read.
pub fn failure<L: Sectors, D: Sectors>(
    table: &Ring<L, D>,
    token: &mut Seat<L, D>,
    layout: Layout,
) -> Option<u32>
    requires { (page : ℕ) × MayRead table.now.table_id token.old layout page }
    ensures read { MatchOption result (HasReadNone token.old token.new) (λ code. HasReadSo token.old (Failed code) token.new) }
    ensures code { IfSome result (λ code. code ≢ 0) }
{
    match table.load::<Checked>(token, number_of(layout, Word::Failed) as usize) {
        0 => None,
        code => Some(code as u32),
    }
}

/// Looks at a page once: its user bytes, and the lsn as of which they are the page's. No groups are on the page but those that
/// end at or below that lsn. Where an actor has the page, or has changed it meanwhile, nothing is read, and what is left in the
/// bytes is of no use.
pub fn look<L: Sectors, D: Sectors>(
    table: &Ring<L, D>,
    token: &mut Seat<L, D>,
    layout: Layout,
    page: u32,
    bytes: &mut [u8],
) -> Option<u64>
    requires may { MayRead table.now.table_id token.old layout page }
    requires size { layout.page_size % WORD_LANES ≡ 0 }
    requires long { length bytes.old + frame_length ≡ layout.page_size }
    ensures read { MatchOption result (HasReadNone token.old token.new) (λ as_of. HasReadPage token.old page as_of bytes.new token.new) }
{
    let newest = begin(table, token, layout, page);
    read_words(table, token, layout, page, bytes);
    let sn = date(table, token, layout, page);
    if free(table, token, layout, page) != 0 {
        return None;
    }
    if end(table, token, layout, page) != newest {
        return None;
    }
    Some(lsn_of(sn))
}
