// What of a script doesn't fit a store.
ghost use Rattle.std.specs.Prelude.{◌≡◌, ◌<◌, ◌+◌, ◌^◌, ◌∷◌, [], map, length, None, IfOk, IfErr, OnOk};
ghost use Rattle.model_base.specs.{IsWithinLimits};
ghost use Rattle.model_log.specs.{group_length, lsn_of, sn_of, stream_of};
ghost use Rattle.model_script.specs.{archive_misfit, archive_need, first_misfit, first_misfit_of, group_of, item_misfit, line_misfit, lsn_misfit, misfit_if, page_misfit, total_misfit, user_misfit, write_misfit};
ghost use Rattle.redo_script.specs.Judged.{AreUnfitLines, IsUnfitLine, IsUnfitScript};

use crate::Unfit;
use crate::group::group_of;
use model_base::{BLOCK_SIZE, LSN_LIMIT, MAX_GROUP, PAGE_TRAILER, Shape, USER_START};
use model_log::Group;
use model_script::{Item, MARGIN, MAX_USERS, Misfit, Quantity, Script, ScriptLine};
use redo_lsn::{block_of, lsn_of, sn_of};
use redo_record::Length;
use std::alloc::Global;

/// The quantity with its number, where that lies outside its limits.
fn misfit_if(outside: bool, quantity: Quantity, number: u64) -> Option<Misfit>
    ensures { result ≡ misfit_if outside quantity number }
{
    if outside {
        Some(Misfit { quantity, number })
    } else {
        None
    }
}

/// A user has one of the numbers there are.
fn user_misfit(user: u32) -> Option<Misfit>
    ensures { result ≡ user_misfit user }
{
    misfit_if(
        user < 1 || MAX_USERS < user,
        Quantity::User,
        u64::from(user),
    )
}

/// A page is one of the store's.
fn page_misfit(shape: &Shape, page: u32) -> Option<Misfit>
    ensures { result ≡ page_misfit shape.now page }
{
    misfit_if(shape.pages <= page, Quantity::Page, u64::from(page))
}

/// A write of so many bytes lies within the user bytes of a page.
fn write_misfit(shape: &Shape, offset: u32, count: u64) -> Option<Misfit>
    requires limits { IsWithinLimits shape.now }
    ensures { result ≡ write_misfit shape.now offset count }
{
    let user_end = u64::from(shape.page_size - PAGE_TRAILER);
    let from = u64::from(offset);
    let outside = from < u64::from(USER_START) || user_end < from || user_end - from < count;
    misfit_if(outside, Quantity::Offset, from)
}

/// The page and then the offset of an operation.
fn item_misfit(shape: &Shape, item: &Item) -> Option<Misfit>
    requires limits { IsWithinLimits shape.now }
    ensures { result ≡ item_misfit shape.now item.now }
{
    match item {
        Item::Num {
            width,
            page,
            offset,
            ..
        } => match page_misfit(shape, *page) {
            None => write_misfit(shape, *offset, u64::from(*width)),
            Some(misfit) => Some(misfit),
        },
        Item::Text {
            page,
            offset,
            bytes,
        } => match page_misfit(shape, *page) {
            None => write_misfit(shape, *offset, bytes.len() as u64),
            Some(misfit) => Some(misfit),
        },
        Item::Init { page } => page_misfit(shape, *page),
    }
}

/// The first operation that doesn't fit.
fn items_misfit(shape: &Shape, items: &[Item]) -> Option<Misfit>
    requires limits { IsWithinLimits shape.now }
    ensures { result ≡ first_misfit_of (map (item_misfit shape.now) items.now) }
{
    for item in items {
        if let Some(misfit) = item_misfit(shape, item) {
            return Some(misfit);
        }
    }
    None
}

/// A line's group, and how long its text is. A text whose length doesn't fit 64 bits has no room in memory.
fn measured(alloc: Global, shape: &Shape, line: &ScriptLine) -> Result<(Group, u64), Unfit>
    ensures group { IfOk result (λ made. made.0 ≡ group_of shape.now.space line.now) }
    ensures length { IfOk result (λ made. made.1 ≡ group_length (group_of shape.now.space line.now)) }
    ensures memory { IfErr result (λ unfit. unfit ≡ Unfit.NoMemory) }
{
    let group = group_of(alloc, line, shape.space)?;
    match group.checked_length() {
        Some(length) => Ok((group, length)),
        None => Err(Unfit::NoMemory),
    }
}

/// Judges a line, and makes its group, with how long the text of that is.
#[tactic(auto, unfolding(model_script::specs::Fit::line_misfit))]
pub fn judge_line(alloc: Global, shape: &Shape, line: &ScriptLine) -> Result<(Group, u64), Unfit>
    requires limits { IsWithinLimits shape.now }
    ensures group { IfOk result (λ made. made.0 ≡ group_of shape.now.space line.now) }
    ensures length { IfOk result (λ made. made.1 ≡ group_length (group_of shape.now.space line.now)) }
    ensures fits { OnOk result (line_misfit shape.now line.now ≡ None) }
    ensures unfit { IfErr result (IsUnfitLine shape.now line.now) }
{
    if let Some(misfit) = user_misfit(line.user) {
        return Err(Unfit::Misfit(misfit));
    }
    if let Some(misfit) = items_misfit(shape, line.items.0.as_slice()) {
        return Err(Unfit::Misfit(misfit));
    }
    let (group, length) = match measured(alloc, shape, line) {
        Ok(made) => made,
        Err(unfit) => return Err(unfit),
    };
    match misfit_if(MAX_GROUP < length, Quantity::Group, length) {
        Some(misfit) => Err(Unfit::Misfit(misfit)),
        None => Ok((group, length)),
    }
}

/// Judges lines, and says how long the texts of their groups are together.
fn judge_lines(alloc: Global, shape: &Shape, lines: &[ScriptLine]) -> Result<u64, Unfit>
    requires limits { IsWithinLimits shape.now }
    ensures length { IfOk result (λ len. len ≡ length (stream_of (map (group_of shape.now.space) lines.now))) }
    ensures fits { OnOk result (first_misfit_of (map (line_misfit shape.now) lines.now) ≡ None) }
    ensures unfit { IfErr result (AreUnfitLines shape.now lines.now) }
{
    let mut total: u64 = 0;
    for line in lines {
        match judge_line(alloc, shape, line) {
            Ok((_, length)) => match total.checked_add(length) {
                Some(sum) => total = sum,
                None => return Err(Unfit::NoMemory),
            },
            Err(unfit) => return Err(unfit),
        }
    }
    Ok(total)
}

/// The lsn at which groups of so many bytes end that start there. So many bytes that it isn't below 2^61 have no room in
/// memory.
fn end_behind(start: u64, length: u64) -> Result<u64, Unfit>
    ensures end { IfOk result (λ end. end ≡ lsn_of (sn_of start + length)) }
    ensures small { IfOk result (λ end. end < 2 ^ 63) }
    ensures memory { IfErr result (λ unfit. unfit ≡ Unfit.NoMemory) }
{
    match sn_of(start).checked_add(length) {
        Some(sn) if sn < 1 << 61 => Ok(lsn_of(sn)),
        _ => Err(Unfit::NoMemory),
    }
}

/// A log that no checkpoint frees has room up to `room_end`.
fn total_misfit(end: u64, room_end: Option<u64>) -> Option<Misfit>
    requires small { end < 2 ^ 63 }
    ensures { result ≡ total_misfit room_end end }
{
    match room_end {
        None => None,
        Some(room_end) => misfit_if(room_end < end + MARGIN, Quantity::Total, end),
    }
}

/// How many bytes the archive of a run from its start up to its end takes.
fn archive_need(shape: &Shape, start: u64, end: u64) -> u64
    requires limits { IsWithinLimits shape.now }
    requires small { end < 2 ^ 63 }
    ensures { result ≡ archive_need shape.now start end }
{
    let pages = u64::from(shape.pages) * u64::from(shape.page_size);
    let blocks = (block_of(end) + BLOCK_SIZE).saturating_sub(block_of(start));
    3 * BLOCK_SIZE + pages + blocks
}

/// The archive's device, where there is one, has room for the archive of a run.
fn archive_misfit(shape: &Shape, start: u64, end: u64, archive: Option<u64>) -> Option<Misfit>
    requires limits { IsWithinLimits shape.now }
    requires small { end < 2 ^ 63 }
    ensures { result ≡ archive_misfit archive (archive_need shape.now start end) }
{
    match archive {
        None => None,
        Some(size) => {
            let need = archive_need(shape, start, end);
            misfit_if(size < need, Quantity::Archive, need)
        }
    }
}

/// The lsn at which a log ends, that it leaves room, and that its archive has room.
fn judge_end(
    shape: &Shape,
    start: u64,
    end: u64,
    room_end: Option<u64>,
    archive: Option<u64>,
) -> Option<Misfit>
    requires limits { IsWithinLimits shape.now }
    requires small { end < 2 ^ 63 }
    ensures { result ≡ first_misfit_of (lsn_misfit end ∷ total_misfit room_end end
        ∷ archive_misfit archive (archive_need shape.now start end) ∷ []) }
{
    if let Some(misfit) = misfit_if(LSN_LIMIT <= end, Quantity::Lsn, end) {
        return Some(misfit);
    }
    if let Some(misfit) = total_misfit(end, room_end) {
        return Some(misfit);
    }
    archive_misfit(shape, start, end, archive)
}

/// Judges whether a script fits a store of these sizes, on which it would start at this lsn, where the log has room up to
/// `room_end`, if no checkpoint frees it, and the archive's device, if there is one, has so many bytes. What doesn't fit is
/// the first quantity in the order of the fit list.
#[tactic(auto, unfolding(model_script::specs::Fit::first_misfit))]
pub fn judge(
    alloc: Global,
    shape: &Shape,
    start: u64,
    room_end: Option<u64>,
    archive: Option<u64>,
    script: &Script,
) -> Result<(), Unfit>
    requires limits { IsWithinLimits shape.now }
    ensures fits { OnOk result (first_misfit shape.now start room_end archive script.now ≡ None) }
    ensures unfit { IfErr result (IsUnfitScript shape.now start room_end archive script.now) }
{
    let length = match judge_lines(alloc, shape, script.0.as_slice()) {
        Ok(length) => length,
        Err(unfit) => return Err(unfit),
    };
    let end = match end_behind(start, length) {
        Ok(end) => end,
        Err(unfit) => return Err(unfit),
    };
    match judge_end(shape, start, end, room_end, archive) {
        None => Ok(()),
        Some(misfit) => Err(Unfit::Misfit(misfit)),
    }
}
