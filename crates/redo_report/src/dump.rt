// The listing of a store.
ghost use Rattle.std.specs.Prelude.{◌≡◌, ◌≤◌, ◌<◌, ◌+◌, ◌*◌, ◌^◌, ◌++◌, if◌then◌else◌, length, None, Some, OnOk, IfOk};
ghost use Rattle.std.specs.List.{flat_map};
ghost use Rattle.std.specs.String.{string_bytes};
ghost use Rattle.model_base.specs.declared.limits.TheConstants.{BLOCK_SIZE};
ghost use Rattle.model_report.specs.{block_line, block_lines, cause_word, checkpoint_line, fit_word, listing_text, record_line, stop_lines, store_line, whole_lines};

use model_base::{BLOCK_SIZE, Shape};
use model_log::{BlockView, Cause, Fit, Rec, Whole};
use redo_io::Text;
use redo_lsn::{NoMemory, number_of};
use redo_script::{push_init, push_number, push_string};
use std::alloc::{AllocError, Global};

/// What is listed of a store that was read.
#[derive(Clone, Copy, Debug)]
pub struct Listed<'a> {
    /// The sizes of the store.
    pub shape: &'a Shape,
    /// The number of the newest checkpoint.
    pub number: u64,
    /// Its lsn.
    pub ckpt: u64,
    /// The log blocks that were scanned from there on.
    pub views: &'a [BlockView],
    /// The lsn at which no further block was read, and why.
    pub stop: (u64, Cause),
    /// The groups that were scanned.
    pub groups: &'a [Whole],
    /// The lsn at which the log ends.
    pub end: u64,
}

fn push_store(text: &mut String, shape: &Shape) -> Result<(), AllocError>
    ensures { OnOk result (string_bytes text.new ≡ string_bytes text.old ++ store_line shape.now) }
{
    writeln!(
        text,
        "store {} {} {} {} {}",
        shape.page_size, shape.pages, shape.space, shape.log_blocks, shape.slots
    )
}

fn push_checkpoint(text: &mut String, number: u64, lsn: u64) -> Result<(), AllocError>
    ensures { OnOk result
        (string_bytes text.new ≡ string_bytes text.old ++ checkpoint_line number lsn) }
{
    writeln!(text, "checkpoint {number} {lsn}")
}

fn push_block(text: &mut String, lsn: u64, view: BlockView) -> Result<(), AllocError>
    ensures { OnOk result (string_bytes text.new ≡ string_bytes text.old ++ block_line lsn view) }
{
    let number = number_of(lsn);
    writeln!(
        text,
        "block {lsn} {number} {} {} {}",
        view.length, view.first, view.ckpt
    )
}

// Each block, of which the first begins at the lsn.
#[tactic(auto, using(crate::proofs::BlockLines::steps))]
fn push_blocks(text: &mut String, first: u64, views: &[BlockView]) -> Result<(), AllocError>
    requires { first + BLOCK_SIZE * length views.now < 2 ^ 64 }
    ensures { OnOk result
        (string_bytes text.new ≡ string_bytes text.old ++ block_lines first views.now) }
{
    let mut lsn = first;
    for view in views {
        push_block(text, lsn, *view)?;
        lsn += BLOCK_SIZE;
    }
    Ok(())
}

// What of a block doesn't fit, as one word.
fn fit_word(fit: Fit) -> &'static str
    ensures { result.now ≡ fit_word fit }
{
    match fit {
        Fit::Number => "number",
        Fit::Length => "length",
        Fit::First => "first",
        Fit::Checksum => "checksum",
        Fit::Whole => "whole",
    }
}

// Why no further block was read, as one word.
fn cause_word(cause: Cause) -> &'static str
    ensures { result.now ≡ cause_word cause }
{
    match cause {
        Cause::Partial => "partial",
        Cause::Round => "round",
        Cause::End => "end",
        Cause::Misfit(fit) => fit_word(fit),
    }
}

// Where and why the blocks end, if that is asked.
fn push_stop(text: &mut String, stop: Option<(u64, Cause)>) -> Result<(), AllocError>
    ensures { OnOk result (string_bytes text.new ≡ string_bytes text.old ++ stop_lines stop) }
{
    match stop {
        None => Ok(()),
        Some((lsn, cause)) => {
            let word = cause_word(cause);
            writeln!(text, "stop {lsn} {word}")
        }
    }
}

fn push_record(alloc: Global, text: &mut String, rec: &Rec) -> Result<(), AllocError>
    ensures { OnOk result (string_bytes text.new ≡ string_bytes text.old ++ record_line rec.now) }
{
    text.push_str("rec ")?;
    match rec {
        Rec::Num {
            width,
            page,
            offset,
            value,
            ..
        } => push_number(text, *width, *page, *offset, *value)?,
        Rec::Text {
            page,
            offset,
            bytes,
            ..
        } => push_string(alloc, text, *page, *offset, bytes.as_slice())?,
        Rec::Init { page, .. } => push_init(text, *page)?,
    }
    text.push_str("\n")
}

fn push_records(alloc: Global, text: &mut String, recs: &[Rec]) -> Result<(), AllocError>
    ensures { OnOk result
        (string_bytes text.new ≡ string_bytes text.old ++ flat_map record_line recs.now) }
{
    for rec in recs {
        push_record(alloc, text, rec)?;
    }
    Ok(())
}

// A group, and under it its records.
fn push_whole(alloc: Global, text: &mut String, whole: &Whole) -> Result<(), AllocError>
    ensures { OnOk result (string_bytes text.new ≡ string_bytes text.old ++ whole_lines whole.now) }
{
    let recs = whole.group.0.as_slice();
    let count = recs.len();
    writeln!(text, "group {} {} {count}", whole.start, whole.end)?;
    push_records(alloc, text, recs)
}

fn push_wholes(alloc: Global, text: &mut String, wholes: &[Whole]) -> Result<(), AllocError>
    ensures { OnOk result
        (string_bytes text.new ≡ string_bytes text.old ++ flat_map whole_lines wholes.now) }
{
    for whole in wholes {
        push_whole(alloc, text, whole)?;
    }
    Ok(())
}

/// The listing of a store: its shape, the newest checkpoint, each block with its number, where asked why they end, each
/// group with its records in the spelling of a script, and the log's end.
#[tactic(auto, unfolding(model_report::specs::Listing::listing_text))]
pub fn listing(alloc: Global, listed: &Listed, why: bool) -> Result<Text, NoMemory>
    requires { listed.now.ckpt + BLOCK_SIZE * length listed.now.views.now < 2 ^ 64 }
    ensures { IfOk result (λ text. text ≡ listing_text listed.now.shape.now listed.now.number listed.now.ckpt
        listed.now.views.now (if why then Some listed.now.stop else None) listed.now.groups.now listed.now.end) }
{
    let mut text = String::new(alloc);
    push_store(&mut text, listed.shape)?;
    push_checkpoint(&mut text, listed.number, listed.ckpt)?;
    push_blocks(&mut text, listed.ckpt, listed.views)?;
    push_stop(&mut text, why.then_some(listed.stop))?;
    push_wholes(alloc, &mut text, listed.groups)?;
    writeln!(text, "end {}", listed.end)?;
    Ok(Text::new(text.into_bytes()))
}
