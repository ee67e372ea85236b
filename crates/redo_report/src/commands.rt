// The texts of `recover`, `restore`, `format` and `gen --run`.
ghost use Rattle.std.specs.Prelude.{◌≡◌, ◌++◌, IfOk};
ghost use Rattle.model_report.specs.{format_text, page_lines, read_line, restored_text, summary_text};

use crate::pages::{pages_text, push_pages};
use model_base::START_LSN;
use model_page::Content;
use redo_crc::crc32c;
use redo_io::Text;
use redo_lsn::NoMemory;
use std::alloc::Global;

/// The text of `recover`: how many groups were scanned, where the log ends, and the line of each page that a group has
/// changed.
pub fn recovery(alloc: Global, groups: usize, end: u64, pages: &[Content]) -> Result<Text, NoMemory>
    ensures { IfOk result (λ text. text ≡ read_line groups end ++ page_lines pages.now) }
{
    let mut text = String::new(alloc);
    writeln!(text, "read {groups} {end}")?;
    push_pages(alloc, &mut text, pages)?;
    Ok(Text::new(text.into_bytes()))
}

/// The text of `restore`: how many groups were applied, where the last of them ends, or the run starts, and the line of
/// each page that a group has changed.
pub fn restored(alloc: Global, n: u64, end: u64, pages: &[Content]) -> Result<Text, NoMemory>
    ensures { IfOk result (λ text. text ≡ restored_text n end pages.now) }
{
    let mut text = String::new(alloc);
    writeln!(text, "restored {n} {end}")?;
    push_pages(alloc, &mut text, pages)?;
    Ok(Text::new(text.into_bytes()))
}

/// The text of `format`: the lsn at which the log starts.
#[tactic(auto, unfolding(model_report::specs::Listing::format_text))]
pub fn formatted(alloc: Global) -> Result<Text, NoMemory>
    ensures { IfOk result (λ text. text ≡ format_text) }
{
    let text = format!(in alloc; "formatted {START_LSN}\n")?;
    Ok(Text::new(text.into_bytes()))
}

/// The text of `gen --run`: how many groups were reserved, the flushed mark and the checkpoint at the end of the run, and
/// the CRC-32C of the page lines as they are read afterwards.
#[tactic(auto, unfolding(model_report::specs::Listing::summary_text))]
pub fn summary(
    alloc: Global,
    groups: usize,
    flushed: u64,
    ckpt: u64,
    pages: &[Content],
) -> Result<Text, NoMemory>
    ensures { IfOk result (λ text. text ≡ summary_text groups flushed ckpt pages.now) }
{
    let lines = pages_text(alloc, pages)?;
    let crc = crc32c(lines.as_slice()).to_be_bytes();
    let digits = hex::encode(alloc, crc.as_slice())?;
    let mut text = String::new(alloc);
    writeln!(text, "summary {groups} {flushed} {ckpt} {digits}")?;
    Ok(Text::new(text.into_bytes()))
}
