// The report of a run and a crash.
ghost use Rattle.std.specs.Prelude.{◌≡◌, ◌++◌, OnOk, IfOk};
ghost use Rattle.std.specs.List.{flat_map};
ghost use Rattle.std.specs.String.{string_bytes};
ghost use Rattle.model_report.specs.{follow_line, group_line, left_line, recovered_line, report_text};
ghost use Rattle.redo_report.specs.Read.{read_of};

use crate::pages::push_pages;
use crate::run_lines::{push_follow, push_group, push_left, push_marks, push_open};
use model_page::Content;
use model_report::{Entry, Followed, Marks};
use redo_io::Text;
use redo_lsn::NoMemory;
use std::alloc::{AllocError, Global};

fn push_groups(text: &mut String, history: &[Entry]) -> Result<(), AllocError>
    ensures { OnOk result
        (string_bytes text.new ≡ string_bytes text.old ++ flat_map group_line history.now) }
{
    for entry in history {
        push_group(text, *entry)?;
    }
    Ok(())
}

fn push_lefts(text: &mut String, left: &[(u32, u64)]) -> Result<(), AllocError>
    ensures { OnOk result
        (string_bytes text.new ≡ string_bytes text.old ++ flat_map left_line left.now) }
{
    for pair in left {
        push_left(text, *pair)?;
    }
    Ok(())
}

fn push_follows(alloc: Global, text: &mut String, follows: &[Followed]) -> Result<(), AllocError>
    ensures { OnOk result
        (string_bytes text.new ≡ string_bytes text.old ++ flat_map follow_line follows.now) }
{
    for followed in follows {
        push_follow(alloc, text, *followed)?;
    }
    Ok(())
}

fn push_recovered(text: &mut String, history: &[Entry], end: u64) -> Result<(), AllocError>
    ensures { OnOk result
        (string_bytes text.new ≡ string_bytes text.old ++ recovered_line history.now end) }
{
    let groups = history.iter().filter(|entry| entry.end <= end).count();
    writeln!(text, "recovered {groups} {end}")
}

/// The report of a run: where it starts, or that opening was stopped; each reserved group in lsn order; how many
/// lines are left of each user; the marks, of which there are none where opening was stopped; what each follower came
/// to; and the end of the recovered log with the pages that were read, if the run was crashed.
#[tactic(auto, unfolding(model_report::specs::Listing::report_text))]
pub fn report(
    alloc: Global,
    start: Option<u64>,
    history: &[Entry],
    left: &[(u32, u64)],
    marks: Option<Marks>,
    follows: &[Followed],
    read: Option<(u64, &[Content])>,
) -> Result<Text, NoMemory>
    ensures { IfOk result
        (λ text. text ≡ report_text start history.now left.now marks follows.now (read_of read.entry)) }
{
    let mut text = String::new(alloc);
    push_open(&mut text, start)?;
    push_groups(&mut text, history)?;
    push_lefts(&mut text, left)?;
    push_marks(&mut text, marks)?;
    push_follows(alloc, &mut text, follows)?;
    if let Some((end, pages)) = read {
        push_recovered(&mut text, history, end)?;
        push_pages(alloc, &mut text, pages)?;
    }
    Ok(Text::new(text.into_bytes()))
}
