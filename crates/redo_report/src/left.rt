// What is left of a script.
ghost use Rattle.std.specs.Prelude.{◌≡◌, ℕ, ◌-◌, List, IfOk, OnOk, filter, nat_lt};
ghost use Rattle.model_report.specs.{IsLeft};
ghost use Rattle.model_script.specs.declared.script.ScriptLine.{ScriptLine};
ghost use Rattle.std.specs.BTreeMap.{IsOrdered};
ghost use Rattle.std.specs.Ordering.{nat_cmp};
ghost use Rattle.redo_report.specs.Left.{CountsLeft, CountsLines};

use model_report::{Entry, History};
use model_script::{Script, ScriptLine};
use redo_lsn::NoMemory;
use std::alloc::{AllocError, Global};
use std::collections::BTreeMap;

/// How many lines each user has.
fn count_lines(alloc: Global, script: &[ScriptLine]) -> Result<BTreeMap<u32, u64>, AllocError>
    ensures { IfOk result (λ counts. CountsLines counts script.now) }
{
    let mut counts = BTreeMap::new(alloc);
    for line in script {
        let count = counts.get(&line.user).copied().unwrap_or(0);
        counts.insert(line.user, count + 1)?;
    }
    Ok(counts)
}

/// Takes one line off its user for each entry, where the user has one.
fn take_entries(counts: &mut BTreeMap<u32, u64>, entries: &[Entry]) -> Result<(), AllocError>
    ensures { OnOk result ((lines : List ScriptLine) → CountsLines counts.old lines → CountsLeft counts.new lines entries.now) }
{
    for entry in entries {
        let count = counts.get(&entry.user).copied().unwrap_or(0);
        counts.insert(entry.user, count.saturating_sub(1))?;
    }
    Ok(())
}

/// The users for which something is counted, ascending, each with its count.
fn counted(alloc: Global, counts: &BTreeMap<u32, u64>) -> Result<Vec<(u32, u64)>, AllocError>
    ensures pairs { IfOk result (λ left. left.items ≡ filter (λ pair. nat_lt 0 pair.1) counts.now.entries) }
    ensures ordered { IfOk result (λ _. IsOrdered nat_cmp counts.now) }
{
    counts
        .iter()
        .filter(|(_, count)| 0 < **count)
        .map(|(user, count)| (*user, *count))
        .collect(alloc)
}

/// How many lines of a script are left by a history, for each user that has lines without an entry, users ascending.
pub fn left_of(
    alloc: Global,
    history: &History,
    script: &Script,
) -> Result<Vec<(u32, u64)>, NoMemory>
    ensures { IfOk result (λ left. IsLeft script.now history.now left.items) }
{
    let mut counts = count_lines(alloc, script.0.as_slice())?;
    take_entries(&mut counts, history.0.as_slice())?;
    Ok(counted(alloc, &counts)?)
}
