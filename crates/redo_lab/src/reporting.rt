// The report of a run.
ghost use Rattle.std.specs.Prelude.{IfOk};
ghost use Rattle.redo_lab.specs.Runs.{IsReportOf, played_follows, played_run};
ghost use Rattle.redo_report.specs.{read_of};

use crate::playing::Played;
use model_page::Content;
use model_report::History;
use model_script::Script;
use redo_io::Text;
use redo_lsn::NoMemory;
use redo_report::{left_of, report};
use std::alloc::Global;

/// The report of a run of a script, or of none where opening was stopped; after a crash with what was read.
pub(crate) fn report_of(
    alloc: Global,
    script: &Script,
    run: Option<&Played>,
    read: Option<(u64, &[Content])>,
) -> Result<Text, NoMemory>
    ensures { IfOk result (λ text. IsReportOf script.now (played_run run.entry) (played_follows run.entry) (read_of read.entry) text) }
{
    match run {
        None => {
            let left = left_of(alloc, &History(Vec::new(alloc)), script)?;
            report(alloc, None, &[], left.as_slice(), None, &[], read)
        }
        Some(played) => {
            let left = left_of(alloc, &played.history, script)?;
            let entries = played.history.0.as_slice();
            let marks = Some(played.marks);
            report(
                alloc,
                Some(played.start),
                entries,
                left.as_slice(),
                marks,
                played.follows.as_slice(),
                read,
            )
        }
    }
}
