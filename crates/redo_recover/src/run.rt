// Groups that stand one after another in the data of a log.
ghost use Rattle.std.specs.Prelude.{List, ℕ, ◌≡◌, ◌≤◌, ◌<◌, ◌+◌, ◌*◌, ◌++◌, length, drop, OnOk, IfOk};
ghost use Rattle.model_base.specs.declared.limits.TheConstants.{LSN_LIMIT};
ghost use Rattle.model_log.specs.{sn_of};
ghost use Rattle.redo_recover.specs.Runs.{HasRunGroups, IsFrontRun};

use crate::groups::read_storable;
use model_base::Shape;
use model_log::Whole;
use redo_lsn::{NoMemory, lsn_and_sn, lsn_of, sn_of};
use redo_num::Got;
use std::alloc::{AllocError, Global};

/// Groups that stand one after another in the data of a log.
#[derive(Debug, Drop)]
pub(crate) struct Run {
    pub(crate) wholes: Vec<Whole>,
    /// The byte of the data at which the first one starts.
    pub(crate) from: usize,
    /// The lsn of that byte.
    pub(crate) start: u64,
    /// The byte of the data at which the last one ends.
    pub(crate) to: usize,
    /// The lsn of that byte.
    pub(crate) end: u64,
}

impl Run {
    /// No group, at the front of data that starts at this lsn.
    pub(crate) fn none(alloc: Global, start: u64) -> Run
        ensures { (shape : Shape) (bytes : List ℕ) → IsFrontRun shape bytes start result }
    {
        Run {
            wholes: Vec::new(alloc),
            from: 0,
            start,
            to: 0,
            end: start,
        }
    }

    /// Takes over the groups of another run, if it begins where this one ends.
    pub(crate) fn join(&mut self, run: Run) -> Result<(), NoMemory>
        ensures run { OnOk result ((shape : Shape) (bytes : List ℕ) → HasRunGroups shape bytes self.old → HasRunGroups shape bytes run → HasRunGroups shape bytes self.new) }
        ensures first { self.new.from ≡ self.old.from }
        ensures at { self.new.start ≡ self.old.start }
    {
        if run.from == self.to && run.start == self.end {
            join_lists(&mut self.wholes, run.wholes)?;
            self.to = run.to;
            self.end = run.end;
        }
        Ok(())
    }
}

/// Adds groups after others; where there are none, the list itself is taken over.
fn join_lists(front: &mut Vec<Whole>, back: Vec<Whole>) -> Result<(), AllocError>
    ensures { OnOk result (front.new.items ≡ front.old.items ++ back.items) }
{
    if front.is_empty() {
        *front = back;
        return Ok(());
    }
    let mut back = back;
    front.append(&mut back)
}

/// The groups from this byte of the data on, at this lsn, as far as they fit the store, up to the first one that starts at the
/// byte `until` or past it.
pub(crate) fn read_run(
    alloc: Global,
    bytes: &[u8],
    from: usize,
    start: u64,
    until: usize,
    shape: &Shape,
) -> Result<Run, NoMemory>
    requires within { from ≤ length bytes.now }
    requires room { sn_of start + length (drop from bytes.now) < 2 * LSN_LIMIT }
    ensures run { IfOk result (HasRunGroups shape.now bytes.now) }
    ensures place { IfOk result (λ run. (run.from ≡ from) × (run.start ≡ start)) }
{
    lsn_and_sn();
    let mut wholes = Vec::new(alloc);
    let mut end = start;
    let mut to = from;
    while to < until {
        let Got::Value(group, taken) = read_storable(alloc, &bytes[to..], shape)? else {
            break;
        };
        let next = lsn_of(sn_of(end) + taken as u64);
        wholes.push(Whole {
            group,
            start: end,
            end: next,
        })?;
        end = next;
        to += taken;
    }
    Ok(Run {
        wholes,
        from,
        start,
        to,
        end,
    })
}
