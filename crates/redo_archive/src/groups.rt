// The groups of an archive, read as its bytes come in.
ghost use Rattle.std.specs.Prelude.{ℕ, List, ◌≡◌, ◌+◌, ◌++◌, ◌<◌, ◌≤◌, [], ◌^◌, length, IfOk};
ghost use Rattle.model_base.specs.declared.shape.Shape.{Shape};
ghost use Rattle.model_store.specs.{applied};
ghost use Rattle.redo_apply.specs.{ArePagesOf};
ghost use Rattle.redo_apply.specs.Writing.{FitsPages};
ghost use Rattle.redo_archive.specs.Grouped.{Aim, AreRead, HasLsnRoom, IsApplied, AreEnding};

use crate::Restored;
use model_base::Shape;
use redo_apply::Pages;
use redo_lsn::{NoMemory, lsn_and_sn, lsn_of, sn_of};
use redo_num::Got;
use redo_record::Group;
use redo_recover::read_storable;
use std::alloc::Global;

/// The groups that were read so far: those of them that end at or below an lsn are applied.
#[derive(Debug, Drop)]
pub(crate) struct Groups {
    /// What they restore.
    pub(crate) restored: Restored,
    /// Where the last of them ends.
    pub(crate) at: u64,
    /// The bytes past it, less than a whole group.
    pub(crate) rest: Vec<u8>,
    /// Whether no group that fits can stand there, whatever bytes follow.
    pub(crate) broken: bool,
}

impl Groups {
    /// No group yet, at the run's start.
    pub(crate) fn none(alloc: Global, pages: Pages, start: u64) -> Groups
        ensures read { (aim : Aim) → aim.start ≡ start → aim.pages ≡ pages → AreRead aim [] result }
        ensures at { result.at ≡ start }
        ensures n { result.restored.n ≡ 0 }
        ensures rest { length result.rest.items ≡ 0 }
        ensures its_pages { result.restored.pages ≡ pages }
    {
        let restored = Restored {
            n: 0,
            end: start,
            pages,
        };
        Groups {
            restored,
            at: start,
            rest: Vec::new(alloc),
            broken: false,
        }
    }

    /// These groups, which end there, with the bytes past them.
    fn ending(
        alloc: Global,
        restored: Restored,
        at: u64,
        rest: &[u8],
        broken: bool,
    ) -> Result<Groups, NoMemory>
        ensures { IfOk result (AreEnding restored at rest.now broken) }
    {
        let rest = Vec::from_slice(alloc, rest)?;
        Ok(Groups {
            restored,
            at,
            rest,
            broken,
        })
    }

    /// The same with those that stand in these bytes, which follow, applied too where they end at or below the lsn.
    pub(crate) fn take(
        self,
        alloc: Global,
        bytes: &[u8],
        shape: &Shape,
        lsn: u64,
    ) -> Result<Groups, NoMemory>
        requires room { HasLsnRoom self.at self.restored.n self.rest.items (length bytes.now) }
        requires its_pages { ArePagesOf shape.now self.restored.pages }
        ensures read { IfOk result (λ groups. (aim : Aim) (before : List ℕ) → aim.shape ≡ shape.now → aim.lsn ≡ lsn
            → AreRead aim before self → AreRead aim (before ++ bytes.now) groups) }
        ensures room { IfOk result (λ groups. (count : ℕ)
            → HasLsnRoom self.at self.restored.n self.rest.items (length bytes.now + count)
            → HasLsnRoom groups.at groups.restored.n groups.rest.items count) }
        ensures its_pages { IfOk result (λ groups. ArePagesOf shape.now groups.restored.pages) }
    {
        if self.broken {
            return Ok(self);
        }
        let Groups {
            restored,
            at,
            rest,
            ..
        } = self;
        let mut joined = rest;
        joined.extend_from_slice(bytes)?;
        apply_groups(alloc, joined.as_slice(), shape, lsn, restored, at)
    }
}

/// Reads the groups that stand in front of the bytes, after others that end there and restore this, and applies those
/// that end at or below the lsn.
fn apply_groups(
    alloc: Global,
    bytes: &[u8],
    shape: &Shape,
    lsn: u64,
    restored: Restored,
    at: u64,
) -> Result<Groups, NoMemory>
    requires room { HasLsnRoom at restored.n bytes.now 0 }
    requires its_pages { ArePagesOf shape.now restored.pages }
    ensures read { IfOk result (λ groups. (aim : Aim) (whole : List ℕ) → aim.shape ≡ shape.now → aim.lsn ≡ lsn
        → IsApplied aim whole at bytes.now restored → AreRead aim whole groups) }
    ensures room { IfOk result (λ groups. (count : ℕ) → HasLsnRoom at restored.n bytes.now count
        → HasLsnRoom groups.at groups.restored.n groups.rest.items count) }
    ensures its_pages { IfOk result (λ groups. ArePagesOf shape.now groups.restored.pages) }
{
    lsn_and_sn();
    let mut restored = restored;
    let mut at = at;
    let mut rest = bytes;
    'groups: loop {
        match read_storable(alloc, rest, shape)? {
            Got::Value(group, taken) => {
                at = lsn_of(sn_of(at) + taken as u64);
                take_in(&mut restored, &group, at, lsn);
                rest = &rest[taken..];
            }
            Got::Short => return Groups::ending(alloc, restored, at, rest, false),
            Got::Bad => return Groups::ending(alloc, restored, at, rest, true),
        }
    }
}

/// Counts and applies a group that ends there, if that is at or below the lsn.
fn take_in(restored: &mut Restored, group: &Group, at: u64, lsn: u64)
    requires few { restored.old.n + 1 < 2 ^ 64 }
    requires fits { FitsPages group.now restored.old.pages }
    ensures by { at ≤ lsn → (restored.new.n ≡ restored.old.n + 1) × (restored.new.end ≡ at)
        × (restored.new.pages ≡ applied group.now at restored.old.pages) }
    ensures past { lsn < at → (restored.new.n ≡ restored.old.n) × (restored.new.end ≡ restored.old.end)
        × (restored.new.pages ≡ restored.old.pages) }
    ensures its_pages { (shape : Shape) → ArePagesOf shape restored.old.pages → ArePagesOf shape restored.new.pages }
{
    if lsn < at {
        return;
    }
    restored.pages.apply(group, at);
    restored.n += 1;
    restored.end = at;
}
