// The command `restore`.
ghost use Rattle.std.specs.Prelude.{◌≡◌, ◌≤◌, IfOk, length};
ghost use Rattle.model_report.specs.{restored_text};
ghost use Rattle.model_base.specs.declared.limits.TheConstants.{MAX_PAGES};
ghost use Rattle.model_script.specs.declared.asked.Command.TheVariants.{Restore};
ghost use Rattle.redo_io.specs.{SourceSeen};
ghost use Rattle.redo_lab.specs.Done.{IsDoneBy};

use crate::faults::unrestored;
use crate::outcome::{Done, Outcome};
use crate::reading::contents;
use model_archive::one_restore;
use redo_archive::{Restored, restore};
use redo_disk::Sectors;
use redo_io::Text;
use redo_lsn::NoMemory;
use redo_memdisk::Fused;
use redo_report::restored;
use std::alloc::Global;

/// What there is to print of what was restored.
fn text_of(alloc: Global, found: &Restored) -> Result<Text, NoMemory>
    requires { length found.now.pages ≤ MAX_PAGES }
    ensures { IfOk result (λ text. text ≡ restored_text found.now.n found.now.end found.now.pages) }
{
    let pages = contents(alloc, &found.pages)?;
    restored(alloc, found.n, found.end, pages.as_slice())
}

/// Restores the pages of the archived run for the lsn, and prints them. It calls the archive's device alone.
pub(crate) fn restore_command<L: Sectors, D: Sectors, A: Sectors>(
    alloc: Global,
    to: u64,
    log: L,
    store: D,
    arch: A,
) -> (Done<L, D>, A)
    ensures { (source : SourceSeen) → IsDoneBy L.seen L.gives D.seen D.gives log store A.seen A.gives source source arch (Restore to) result.0 result.1 }
{
    one_restore();
    let mut arch = arch;
    let log = Fused::plain(log);
    let store = Fused::plain(store);
    let outcome = match restore(alloc, &mut arch, to) {
        Ok(found) => Outcome::of_text(text_of(alloc, &found)),
        Err(fault) => Outcome::Fault(unrestored(fault)),
    };
    let done = Done {
        outcome,
        log,
        store,
    };
    (done, arch)
}
