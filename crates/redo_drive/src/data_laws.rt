// That the data part meets the laws by which the running store speaks of it, and what its device holds of a run.
ghost use Rattle.std.specs.Prelude.{ℕ, List, Some, slice_get, ◌≡◌, ◌<◌};
ghost use Rattle.model_base.specs.declared.shape.Shape.{Shape};
ghost use Rattle.model_core.specs.{BatchPage, KeptPage, Setup};
ghost use Rattle.model_device.specs.{Disk};
ghost use Rattle.model_running.specs.{ArePrefixes, content_in, contents_of, DataTells, HasItsPages};
ghost use Rattle.model_page.specs.declared.content.Content.{Content};
ghost use Rattle.model_pagecore.specs.{AreApart};
ghost use Rattle.model_pagecore.specs.DataLaws.{DataLaws};
ghost use Rattle.model_log.specs.declared.group.Whole.{Whole};
ghost use Rattle.model_theorem.specs.{IsStored, Opened};
ghost use Rattle.redo_drive.specs.DataPartSide.{HasBegun, HoldsPages, data_side};
ghost use Rattle.redo_store.specs.Part.{Part};

use redo_disk::Sectors;

/// A run that began with whatever pages, on whatever part, may speak of the part by these laws.
pub fn data_part_meets_laws<D: Sectors>()
    ensures { (faults : ℕ) (shape : Shape) (opened : ℕ → KeptPage) (first : Part D)
        → DataLaws (data_side D.seen faults shape (HasBegun D.seen opened first)) }
{}

/// Where the pages are prefixes of a run, the device that the part tells of holds them so: as they were last written, or as
/// the batch has them whose writing failed.
pub fn held_pages_are_stored<D: Sectors>()
    ensures { (faults : ℕ) (shape : Shape) (opened kept_page : ℕ → KeptPage) (first part : Part D) (unfinished : List BatchPage)
        (pages : List Content) (wholes : List Whole) (stable ckpt : ℕ) (disk : Disk)
        → HoldsPages D.seen faults shape (HasBegun D.seen opened first) kept_page unfinished part → HasBegun D.seen opened first
        → AreApart unfinished → ((p : ℕ) (page : Content) → slice_get pages p ≡ Some page → p < shape.pages)
        → ArePrefixes pages wholes stable ckpt (contents_of kept_page) (content_in unfinished)
        → (D.seen part.dev).tells ≡ Some disk
        → IsStored shape pages wholes stable ckpt (contents_of kept_page) (content_in unfinished) disk }
{}

/// So what the part holds of a run's pages its device does, as a closed run has it.
pub fn data_part_tells<D: Sectors>()
    ensures { (faults : ℕ) (shape : Shape) (first part : Part D) (setup : Setup) (opened : Opened) (disk : Disk)
        → HasBegun D.seen setup.opened first → opened.shape ≡ shape → HasItsPages setup opened → (D.seen part.dev).tells ≡ Some disk
        → DataTells (data_side D.seen faults shape (HasBegun D.seen setup.opened first)) opened part disk }
{}
