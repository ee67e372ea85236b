// What is read off the two devices of a store is determined, and what its pages are.
ghost use Rattle.std.specs.Prelude.{◌≡◌, ◌≤◌, ℕ, List, length, Some, slice_get};
ghost use Rattle.model_base.specs.declared.shape.Shape.{Shape};
ghost use Rattle.model_device.specs.{Disk};
ghost use Rattle.model_page.specs.declared.content.Content.{Content};
ghost use Rattle.model_log.specs.declared.group.Whole.{Whole};
ghost use Rattle.model_store.specs.Apply.{folded};
ghost use Rattle.model_store.specs.UpTo.{page_folded};
ghost use Rattle.model_store.specs.Fair.{IsFair};
ghost use Rattle.model_store.specs.declared.refusal.Refusal.{Refusal};
ghost use Rattle.model_store.specs.Scan.{Reading, IsReading, Refuses};

use model_log::one_group;

/// A store is read in one way.
pub fn one_reading()
    ensures { (log data_bytes : List ℕ) (first second : Reading)
        → IsReading log data_bytes first → IsReading log data_bytes second → first ≡ second }
{
    one_group();
}

/// They aren't both read and refused, and are refused for one cause.
pub fn one_answer()
    ensures read { (log data_bytes : List ℕ) (reading : Reading) (refusal : Refusal)
        → IsReading log data_bytes reading → Refuses log data_bytes refusal → ⊥ }
    ensures refused { (log data_bytes : List ℕ) (first second : Refusal)
        → Refuses log data_bytes first → Refuses log data_bytes second → first ≡ second }
{
    one_group();
}

/// No page that is read is ahead of the log's end.
pub fn read_not_ahead()
    ensures { (log data_bytes : List ℕ) (reading : Reading) → IsReading log data_bytes reading
        → (p : ℕ) (page : Content) → slice_get reading.pages p ≡ Some page → page.lsn ≤ reading.end }
{}

/// A fold has as many pages, and each of them is its page with every group applied.
pub fn get_folded()
    ensures count { (pages : List Content) (wholes : List Whole) → length (folded pages wholes) ≡ length pages }
    ensures each { (p : ℕ) (pages : List Content) (wholes : List Whole) (page : Content)
        → slice_get pages p ≡ Some page → slice_get (folded pages wholes) p ≡ Some (page_folded p wholes page) }
{}

/// What stood on a data device at its last good sync is a fair image of it.
pub fn base_is_fair()
    ensures { (shape : Shape) (disk : Disk) → IsFair shape disk disk.base }
{}
