// The copies of a page, and its repair: the copy that counts is put into its place.
ghost use Rattle.std.specs.Prelude.{◌≡◌, ◌≤◌, ◌<◌, ◌*◌, [], ◌∷◌, length, IfOk, IfSome, MatchOption, OnOk, OnErr};
ghost use Rattle.model_base.specs.{IsWithinLimits};
ghost use Rattle.model_parts.specs.{FailsPutBack, IsPutBack};
ghost use Rattle.model_page.specs.{data_device_length, HasNoCopy, IsBestCopy};
ghost use Rattle.redo_dblwr.specs.{slots_read};
ghost use Rattle.redo_disk.specs.{error_of, HasCause, MakesCalls, Serve, StillTells, WhereTold};
ghost use Rattle.redo_store.specs.RepairRequests.{RepairCalls};

use model_base::Shape;
use redo_dblwr::{place_at, read_slots};
use redo_disk::{DevError, Sectors, write_and_sync};
use redo_page::best_copy;

/// The slot and the lsn of the copy of a page that counts. All slots are read by one read.
pub(crate) fn find_copy<D: Sectors>(
    device: &mut D,
    shape: &Shape,
    page: u32,
    slots: &mut [u8],
) -> Result<Option<(u32, u64)>, DevError>
    requires limits { IsWithinLimits shape.now }
    requires long { data_device_length shape.now ≤ (D.seen device.old).size }
    requires room { length slots.old ≡ shape.now.slots * shape.now.page_size }
    ensures found { IfOk result (λ found. IfSome (D.seen device.new).tells (λ disk. MatchOption found
        (HasNoCopy shape.now disk.reads page)
        (λ best. IsBestCopy shape.now disk.reads page best.0 best.1))) }
    ensures within { IfOk result (λ found. IfSome found (λ best. best.0 < shape.now.slots)) }
    ensures same { StillTells (D.seen device.old).tells (D.seen device.new).tells }
    ensures size { (D.seen device.new).size ≡ (D.seen device.old).size }
    ensures cause { HasCause (D.seen device.old).faults (D.seen device.new).faults result }
    ensures calls { MakesCalls D.gives device.old device.new (Serve (slots_read shape.now ∷ []) (error_of result)) }
{
    read_slots(device, shape, slots)?;
    Ok(best_copy(slots, shape, page))
}

/// Puts the copy of a page that counts into its place, and makes it stay.
pub(crate) fn put_back<D: Sectors>(
    device: &mut D,
    shape: &Shape,
    page: u32,
    slots: &mut [u8],
) -> Result<(), DevError>
    requires limits { IsWithinLimits shape.now }
    requires long { data_device_length shape.now ≤ (D.seen device.old).size }
    requires inside { page < shape.now.pages }
    requires room { length slots.old ≡ shape.now.slots * shape.now.page_size }
    ensures ok { OnOk result (WhereTold (D.seen device.old).tells (D.seen device.new).tells
        (IsPutBack shape.now page)) }
    ensures err { OnErr result (WhereTold (D.seen device.old).tells (D.seen device.new).tells
        (FailsPutBack shape.now page)) }
    ensures size { (D.seen device.new).size ≡ (D.seen device.old).size }
    ensures cause { HasCause (D.seen device.old).faults (D.seen device.new).faults result }
    ensures calls { MakesCalls D.gives device.old device.new (RepairCalls shape.now page (error_of result)) }
{
    read_slots(device, shape, slots)?;
    match best_copy(slots, shape, page) {
        None => Ok(()),
        Some((slot, _)) => {
            let page_size = shape.page_size as usize;
            let from = slot as usize * page_size;
            write_and_sync(
                device,
                place_at(shape, page),
                &slots[from..from + page_size],
            )
        }
    }
}
