// The copies of pages in the slots of the doublewrite area.
ghost use Rattle.std.specs.Prelude.{◌≡◌, ◌≤◌, ◌*◌, length, IfSome, OnOk};
ghost use Rattle.model_base.specs.{IsWithinLimits};
ghost use Rattle.model_parts.specs.{SameSlots};
ghost use Rattle.model_page.specs.{data_device_length};
ghost use Rattle.redo_disk.specs.{HasCause, MakesCall, Reads, StillTells};

use model_base::Shape;
use redo_disk::{DevError, Sectors};

/// Reads all slots, which lie side by side. What it leaves is enough of an image to find copies in.
pub fn read_slots<D: Sectors>(
    device: &mut D,
    shape: &Shape,
    slots: &mut [u8],
) -> Result<(), DevError>
    requires limits { IsWithinLimits shape.now }
    requires long { data_device_length shape.now ≤ (D.seen device.old).size }
    requires room { length slots.old ≡ shape.now.slots * shape.now.page_size }
    ensures bytes { OnOk result (IfSome (D.seen device.new).tells (λ disk. SameSlots shape.now disk.reads slots.new)) }
    ensures same { StillTells (D.seen device.old).tells (D.seen device.new).tells }
    ensures size { (D.seen device.new).size ≡ (D.seen device.old).size }
    ensures cause { HasCause (D.seen device.old).faults (D.seen device.new).faults result }
    ensures call { MakesCall D.gives device.old (Reads 0 slots.old result slots.new) device.new }
{
    device.read(0, slots)
}
