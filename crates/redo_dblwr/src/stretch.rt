// One stretch of page size on the data device: a slot of the doublewrite area, or the place of a page.
ghost use Rattle.std.specs.Prelude.{◌≡◌, ◌≤◌, ◌<◌, ◌*◌, ◌+◌, [], ◌∷◌, length, IfSome, OnOk};
ghost use Rattle.model_base.specs.{IsWithinLimits};
ghost use Rattle.model_parts.specs.{place_at};
ghost use Rattle.model_page.specs.{data_device_length, stretch_at};
ghost use Rattle.redo_dblwr.specs.Requests.{stretch_read};
ghost use Rattle.redo_disk.specs.{error_of, HasCause, MakesCall, MakesCalls, Reads, Serve, StillTells};

use model_base::Shape;
use redo_disk::{DevError, Sectors};

/// Where the place of a page begins.
pub fn place_at(shape: &Shape, page: u32) -> u64
    requires limits { IsWithinLimits shape.now }
    requires page { page < shape.now.pages }
    ensures { result ≡ place_at shape.now page }
{
    (u64::from(shape.slots) + u64::from(page)) * u64::from(shape.page_size)
}

/// Reads a slot or a place, of which the slots come first.
#[tactic(auto, unfolding(model_page::specs::Page::stretch_at))]
pub fn read_stretch<D: Sectors>(
    device: &mut D,
    shape: &Shape,
    n: u32,
    out: &mut [u8],
) -> Result<(), DevError>
    requires limits { IsWithinLimits shape.now }
    requires long { data_device_length shape.now ≤ (D.seen device.old).size }
    requires inside { n < shape.now.slots + shape.now.pages }
    requires out { length out.old ≡ shape.now.page_size }
    ensures bytes { OnOk result (IfSome (D.seen device.new).tells
        (λ disk. out.new ≡ stretch_at shape.now n disk.reads)) }
    ensures same { StillTells (D.seen device.old).tells (D.seen device.new).tells }
    ensures size { (D.seen device.new).size ≡ (D.seen device.old).size }
    ensures cause { HasCause (D.seen device.old).faults (D.seen device.new).faults result }
    ensures call { MakesCall D.gives device.old (Reads (n * shape.now.page_size) out.old result out.new) device.new }
    ensures calls { MakesCalls D.gives device.old device.new (Serve (stretch_read shape.now n ∷ []) (error_of result)) }
{
    device.read(u64::from(n) * u64::from(shape.page_size), out)
}
