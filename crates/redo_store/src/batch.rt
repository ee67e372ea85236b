// A batch: its pages are sealed in a buffer, and written from there.
ghost use Rattle.std.specs.Prelude.{◌≡◌, ◌≤◌, ◌*◌, length, OnOk, OnErr};
ghost use Rattle.model_base.specs.{IsWithinLimits};
ghost use Rattle.model_parts.specs.{after_both, batch_of, FailsBoth, IsWritable, place_writes, slots_write};
ghost use Rattle.model_device.specs.{IsPutOrNot, synced, written};
ghost use Rattle.model_page.specs.{data_device_length};
ghost use Rattle.redo_disk.specs.{error_of, HasCause, MakesCalls, OnTold, put_requests, Serve};
ghost use Rattle.redo_store.specs.Part.{batch_requests};

use crate::places::put_both;
use model_base::Shape;
use redo_dblwr::fill_texts;
use redo_disk::{DevError, Sectors, write_and_sync};

/// Writes the pages of a batch into the slots, and makes them stay there.
pub(crate) fn put_slots<D: Sectors>(
    device: &mut D,
    shape: &Shape,
    batch: &[(u32, u64)],
    frames: &[u8],
    buffer: &mut [u8],
) -> Result<(), DevError>
    requires limits { IsWithinLimits shape.now }
    requires long { data_device_length shape.now ≤ (D.seen device.old).size }
    requires batch { IsWritable shape.now batch.now frames.now }
    requires room { length buffer.old ≡ shape.now.slots * shape.now.page_size }
    ensures ok { OnOk result (OnTold (D.seen device.old).tells (D.seen device.new).tells
        (λ old new. new ≡ synced (written old (slots_write shape.now (batch_of shape.now batch.now frames.now))))) }
    ensures err { OnErr result (OnTold (D.seen device.old).tells (D.seen device.new).tells
        (IsPutOrNot (slots_write shape.now (batch_of shape.now batch.now frames.now)))) }
    ensures size { (D.seen device.new).size ≡ (D.seen device.old).size }
    ensures cause { HasCause (D.seen device.old).faults (D.seen device.new).faults result }
    ensures calls { MakesCalls D.gives device.old device.new
        (Serve (put_requests (slots_write shape.now (batch_of shape.now batch.now frames.now))) (error_of result)) }
{
    fill_texts(buffer, shape, batch, frames);
    write_and_sync(device, 0, &buffer[..batch.len() * shape.page_size as usize])
}

/// Writes the pages of a batch into the slots, and once they stay there each into its place.
pub(crate) fn put_pages<D: Sectors>(
    device: &mut D,
    shape: &Shape,
    batch: &[(u32, u64)],
    frames: &[u8],
    buffer: &mut [u8],
) -> Result<(), DevError>
    requires limits { IsWithinLimits shape.now }
    requires long { data_device_length shape.now ≤ (D.seen device.old).size }
    requires batch { IsWritable shape.now batch.now frames.now }
    requires room { length buffer.old ≡ shape.now.slots * shape.now.page_size }
    ensures ok { OnOk result (OnTold (D.seen device.old).tells (D.seen device.new).tells
        (λ old new. new ≡ after_both (slots_write shape.now (batch_of shape.now batch.now frames.now))
        (place_writes shape.now (batch_of shape.now batch.now frames.now)) old)) }
    ensures err { OnErr result (OnTold (D.seen device.old).tells (D.seen device.new).tells
        (FailsBoth (slots_write shape.now (batch_of shape.now batch.now frames.now))
        (place_writes shape.now (batch_of shape.now batch.now frames.now)))) }
    ensures size { (D.seen device.new).size ≡ (D.seen device.old).size }
    ensures cause { HasCause (D.seen device.old).faults (D.seen device.new).faults result }
    ensures calls { MakesCalls D.gives device.old device.new
        (Serve (batch_requests shape.now (batch_of shape.now batch.now frames.now)) (error_of result)) }
{
    fill_texts(buffer, shape, batch, frames);
    put_both(
        device,
        shape,
        batch,
        &buffer[..batch.len() * shape.page_size as usize],
    )
}
