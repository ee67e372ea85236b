// The writes of a batch: its slots, and once they stay there each page's place.
ghost use Rattle.std.specs.Prelude.{◌≡◌, ◌≤◌, ◌<◌, ◌*◌, ℕ, ◌++◌, length, map, Some, OnOk, OnErr, slice_get};
ghost use Rattle.model_base.specs.{IsWithinLimits};
ghost use Rattle.model_parts.specs.{after_both, ArePutOrNot, FailsBoth, FailsOne, written_all};
ghost use Rattle.model_device.specs.{synced};
ghost use Rattle.model_page.specs.{data_device_length};
ghost use Rattle.redo_disk.specs.{error_of, HasCause, MakesCalls, OnTold, put_requests, Serve, ToWrite, write_at};
ghost use Rattle.redo_store.specs.Places.{text_writes};
ghost use Rattle.redo_store.specs.Part.{all_put};

use model_base::Shape;
use redo_dblwr::place_at;
use redo_disk::{DevError, Sectors, write_and_sync};

/// Writes each text into the place of its page.
fn write_texts<D: Sectors>(
    device: &mut D,
    shape: &Shape,
    batch: &[(u32, u64)],
    texts: &[u8],
) -> Result<(), DevError>
    requires limits { IsWithinLimits shape.now }
    requires long { data_device_length shape.now ≤ (D.seen device.old).size }
    requires pages { (i : ℕ) (pair : ℕ × ℕ) → slice_get batch.now i ≡ Some pair → pair.0 < shape.now.pages }
    requires count { length texts.now ≡ length batch.now * shape.now.page_size }
    ensures ok { OnOk result (OnTold (D.seen device.old).tells (D.seen device.new).tells
        (λ old new. new ≡ written_all old (text_writes shape.now batch.now texts.now))) }
    ensures err { OnErr result (OnTold (D.seen device.old).tells (D.seen device.new).tells
        (FailsOne (text_writes shape.now batch.now texts.now))) }
    ensures size { (D.seen device.new).size ≡ (D.seen device.old).size }
    ensures cause { HasCause (D.seen device.old).faults (D.seen device.new).faults result }
    ensures calls { MakesCalls D.gives device.old device.new (Serve (map ToWrite (text_writes shape.now batch.now texts.now)) (error_of result)) }
{
    let page_size = shape.page_size as usize;
    for (i, (page, _)) in batch.iter().enumerate() {
        let from = i * page_size;
        device.write(place_at(shape, *page), &texts[from..from + page_size])?;
    }
    Ok(())
}

/// Writes each text into the place of its page, and makes them stay.
fn put_texts<D: Sectors>(
    device: &mut D,
    shape: &Shape,
    batch: &[(u32, u64)],
    texts: &[u8],
) -> Result<(), DevError>
    requires limits { IsWithinLimits shape.now }
    requires long { data_device_length shape.now ≤ (D.seen device.old).size }
    requires pages { (i : ℕ) (pair : ℕ × ℕ) → slice_get batch.now i ≡ Some pair → pair.0 < shape.now.pages }
    requires count { length texts.now ≡ length batch.now * shape.now.page_size }
    ensures ok { OnOk result (OnTold (D.seen device.old).tells (D.seen device.new).tells
        (λ old new. new ≡ synced (written_all old (text_writes shape.now batch.now texts.now)))) }
    ensures err { OnErr result (OnTold (D.seen device.old).tells (D.seen device.new).tells
        (ArePutOrNot (text_writes shape.now batch.now texts.now))) }
    ensures size { (D.seen device.new).size ≡ (D.seen device.old).size }
    ensures cause { HasCause (D.seen device.old).faults (D.seen device.new).faults result }
    ensures calls { MakesCalls D.gives device.old device.new (Serve (all_put (text_writes shape.now batch.now texts.now)) (error_of result)) }
{
    write_texts(device, shape, batch, texts)?;
    device.sync()
}

/// Writes the texts into the slots, and once they stay each into its place.
pub(crate) fn put_both<D: Sectors>(
    device: &mut D,
    shape: &Shape,
    batch: &[(u32, u64)],
    texts: &[u8],
) -> Result<(), DevError>
    requires limits { IsWithinLimits shape.now }
    requires long { data_device_length shape.now ≤ (D.seen device.old).size }
    requires pages { (i : ℕ) (pair : ℕ × ℕ) → slice_get batch.now i ≡ Some pair → pair.0 < shape.now.pages }
    requires count { length texts.now ≡ length batch.now * shape.now.page_size }
    requires few { length batch.now ≤ shape.now.slots }
    ensures ok { OnOk result (OnTold (D.seen device.old).tells (D.seen device.new).tells
        (λ old new. new ≡ after_both (write_at 0 texts.now) (text_writes shape.now batch.now texts.now) old)) }
    ensures err { OnErr result (OnTold (D.seen device.old).tells (D.seen device.new).tells
        (FailsBoth (write_at 0 texts.now) (text_writes shape.now batch.now texts.now))) }
    ensures size { (D.seen device.new).size ≡ (D.seen device.old).size }
    ensures cause { HasCause (D.seen device.old).faults (D.seen device.new).faults result }
    ensures calls { MakesCalls D.gives device.old device.new
        (Serve (put_requests (write_at 0 texts.now) ++ all_put (text_writes shape.now batch.now texts.now)) (error_of result)) }
{
    write_and_sync(device, 0, texts)?;
    put_texts(device, shape, batch, texts)
}
