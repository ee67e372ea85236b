// Device calls in a row.
ghost use Rattle.std.specs.Prelude.{◌≡◌, ◌≤◌, ◌<◌, ◌+◌, ◌%◌, ◌^◌, length, OnOk, OnErr};
ghost use Rattle.model_base.specs.declared.limits.TheConstants.{BLOCK_SIZE, START_LSN};
ghost use Rattle.model_device.specs.{FailsWrite};
ghost use Rattle.model_log.specs.{IsLayout, ring_start, round_of};
ghost use Rattle.redo_disk.specs.{error_of, HasCause, IsRange, MakesCalls, OnTold, Serve, write_at};
ghost use Rattle.redo_logdev.specs.Part.{block_writes, round_writes, some_write};
ghost use Rattle.redo_logdev.specs.Writing.{FailsBlocks, FailsRound, written_blocks, written_if, written_round};

use model_base::BLOCK_SIZE;
use model_log::Layout;
use redo_disk::{DevError, Sectors};
use redo_lsn::{offset_of, round_of};

/// Writes bytes, if there are any.
fn write_some<L: Sectors>(device: &mut L, at: u64, bytes: &[u8]) -> Result<(), DevError>
    requires { IsRange (L.seen device.old).size at (length bytes.now) }
    ensures ok { OnOk result (OnTold (L.seen device.old).tells (L.seen device.new).tells
        (λ old new. new ≡ written_if at bytes.now old)) }
    ensures err { OnErr result (OnTold (L.seen device.old).tells (L.seen device.new).tells
        (FailsWrite (write_at at bytes.now))) }
    ensures size { (L.seen device.new).size ≡ (L.seen device.old).size }
    ensures calls { MakesCalls L.gives device.old device.new (Serve (some_write at bytes.now) (error_of result)) }
    ensures cause { HasCause (L.seen device.old).faults (L.seen device.new).faults result }
{
    if bytes.is_empty() {
        return Ok(());
    }
    device.write(at, bytes)
}

/// Writes bytes from the place of the block at `from` on: up to the end of the ring, and what is left at its start.
fn write_round<L: Sectors>(
    device: &mut L,
    layout: &Layout,
    from: u64,
    bytes: &[u8],
) -> Result<(), DevError>
    requires aligned { from % BLOCK_SIZE ≡ 0 }
    requires started { START_LSN ≤ from }
    requires small { from < 2 ^ 61 }
    requires is_layout { IsLayout layout.now }
    requires long { ring_start layout.now + round_of layout.now ≤ (L.seen device.old).size }
    requires whole { length bytes.now % BLOCK_SIZE ≡ 0 }
    requires room { length bytes.now ≤ round_of layout.now }
    ensures ok { OnOk result (OnTold (L.seen device.old).tells (L.seen device.new).tells
        (λ old new. new ≡ written_round layout.now from bytes.now old)) }
    ensures err { OnErr result (OnTold (L.seen device.old).tells (L.seen device.new).tells
        (FailsRound layout.now from bytes.now)) }
    ensures size { (L.seen device.new).size ≡ (L.seen device.old).size }
    ensures calls { MakesCalls L.gives device.old device.new (Serve (round_writes layout.now from bytes.now) (error_of result)) }
    ensures cause { HasCause (L.seen device.old).faults (L.seen device.new).faults result }
{
    let start = BLOCK_SIZE * layout.first;
    let at = offset_of(from, layout);
    let rest = start + round_of(layout) - at;
    let (front, back) = bytes.split_at(bytes.len().min(rest as usize));
    write_some(device, at, front)?;
    write_some(device, start, back)
}

/// Writes full blocks from the place of the block at `from` on, and then the bytes of an incomplete one at this offset.
pub fn write_blocks<L: Sectors>(
    device: &mut L,
    layout: &Layout,
    from: u64,
    full: &[u8],
    at: u64,
    last: &[u8],
) -> Result<(), DevError>
    requires aligned { from % BLOCK_SIZE ≡ 0 }
    requires started { START_LSN ≤ from }
    requires small { from < 2 ^ 61 }
    requires is_layout { IsLayout layout.now }
    requires long { ring_start layout.now + round_of layout.now ≤ (L.seen device.old).size }
    requires whole { length full.now % BLOCK_SIZE ≡ 0 }
    requires room { length full.now ≤ round_of layout.now }
    requires last { IsRange (L.seen device.old).size at (length last.now) }
    ensures ok { OnOk result (OnTold (L.seen device.old).tells (L.seen device.new).tells
        (λ old new. new ≡ written_blocks layout.now from full.now at last.now old)) }
    ensures err { OnErr result (OnTold (L.seen device.old).tells (L.seen device.new).tells
        (FailsBlocks layout.now from full.now at last.now)) }
    ensures size { (L.seen device.new).size ≡ (L.seen device.old).size }
    ensures calls { MakesCalls L.gives device.old device.new
        (Serve (block_writes layout.now from full.now at last.now) (error_of result)) }
    ensures cause { HasCause (L.seen device.old).faults (L.seen device.new).faults result }
{
    write_round(device, layout, from, full)?;
    write_some(device, at, last)
}
