// Crashes, stops and failures of small devices, call by call.
ghost use Rattle.std.specs.Prelude.{◌≡◌, ◌+◌, ◌*◌, ◌≤◌, IfOk};
ghost use Rattle.redo_memdisk.specs.{fresh, fuse_of};

use model_base::BLOCK_SIZE;
use redo_disk::{DevError, Sectors, write_and_sync};
use redo_memdisk::{Fused, MemDisk};
use std::alloc::{AllocError, Global};
use std::test::Fail;

/// Bytes of a device: four sectors.
const LEN: u64 = 4 * BLOCK_SIZE;

/// A device in memory of four sectors.
fn blank(alloc: Global) -> Result<MemDisk, AllocError>
    ensures { IfOk result (λ memory. (⟦<MemDisk as Sectors>⟧.seen memory).size ≡ LEN) }
{
    MemDisk::new(alloc, LEN)
}

/// Fills a sector.
pub fn fill<D: Sectors>(device: &mut D, sector: u64, byte: u8) -> Result<(), DevError>
    requires { 512 * sector + 512 ≤ (D.seen device.old).size }
    ensures { (D.seen device.new).size ≡ (D.seen device.old).size }
{
    let _len = device.len();
    device.write(512 * sector, &[byte; 512])
}

/// The first byte of a sector.
pub fn first_byte<D: Sectors>(device: &mut D, sector: u64) -> Result<u8, DevError>
    requires { 512 * sector + 512 ≤ (D.seen device.old).size }
    ensures { (D.seen device.new).size ≡ (D.seen device.old).size }
{
    let _len = device.len();
    let mut out = [9; 512];
    device.read(512 * sector, &mut out)?;
    Ok(out[0])
}

/// The first bytes of four sectors.
fn first_bytes<D: Sectors>(device: &mut D) -> Result<[u8; 4], DevError>
    requires { LEN ≤ (D.seen device.old).size }
{
    Ok([
        first_byte(device, 0)?,
        first_byte(device, 1)?,
        first_byte(device, 2)?,
        first_byte(device, 3)?,
    ])
}

/// Writes a sector and, by one call, two more, and crashes. Answers what the four sectors begin with then.
fn written_and_crashed<D: Sectors>(device: &mut D, pick: u64) -> Result<[u8; 4], DevError>
    requires { LEN ≤ (D.seen device.old).size }
{
    fill(device, 0, 1)?;
    let mut two_sectors = [2; 1024];
    two_sectors[512..].copy_from_slice(&[3; 512]);
    device.write(512, &two_sectors)?;
    device.crash(pick);
    first_bytes(device)
}

#[test]
fn a_crash_keeps_the_sectors_of_its_pick(rt: HostRuntime) -> Result<(), Fail> {
    for (pick, want) in [
        (0, [0, 0, 0, 0]),
        (u64::MAX, [1, 2, 3, 0]),
        (5, [1, 0, 3, 0]),
    ] {
        let mut device = blank(rt.alloc())?;
        let found = written_and_crashed(&mut device, pick)?;
        assert!(rt; found == want, "at the pick {pick}");
    }
    Ok(())
}

/// Fills two sectors, so that a crash keeps them, and fills them anew. Answers what a crash leaves of them.
fn filled_anew_and_crashed<D: Sectors>(device: &mut D, pick: u64) -> Result<[u8; 1024], DevError>
    requires { 1024 ≤ (D.seen device.old).size }
{
    write_and_sync(device, 0, &[0x55; 1024])?;
    device.write(0, &[0xAA; 1024])?;
    device.crash(pick);
    let mut out = [0; 1024];
    device.read(0, &mut out)?;
    Ok(out)
}

/// How many of the first bytes of a sector were written last, where the others are those from before.
fn count_new(sector: &[u8]) -> Option<usize> {
    let count = sector.iter().filter(|byte| **byte == 0xAA).count();
    let is_torn = count <= sector.len()
        && sector[..count].iter().all(|byte| *byte == 0xAA)
        && sector[count..].iter().all(|byte| *byte == 0x55);
    if is_torn { Some(count) } else { None }
}

/// The same of two sectors.
fn counts_new(bytes: &[u8; 1024]) -> (Option<usize>, Option<usize>) {
    (count_new(&bytes[..512]), count_new(&bytes[512..]))
}

#[test]
fn a_crash_tears_the_sectors_that_it_loses(rt: HostRuntime) -> Result<(), Fail> {
    for (cut, pick, want) in [
        (0, 0, (0, 0)),
        (100, 0, (100, 100)),
        (100, 2, (100, 512)),
        (511, 1, (512, 511)),
        (1, u64::MAX, (512, 512)),
    ] {
        let mut device = MemDisk::tearing(rt.alloc(), 1024, cut)?;
        let found = filled_anew_and_crashed(&mut device, pick)?;
        let counts = counts_new(&found);
        assert!(rt;
            counts == (Some(want.0), Some(want.1)),
            "at the cut {cut} and the pick {pick}"
        );
    }
    Ok(())
}

#[test]
fn a_device_that_tears_fails_a_named_call(rt: HostRuntime) -> Result<(), Fail> {
    // the write that fails is pending, and torn by the crash
    let calls = vec![in rt.alloc(); 2]?;
    let mut device = MemDisk::tearing_and_failing(rt.alloc(), 1024, 100, calls)?;
    write_and_sync(&mut device, 0, &[0x55; 1024])?;
    assert!(rt; device.write(0, &[0xAA; 512]) == Err(DevError::Failed));
    device.crash(0);
    let mut out = [0; 1024];
    device.read(0, &mut out)?;
    assert!(rt; counts_new(&out) == (Some(100), Some(0)));
    Ok(())
}

/// What a call came to: 0 where it did what it was asked, 1 where the device failed, 2 where memory ran out.
fn code_of<T: Drop>(answer: Result<T, DevError>) -> u8 {
    match answer {
        Ok(_) => 0,
        Err(DevError::Failed) => 1,
        Err(DevError::NoMemory) => 2,
    }
}

/// The codes of four calls: a write into the first sector, one into the second, a sync and a read. After them comes a crash.
fn codes_of_four<D: Sectors>(device: &mut D, pick: u64) -> [u8; 4]
    requires { LEN ≤ (D.seen device.old).size }
    ensures { (D.seen device.new).size ≡ (D.seen device.old).size }
{
    let first = fill(device, 0, 7);
    let second = fill(device, 1, 8);
    let synced = device.sync();
    let read = first_byte(device, 0);
    device.crash(pick);
    [
        code_of(first),
        code_of(second),
        code_of(synced),
        code_of(read),
    ]
}

#[test]
fn a_named_call_fails(rt: HostRuntime) -> Result<(), Fail> {
    // the call, the codes of the four, and what a crash that keeps nothing leaves; a write that fails is pending
    for (number, codes, left) in [
        (0, [1, 0, 0, 0], [7, 8, 0, 0]),
        (1, [0, 1, 0, 0], [7, 8, 0, 0]),
        (2, [0, 0, 1, 0], [0, 0, 0, 0]),
        (3, [0, 0, 0, 1], [7, 8, 0, 0]),
    ] {
        let mut device = MemDisk::failing(rt.alloc(), LEN, vec![in rt.alloc(); number]?)?;
        let found = codes_of_four(&mut device, 0);
        let bytes = first_bytes(&mut device)?;
        assert!(rt; found == codes && bytes == left, "at the call {number}");
    }
    Ok(())
}

#[test]
fn a_fuse_stops_a_device(rt: HostRuntime) -> Result<(), Fail> {
    // the limit, the codes of the four calls, how many of them fail, and what a crash that keeps all leaves: also the write
    // at which the device stops, and none that comes later
    for (limit, codes, failed, left) in [
        (Some(0), [1, 1, 1, 1], 4, [7, 0, 0, 0]),
        (Some(1), [0, 1, 1, 1], 3, [7, 8, 0, 0]),
        (Some(2), [0, 0, 1, 1], 2, [7, 8, 0, 0]),
        (Some(3), [0, 0, 0, 1], 1, [7, 8, 0, 0]),
        (None, [0, 0, 0, 0], 0, [7, 8, 0, 0]),
    ] {
        let mut fused = Fused::new(blank(rt.alloc())?, limit);
        let found = codes_of_four(&mut fused, u64::MAX);
        let fuse = fused.fuse();
        let counts = (fuse.mid, fuse.own, fuse.pick);
        let bytes = first_bytes(&mut fused)?;
        assert!(rt; found == codes && bytes == left, "at the limit {limit:?}");
        assert!(rt; counts == (failed, failed, Some(u64::MAX)));
    }
    Ok(())
}

/// The codes of a write before the fuse is armed, of one at which the device is stopped, and of one after the crash.
fn codes_of_a_stop<D: Sectors>(fused: &mut Fused<D>) -> [u8; 3]
    requires fuse { fuse_of fused.old ≡ fresh }
    requires size { LEN ≤ (⟦<Fused<D> as Sectors>⟧.seen fused.old).size }
    ensures { (⟦<Fused<D> as Sectors>⟧.seen fused.new).size ≡ (⟦<Fused<D> as Sectors>⟧.seen fused.old).size }
{
    let early = fused.write(0, &[1; 512]);
    fused.arm(Some(0));
    let stopped = fill(fused, 1, 2);
    fused.crash(0);
    let late = fill(fused, 3, 4);
    [code_of(early), code_of(stopped), code_of(late)]
}

#[test]
fn a_crash_ends_a_stop(rt: HostRuntime) -> Result<(), Fail> {
    let mut fused = Fused::plain(blank(rt.alloc())?);
    assert!(rt; codes_of_a_stop(&mut fused) == [0, 1, 0]);
    let fuse = fused.fuse();
    assert!(rt; (fuse.late_changes, fuse.early_calls) == (1, 1));
    let mut device = fused.into_inner();
    assert!(rt; first_bytes(&mut device)? == [0, 0, 0, 4]);
    Ok(())
}
