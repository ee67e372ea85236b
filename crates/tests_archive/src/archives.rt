// Archives of one group and of two, as they are begun, appended to, damaged and restored.
use model_base::{BLOCK_SIZE, Shape};
use redo_apply::Pages;
use redo_archive::{ArchPart, BeginFault, RestoreFault, restore};
use redo_block::fill;
use redo_disk::{DevError, Sectors};
use redo_lsn::Limits;
use redo_memdisk::MemDisk;
use std::alloc::Global;
use std::process::Abort;
use std::test::Fail;

/// Bytes of the head, the marks and the pages of a default store.
const PAGES_END: u64 = 34_304;

/// How often `begin` calls the device of a default store: it writes zeros, eight pages, a mark and the head, and syncs thrice.
const BEGIN_CALLS: u64 = 14;

/// A group of six bytes, which writes the byte 7 at offset 100 of page 3.
const GROUP: [u8; 6] = [0x81, 1, 3, 0, 100, 7];

/// How many groups are restored, where the last one ends, and the byte at offset 100 and the lsn of page 3.
type Found = (u64, u64, u8, u64);

/// What is restored from the device for an lsn.
fn found<A: Sectors>(alloc: Global, device: &mut A, lsn: u64) -> Result<Found, RestoreFault> {
    let restored = restore(alloc, device, lsn)?;
    if restored.pages.len() < 4 {
        return Err(RestoreFault::Page(3));
    }
    let byte = match restored.pages.user_bytes(3).get(62) {
        Some(byte) => *byte,
        None => 0,
    };
    Ok((restored.n, restored.end, byte, restored.pages.lsn(3)))
}

/// An archive that is begun on the device of a run from 8204 on, to which the block of this group is appended, also where
/// the device fails.
fn of_one_group(
    rt: &impl Abort,
    alloc: Global,
    device: MemDisk,
    group: &[u8; 6],
) -> ArchPart<MemDisk> {
    let shape = Shape::default_shape();
    assert!(rt; PAGES_END + BLOCK_SIZE <= device.len());
    let Ok(pages) = Pages::blank(alloc, &shape) else {
        panic!(rt; "no memory");
    };
    let Ok(mut part) = ArchPart::begin(alloc, device, &shape, 8204, &pages) else {
        panic!(rt; "no archive is begun");
    };
    let mut block = [0; 512];
    fill(&mut block, 8192, group, 12, 0);
    let result = part.append(8210, &block);
    assert_eq!(rt; result.err(), part.failed());
    part
}

/// The archive of one group on a device with room for it.
fn on_whole_device(rt: &impl Abort, alloc: Global, group: &[u8; 6]) -> MemDisk {
    let Ok(device) = MemDisk::new(alloc, PAGES_END + BLOCK_SIZE) else {
        panic!(rt; "no memory");
    };
    let part = of_one_group(rt, alloc, device, group);
    assert_eq!(rt; part.failed(), None);
    assert_eq!(rt; part.mark(), 8210);
    part.into_dev()
}

/// The archive of that group and a second one, which writes 600 bytes on page 4 and ends in the second block, at 8833.
fn of_two_groups(rt: &impl Abort, alloc: Global) -> MemDisk {
    let shape = Shape::default_shape();
    let (Ok(device), Ok(pages)) = (
        MemDisk::new(alloc, PAGES_END + 2 * BLOCK_SIZE),
        Pages::blank(alloc, &shape),
    ) else {
        panic!(rt; "no memory");
    };
    assert!(rt; PAGES_END + 2 * BLOCK_SIZE <= device.len());
    let Ok(mut part) = ArchPart::begin(alloc, device, &shape, 8204, &pages) else {
        panic!(rt; "no archive is begun");
    };
    let mut stream = [5; 496];
    stream[..6].copy_from_slice(&GROUP);
    stream[6..13].copy_from_slice(&[0x9e, 1, 4, 0, 100, 2, 88]);
    let mut first = [0; 512];
    fill(&mut first, 8192, &stream, 12, 0);
    let mut second = [0; 512];
    fill(&mut second, 8704, &[5; 117], 0, 0);
    assert!(rt; part.append(8716, &first).is_ok());
    assert!(rt; part.append(8833, &second).is_ok());
    part.into_dev()
}

#[test]
fn groups_are_restored(rt: HostRuntime) {
    let alloc = rt.alloc();
    let none = Ok((0, 8204, 0, 0));
    let first = Ok((1, 8210, 7, 8210));
    let mut device = on_whole_device(&rt, alloc, &GROUP);
    for (lsn, wanted) in [
        (8210, first),
        (8209, none),
        (8204, none),
        (8203, Err(RestoreFault::To(8203))),
        (8211, Err(RestoreFault::To(8211))),
    ] {
        assert_eq!(rt; found(alloc, &mut device, lsn), wanted);
    }
    let mut device = of_two_groups(&rt, alloc);
    device.crash(0);
    for (lsn, wanted) in [
        (8833, Ok((2, 8833, 7, 8210))),
        (8832, first),
        (8210, first),
        (8209, none),
        (8834, Err(RestoreFault::To(8834))),
    ] {
        assert_eq!(rt; found(alloc, &mut device, lsn), wanted);
    }
}

#[test]
fn damaged_archives(rt: HostRuntime) {
    let alloc = rt.alloc();
    let mut device = on_whole_device(&rt, alloc, &GROUP);
    for (sector, at, lsn, wanted) in [
        (67, 100, 8204, RestoreFault::Block(8192)),
        (3 + 8 * 5, 0, 8204, RestoreFault::Page(5)),
        (3 + 8 * 2, 0, 8204, RestoreFault::Page(2)),
        (2, 0, 8210, RestoreFault::To(8210)),
        (1, 0, 8204, RestoreFault::Missing),
    ] {
        assert!(rt; sector < 68 && BLOCK_SIZE * 68 <= device.len() && at < 512);
        let mut bytes = [0; 512];
        assert!(rt; device.read(BLOCK_SIZE * sector, &mut bytes).is_ok());
        bytes[at] ^= 1;
        assert!(rt; device.write(BLOCK_SIZE * sector, &bytes).is_ok());
        assert_eq!(rt; found(alloc, &mut device, lsn), Err(wanted));
    }
}

#[test]
fn no_archive(rt: HostRuntime) {
    let alloc = rt.alloc();
    for sectors in [0, 2, 3, 68] {
        let Ok(mut device) = MemDisk::new(alloc, BLOCK_SIZE * sectors) else {
            panic!(rt; "no memory");
        };
        assert_eq!(rt; found(alloc, &mut device, 8204), Err(RestoreFault::Missing));
    }
    let mut other_space = on_whole_device(&rt, alloc, &[0x81, 2, 3, 0, 100, 7]);
    assert_eq!(rt;
        found(alloc, &mut other_space, 8204),
        Err(RestoreFault::Record(8204))
    );
}

#[test]
fn a_short_device(rt: HostRuntime) {
    let alloc = rt.alloc();
    let shape = Shape::default_shape();
    let (Ok(device), Ok(pages)) = (
        MemDisk::new(alloc, PAGES_END - BLOCK_SIZE),
        Pages::blank(alloc, &shape),
    ) else {
        panic!(rt; "no memory");
    };
    match ArchPart::begin(alloc, device, &shape, 8204, &pages) {
        Err((fault, _)) => assert_eq!(rt; fault, BeginFault::Small(PAGES_END)),
        Ok(_) => panic!(rt; "an archive is begun"),
    }
}

/// The same on a tearing device that fails at this call of it, counted from 0, after a crash with this pick.
fn stopped(rt: &impl Abort, alloc: Global, call: u64, pick: u64) -> MemDisk {
    let Ok(calls) = Vec::from_slice(alloc, &[call]) else {
        panic!(rt; "no memory");
    };
    let Ok(device) = MemDisk::tearing_and_failing(alloc, PAGES_END + BLOCK_SIZE, 100, calls) else {
        panic!(rt; "no memory");
    };
    let part = of_one_group(rt, alloc, device, &GROUP);
    assert_eq!(rt; part.failed(), Some(DevError::Failed));
    assert_eq!(rt; part.mark(), 8204);
    let mut device = part.into_dev();
    device.crash(pick);
    device
}

#[test]
fn stops_within_append(rt: HostRuntime) {
    let alloc = rt.alloc();
    for call in BEGIN_CALLS..BEGIN_CALLS + 4 {
        for (pick, last) in [(0, 4), (u64::MAX, 2)] {
            let mut device = stopped(&rt, alloc, call, pick);
            assert_eq!(rt; found(alloc, &mut device, 8204), Ok((0, 8204, 0, 0)));
            let wanted = if call < BEGIN_CALLS + last {
                Err(RestoreFault::To(8210))
            } else {
                Ok((1, 8210, 7, 8210))
            };
            assert_eq!(rt; found(alloc, &mut device, 8210), wanted);
        }
    }
}
