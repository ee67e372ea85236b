// Stores that are recovered by several workers, each of which has some of the pages.
ghost use Rattle.std.specs.Prelude.{◌≤◌};

use crate::fixtures::{told_of, torn_pages, torn_store};
use crate::store::Store;
use model_base::{EARLY_SLOTS, Shape};
use redo_header::Format;
use redo_memdisk::MemDisk;
use redo_recover::{RecFault, Recovered, recover_with};
use std::alloc::{AllocError, Global};
use std::test::Fail;
use std::thread::Threads;

/// A group that puts the byte 7 at offset 100 of page 3, and 8 at that of page 4.
const TWO_PAGES: [u8; 13] = [1, 1, 3, 0, 100, 7, 1, 1, 4, 0, 100, 8, 0x1F];

/// A store of the default sizes with blank pages, whose log has this group alone.
fn two_pages(alloc: Global) -> Result<Store, AllocError> {
    let shape = Shape {
        slots: EARLY_SLOTS,
        ..Shape::default_shape()
    };
    let mut store = Store::filled(alloc, 0, 4096, 65_536)?;
    store.log_length = 1_050_624;
    store.put_head(&shape);
    store.put_ckpt(&shape, 0, 8192);
    store.put_block(&shape, 0, 8192, &TWO_PAGES, true);
    Ok(store)
}

/// What so many workers read off two devices.
fn read_by(
    rt: &(impl AllocGlobal + Threads + Sync),
    log: &mut MemDisk,
    data: &mut MemDisk,
    workers: u32,
) -> Result<Recovered, RecFault>
    requires { (1 ≤ workers) × (workers ≤ 16) }
{
    recover_with(rt, rt.alloc(), log, data, workers)
}

/// What is told of a store that so many workers read.
fn told_by(
    rt: &(impl AllocGlobal + Threads + Sync),
    store: &Store,
    workers: u32,
) -> Result<String, Fail>
    requires { (1 ≤ workers) × (workers ≤ 16) }
{
    let (mut log, mut data) = store.devices(rt.alloc())?;
    let read = read_by(rt, &mut log, &mut data, workers)?;
    Ok(told_of(rt.alloc(), &read)?)
}

/// With eight workers each of the eight pages has its own.
#[test]
fn one_group_is_applied_by_two_workers(rt: HostRuntime) -> Result<(), Fail> {
    let store = two_pages(rt.alloc())?;
    for workers in [1, 8] {
        let told = told_by(&rt, &store, workers)?;
        assert!(rt;
            told.ends_with("8 [3 8217 7;4 8217 8;]"),
            "{workers} {told}"
        );
    }
    Ok(())
}

/// Three pages of different lsns, by two workers and by more than there are pages.
#[test]
fn a_torn_store_is_read_by_several_workers(rt: HostRuntime) -> Result<(), Fail> {
    for (format, workers) in [
        (Format::One, 2),
        (Format::One, 16),
        (Format::Two, 2),
        (Format::Two, 16),
    ] {
        let told = told_by(&rt, &torn_store(rt.alloc(), format)?, workers)?;
        assert!(rt; told.ends_with(torn_pages(format)), "{workers} {told}");
    }
    Ok(())
}
