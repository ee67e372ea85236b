// Pages that opening writes, eight at a time.
use crate::fixtures::{LOG, SHAPE, open_to_end, see};
use crate::store::Store;
use model_base::Shape;
use redo_disk::Sectors;
use redo_memdisk::Fused;
use std::alloc::Global;
use std::test::Fail;

/// A store of ten pages that were never written, each of which a group of 6 bytes changes.
fn ten_groups(alloc: Global) -> Result<Store, Fail> {
    let mut store = Store::filled(alloc, 0, LOG, 4096 * 138)?;
    store.put_head(&Shape { pages: 10, ..SHAPE });
    store.put_ckpt(&SHAPE, 0, 8192);
    let mut bytes = [0; 60];
    for page in 0..10u8 {
        let at = 6 * page as usize;
        bytes[at..at + 6].copy_from_slice(&[0x81, 1, page, 0, 100, 7]);
    }
    store.put_block(&SHAPE, 1, 8192, &bytes, true);
    Ok(store)
}

/// What opening leaves of a store once both devices are crashed, and how many calls of the data device it made, where it ended
/// with no fault.
fn opened(alloc: Global, store: &Store) -> Result<(Store, Option<u64>), Fail> {
    let (log, data) = store.devices(alloc)?;
    let (mut log, mut data, fault) = open_to_end(alloc, log, Fused::new(data, None));
    let calls = match fault {
        None => Some(data.fuse().passed),
        Some(_) => None,
    };
    log.crash(0);
    data.crash(0);
    Ok((Store::of(alloc, &mut log, &mut data.into_inner())?, calls))
}

const PAGES: &str =
    "(0, 0, None, 8716) 10 [0 8210 7;1 8216 7;2 8222 7;3 8228 7;4 8234 7;5 8240 7;6 8246 7;7 8252 7;8 8258 7;9 8264 7;]";

/// Ten pages are written by a batch of eight and one of two. Then 110 slots are filled with zeros by seven writes, and the
/// pages are written to their new places and synced.
#[test]
fn ten_pages_are_two_batches(rt: HostRuntime) -> Result<(), Fail> {
    let (left, calls) = opened(rt.alloc(), &ten_groups(rt.alloc())?)?;
    assert!(rt; calls == Some((1 + 10) + 1 + (2 + 8 + 1) + (2 + 2 + 1) + (7 + 10 + 1)));
    see(&rt, &left, PAGES)
}
