// An archive whose blocks `restore` reads in three pieces, with groups that run from one piece into the next: what is
// restored for each lsn at which a group ends, and for the one before it; and which cause is told where there are several.
ghost use Rattle.std.specs.Prelude.{IfOk};
ghost use Rattle.model_base.specs.{default_shape};
ghost use Rattle.redo_apply.specs.{ArePagesOf};

use crate::fold::{Fold, Strings, USER};
use model_base::{BLOCK_SIZE, Shape};
use redo_apply::Pages;
use redo_archive::{ArchPart, RestoreFault, restore};
use redo_block::fill;
use redo_disk::Sectors;
use redo_lsn::{Limits, NoMemory};
use redo_memdisk::MemDisk;
use std::alloc::{AllocError, Global};
use std::process::Abort;
use std::test::Fail;

/// Bytes of the head, the marks and the pages of a default store.
const PAGES_END: u64 = 34_304;
/// Data bytes of a block.
const DATA: usize = 496;
/// How many blocks are archived. `restore` reads 128 of them, then 128 more, and then the rest.
const BLOCKS: usize = 275;
/// How many of them are appended first.
const FIRST_BLOCKS: usize = 200;
/// Where the data of the block after these begins.
const FIRST_MARK: u64 = 110_604;
/// An lsn within the last group, of which 1,000 bytes stand below it.
const MARK: u64 = 148_762;
/// The lsn of all pages as the run is opened.
const OPENED: u64 = 8196;

/// How many records each group has, how many bytes each of them writes, and where the group ends. The first piece ends
/// 3 bytes after the eighth group, within the first record's head of the ninth, and the second one with the seventeenth.
const GROUPS: [(u8, u16, u64); 20] = [
    (19, 424, 16_650),
    (19, 424, 25_112),
    (19, 424, 33_558),
    (19, 424, 42_020),
    (19, 424, 50_466),
    (19, 424, 58_928),
    (19, 424, 67_374),
    (2, 3070, 73_721),
    (1, 489, 74_233),
    (19, 424, 82_695),
    (19, 424, 91_157),
    (19, 424, 99_603),
    (19, 424, 108_065),
    (19, 424, 116_511),
    (19, 424, 124_973),
    (19, 424, 133_419),
    (2, 2825, 139_276),
    (1, 1, 139_284),
    (19, 424, 147_730),
    (3, 993, 150_827),
];

/// The texts of all groups, joined. The one of this number is of a space that the store hasn't.
fn stream(alloc: Global, strange: Option<u8>) -> Result<Vec<u8>, AllocError> {
    let mut bytes = Vec::new(alloc);
    let mut number: u8 = 0;
    for (records, count, _) in &GROUPS {
        let group = Strings {
            number,
            records: *records,
            count: *count,
        };
        let space = if strange == Some(number) { 2 } else { 1 };
        bytes.extend_from_slice(group.text(alloc, space)?.as_slice())?;
        number = number.wrapping_add(1);
    }
    Ok(bytes)
}

/// The blocks from 8192 on that hold the bytes.
fn blocks(rt: &impl Abort, alloc: Global, bytes: &[u8]) -> Result<Vec<u8>, AllocError> {
    let mut blocks = Vec::new(alloc);
    assert!(rt; DATA * BLOCKS <= bytes.len());
    for index in 0..BLOCKS {
        let at = DATA * index;
        let mut block = [0; 512];
        fill(
            &mut block,
            8192 + BLOCK_SIZE * index as u64,
            &bytes[at..at + DATA],
            0,
            0,
        );
        blocks.extend_from_slice(&block)?;
    }
    Ok(blocks)
}

/// The pages as the run is opened.
fn opened(alloc: Global) -> Result<Pages, NoMemory>
    ensures { IfOk result (ArePagesOf default_shape) }
{
    let mut pages = Pages::blank(alloc, &Shape::default_shape())?;
    for page in 0..8u8 {
        pages.put(u32::from(page), OPENED, &[0xa0 + page; USER]);
    }
    Ok(pages)
}

/// An archive of the groups, of which the one of this number is strange. It is appended to twice, and then its device
/// crashes.
fn archive(rt: &(impl Abort + AllocGlobal), strange: Option<u8>) -> Result<MemDisk, Fail> {
    let alloc = rt.alloc();
    let length = PAGES_END + BLOCK_SIZE * BLOCKS as u64;
    let shape = Shape::default_shape();
    let device = MemDisk::new(alloc, length)?;
    assert!(rt; length <= device.len());
    let pages = opened(alloc)?;
    let Ok(mut part) = ArchPart::begin(alloc, device, &shape, 8204, &pages) else {
        panic!(rt; "no archive is begun");
    };
    let bytes = stream(alloc, strange)?;
    let blocks = blocks(rt, alloc, bytes.as_slice())?;
    assert!(rt; blocks.len() == 512 * BLOCKS);
    let (first, rest) = blocks.as_slice().split_at(512 * FIRST_BLOCKS);
    assert!(rt; part.append(FIRST_MARK, first).is_ok());
    assert!(rt; part.append(MARK, rest).is_ok());
    let mut device = part.into_dev();
    device.crash(0);
    Ok(device)
}

/// Sees that these pages are restored for this lsn, by so many groups of which the last one ends there.
fn see(
    rt: &(impl Abort + AllocGlobal),
    device: &mut MemDisk,
    lsn: u64,
    ending: (u64, u64),
    pages: &Fold,
) -> Result<(), Fail> {
    let restored = restore(rt.alloc(), device, lsn)?;
    assert_eq!(rt; (restored.n, restored.end), ending, "at {lsn}");
    assert!(rt; pages.is(&restored.pages), "at {lsn}");
    Ok(())
}

#[test]
fn groups_run_on_over_pieces(rt: HostRuntime) -> Result<(), Fail> {
    let mut device = archive(&rt, None)?;
    let mut pages = Fold::opened(rt.alloc(), OPENED)?;
    let mut number: u8 = 0;
    let mut last = 8204;
    for (records, count, end) in &GROUPS {
        let ending = (u64::from(number), last);
        let before = end.saturating_sub(1).min(MARK);
        see(&rt, &mut device, last, ending, &pages)?;
        see(&rt, &mut device, before, ending, &pages)?;
        let group = Strings {
            number,
            records: *records,
            count: *count,
        };
        pages.apply(group, *end);
        number = number.wrapping_add(1);
        last = *end;
    }
    Ok(())
}

/// Changes a byte of a sector of the device.
fn damage(rt: &impl Abort, device: &mut MemDisk, sector: u64) {
    assert!(rt; sector < 342 && BLOCK_SIZE * 342 <= device.len());
    let mut bytes = [0; 512];
    assert!(rt; device.read(BLOCK_SIZE * sector, &mut bytes).is_ok());
    bytes[100] ^= 1;
    assert!(rt; device.write(BLOCK_SIZE * sector, &bytes).is_ok());
}

#[test]
fn blocks_of_all_pieces_are_judged_before_a_record(rt: HostRuntime) -> Result<(), Fail> {
    let mut device = archive(&rt, Some(2))?;
    for (sector, wanted) in [
        (None, RestoreFault::Record(25_112)),
        (Some(67 + 274), RestoreFault::Block(8192 + 512 * 274)),
        (Some(67 + 128), RestoreFault::Block(8192 + 512 * 128)),
        (Some(67), RestoreFault::Block(8192)),
        (Some(66), RestoreFault::Page(7)),
    ] {
        if let Some(sector) = sector {
            damage(&rt, &mut device, sector);
        }
        match restore(rt.alloc(), &mut device, 8204) {
            Ok(_) => panic!(rt; "pages are restored"),
            Err(fault) => assert_eq!(rt; fault, wanted),
        }
    }
    Ok(())
}
