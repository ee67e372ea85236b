// The log part: where it writes, and what recovery reads once a crash has torn what wasn't synced.
ghost use Rattle.std.specs.Prelude.{◌≡◌, ◌≤◌, ◌<◌, ◌+◌, ◌*◌, ◌%◌, length, None};
ghost use Rattle.model_base.specs.declared.limits.TheConstants.{BLOCK_SIZE, DEFAULT_LOG_BLOCKS, FIRST_DATA_LSN, LSN_LIMIT};
ghost use Rattle.model_log.specs.{block_of, lsn_of, sn_of};
ghost use Rattle.model_log.specs.declared.layout.TheConstants.{BLOCK_DATA, BLOCK_HEADER};

use crate::parts::{DATA, START, blank, early_shape};
use model_base::{BLOCK_SIZE, LSN_LIMIT, START_LSN, Shape};
use model_log::{BLOCK_DATA, BLOCK_HEADER, Format};
use redo_disk::{DevError, Sectors};
use redo_header::{fill_ckpt, fill_head, place_of};
use redo_logdev::LogPart;
use redo_lsn::{block_of, layout_of, lsn_of, sn_of};
use redo_memdisk::{Fused, MemDisk};
use redo_recover::recover;
use std::alloc::Global;
use std::process::Abort;
use std::test::Fail;

/// Bytes of the log device of a default store.
const LOG: u64 = 1_050_624;

/// How many blocks its ring has.
const RING: u64 = 2_046;

/// Three groups of six bytes, one after another, of which each writes a byte of page 3.
const GROUPS: [u8; 18] = [
    0x81, 1, 3, 0, 100, 7, 0x81, 1, 3, 0, 101, 8, 0x81, 1, 3, 0, 102, 9,
];

/// In each block of these tests a group starts at the first data byte.
const FIRSTS: [u32; 4] = [BLOCK_HEADER as u32; 4];

/// A group of 496 bytes, which fills a block: a string of 489 bytes at offset 38 of page 3.
fn full_group() -> [u8; 496] {
    let mut group = [5; 496];
    group[..7].copy_from_slice(&[0x9E, 1, 3, 0, 38, 1, 0xE9]);
    group
}

/// Three of them.
fn full_groups() -> [u8; 1488] {
    let mut groups = [0; 1488];
    for i in 0..3 {
        groups[496 * i..496 * i + 496].copy_from_slice(&full_group());
    }
    groups
}

/// Puts a block of a default store's log device there.
fn put<L: Sectors>(
    rt: &impl Abort,
    device: &mut L,
    place: u64,
    block: &[u8; 512],
) -> Result<(), DevError> {
    assert!(rt; place < RING && LOG <= device.len());
    device.write(place * BLOCK_SIZE, block)
}

/// The first bytes of one, up to where it names a checkpoint or a turn.
fn front_of<L: Sectors>(rt: &impl Abort, device: &mut L, place: u64) -> Result<[u8; 12], DevError> {
    assert!(rt; place < RING + 6 && LOG <= device.len());
    let mut bytes = [0; 512];
    device.read(BLOCK_SIZE * place, &mut bytes)?;
    let mut front = [0; 12];
    front.copy_from_slice(&bytes[..12]);
    Ok(front)
}

/// The front of a block with this number, which holds so many bytes and names this checkpoint or turn.
fn front(number: u16, length: u16, named: u8) -> [u8; 12] {
    let [number_high, number_low] = number.to_be_bytes();
    let [high, low] = length.to_be_bytes();
    [
        0,
        0,
        number_high,
        number_low,
        high,
        low,
        0,
        12,
        0,
        0,
        0,
        named,
    ]
}

/// Lays a log device of a default store on which a run starts at this lsn: the heads, and a checkpoint of this number at its
/// block.
fn lay<L: Sectors>(rt: &impl Abort, device: &mut L, number: u64, start: u64) -> Result<(), DevError>
    requires first { FIRST_DATA_LSN ≤ start }
    requires small { start < LSN_LIMIT }
{
    let shape = early_shape();
    let mut block = [0; 512];
    fill_head(&mut block, Format::Two, &shape);
    put(rt, device, 0, &block)?;
    put(rt, device, 2, &block)?;
    let layout = layout_of(Format::Two, &shape);
    fill_ckpt(&mut block, number, start - BLOCK_HEADER, &layout);
    put(rt, device, u64::from(place_of(number)), &block)?;
    device.sync()
}

/// How many groups recovery reads, and where the log ends.
fn read_back<L: Sectors>(rt: &impl Abort, alloc: Global, device: &mut L) -> (usize, u64) {
    let Ok(mut pages) = blank(alloc, DATA) else {
        panic!(rt; "no memory");
    };
    match recover(alloc, device, &mut pages) {
        Ok(found) => (found.groups.len(), found.end),
        Err(_) => panic!(rt; "no store is read"),
    }
}

/// Writes a run up to this mark, given its bytes from the block of the written mark on.
fn write_up_to<L: Sectors>(part: &mut LogPart<L>, mark: u64, bytes: &[u8]) -> Result<(), DevError>
    requires live { part.old.failed ≡ None }
    requires blocks { part.old.shape.log_blocks ≡ DEFAULT_LOG_BLOCKS }
    requires mark { mark ≡ lsn_of (sn_of (block_of part.old.marks.written) + length bytes.now) }
    requires few { length bytes.now ≤ 4 * BLOCK_DATA }
    requires later { part.old.marks.written ≤ mark }
    requires room { mark ≤ part.old.marks.ckpt + BLOCK_SIZE * RING }
    requires small { part.old.marks.written < LSN_LIMIT + BLOCK_SIZE }
    ensures blocks { part.new.shape.log_blocks ≡ DEFAULT_LOG_BLOCKS }
    ensures ckpt { part.new.marks.ckpt ≡ part.old.marks.ckpt }
{
    let count = bytes.len().div_ceil(BLOCK_DATA as usize);
    part.write_to(mark, bytes, &FIRSTS[..count])
}

/// The log part of a default store that made no checkpoint yet, and where its run started.
#[derive(Drop)]
struct Run<L: Sectors> {
    part: LogPart<L>,
    start: u64,
    ghost blocks: { part.shape.log_blocks ≡ DEFAULT_LOG_BLOCKS },
    ghost ckpt: { part.marks.ckpt + BLOCK_HEADER ≡ start },
    ghost small: { start < LSN_LIMIT },
}

impl<L: Sectors + Drop> Run<L> {
    /// The one that starts a run there, on a device that it lays.
    fn start(
        rt: &impl Abort,
        alloc: Global,
        mut device: L,
        number: u64,
        start: u64,
    ) -> Result<Run<L>, DevError>
        requires place { start % BLOCK_SIZE ≡ BLOCK_HEADER }
        requires first { FIRST_DATA_LSN ≤ start }
        requires small { start < LSN_LIMIT }
    {
        lay(rt, &mut device, number, start)?;
        assert!(rt; LOG <= device.len());
        match LogPart::new(alloc, device, &Shape::default_shape(), start, number) {
            Ok(part) => Ok(Run { part, start }),
            Err(_) => panic!(rt; "no memory"),
        }
    }

    /// Writes the run up to where these bytes end, which begin with the block of the written mark.
    fn write(&mut self, rt: &impl Abort, bytes: &[u8]) -> Result<(), DevError> {
        assert!(rt; self.part.failed().is_none());
        let written = self.part.written();
        let from = block_of(written);
        assert!(rt; bytes.len() <= 4 * BLOCK_DATA as usize && from < LSN_LIMIT);
        let mark = lsn_of(sn_of(from) + bytes.len() as u64);
        assert!(rt; written <= mark && mark < self.start + BLOCK_SIZE * (RING - 1));
        write_up_to(&mut self.part, mark, bytes)
    }

    /// Makes it stable.
    fn sync(&mut self, rt: &impl Abort) -> Result<(), DevError> {
        assert!(rt; self.part.failed().is_none());
        self.part.sync()
    }

    /// The first bytes of the run's block at this lsn, up to where it names a checkpoint or a turn.
    fn read(&mut self, rt: &impl Abort, lsn: u64) -> Result<[u8; 12], DevError> {
        assert!(rt; self.part.failed().is_none() && lsn % BLOCK_SIZE == 0 && START_LSN <= lsn);
        let mut block = [0; 512];
        self.part.read_block(lsn, &mut block)?;
        let mut front = [0; 12];
        front.copy_from_slice(&block[..12]);
        Ok(front)
    }

    /// The device.
    fn end(self) -> L {
        let Run { part, .. } = self;
        part.into_dev()
    }
}

/// A block that isn't full goes to the tail block that the last sync left free, and to the same one until the next sync.
#[test]
fn tail_blocks_take_turns_at_a_sync(rt: HostRuntime) -> Result<(), Fail> {
    let alloc = rt.alloc();
    let mut run = Run::start(&rt, alloc, blank(alloc, LOG)?, 1, START)?;
    run.write(&rt, &GROUPS[..6])?;
    run.sync(&rt)?;
    run.write(&rt, &GROUPS[..12])?;
    run.write(&rt, &GROUPS)?;
    let mut device = run.end();
    assert_eq!(rt; front_of(&rt, &mut device, 4)?, front(17, 18, 0));
    assert_eq!(rt; front_of(&rt, &mut device, 5)?, front(17, 30, 0));
    assert_eq!(rt; front_of(&rt, &mut device, 6)?, [0; 12]);
    assert_eq!(rt; read_back(&rt, alloc, &mut device), (3, 8_222));
    Ok(())
}

/// A full block goes to its place. Where the mark ends with it, nothing goes to a tail block.
#[test]
fn a_full_block_goes_to_its_place(rt: HostRuntime) -> Result<(), Fail> {
    let alloc = rt.alloc();
    let mut run = Run::start(&rt, alloc, blank(alloc, LOG)?, 1, START)?;
    run.write(&rt, &full_group())?;
    let mut device = run.end();
    assert_eq!(rt; front_of(&rt, &mut device, 4)?, [0; 12]);
    assert_eq!(rt; front_of(&rt, &mut device, 5)?, [0; 12]);
    assert_eq!(rt; front_of(&rt, &mut device, 6)?, front(17, 512, 1));
    assert_eq!(rt; read_back(&rt, alloc, &mut device), (1, 8_716));
    Ok(())
}

/// A full block is read from its place, and one that isn't full from the tail block that was written last.
#[test]
fn blocks_are_read(rt: HostRuntime) -> Result<(), Fail> {
    let alloc = rt.alloc();
    let mut run = Run::start(&rt, alloc, blank(alloc, LOG)?, 1, START)?;
    run.write(&rt, &full_group())?;
    run.write(&rt, &GROUPS[..6])?;
    run.sync(&rt)?;
    run.write(&rt, &GROUPS[..12])?;
    assert_eq!(rt; run.read(&rt, 8_192)?, front(17, 512, 1));
    assert_eq!(rt; run.read(&rt, 8_704)?, front(18, 24, 0));
    Ok(())
}

/// The run starts in the ring's last block: the next blocks stand at the ring's start, after the tail blocks.
#[test]
fn the_ring_goes_round(rt: HostRuntime) -> Result<(), Fail> {
    let alloc = rt.alloc();
    let start = START + BLOCK_SIZE * (RING - 1);
    let mut run = Run::start(&rt, alloc, blank(alloc, LOG)?, 1, start)?;
    run.write(&rt, &full_groups())?;
    let mut device = run.end();
    for (place, number) in [(5 + RING, 2_062), (6, 2_063), (7, 2_064)] {
        assert_eq!(rt; front_of(&rt, &mut device, place)?, front(number, 512, 1));
    }
    assert_eq!(rt;
        read_back(&rt, alloc, &mut device),
        (3, start + 3 * BLOCK_SIZE)
    );
    Ok(())
}

/// A block is synced with one group, and written again with two by a write that fails. Answers what is read after a crash.
fn rewritten(
    rt: &impl Abort,
    alloc: Global,
    device: MemDisk,
    pick: u64,
) -> Result<(usize, u64), DevError> {
    let mut run = Run::start(rt, alloc, Fused::new(device, Some(6)), 1, START)?;
    run.write(rt, &GROUPS[..6])?;
    run.sync(rt)?;
    assert!(rt; run.write(rt, &GROUPS[..12]).is_err());
    let mut device = run.end();
    device.crash(pick);
    Ok(read_back(rt, alloc, &mut device))
}

/// Whatever a crash leaves of a block that was written again, the first group is there: alone where the sector is torn, and with
/// the second one where it survives.
#[test]
fn a_torn_block_takes_nothing_away(rt: HostRuntime) -> Result<(), Fail> {
    for cut in [0, 4, 12, 18, 24, 100, 511] {
        for (pick, want) in [(0, (1, 8_210)), (1, (2, 8_216))] {
            let device = MemDisk::tearing(rt.alloc(), LOG, cut)?;
            let found = rewritten(&rt, rt.alloc(), device, pick)?;
            assert!(rt; found == want, "torn after {cut} at the pick {pick}");
        }
    }
    Ok(())
}

/// A log device on which three blocks were written by one call that failed, and the middle one was torn after 100 bytes.
fn torn_between(rt: &impl Abort, alloc: Global) -> Result<MemDisk, DevError> {
    let device = MemDisk::tearing(alloc, LOG, 100)?;
    let mut run = Run::start(rt, alloc, Fused::new(device, Some(4)), 1, START)?;
    assert!(rt; run.write(rt, &full_groups()).is_err());
    let mut device = run.end();
    device.crash(5);
    Ok(device.into_inner())
}

/// The log ends before the torn block, though the next one stands in its place.
#[test]
fn a_log_ends_at_a_torn_block(rt: HostRuntime) -> Result<(), Fail> {
    let alloc = rt.alloc();
    let mut device = torn_between(&rt, alloc)?;
    assert_eq!(rt; front_of(&rt, &mut device, 8)?, front(19, 512, 1));
    assert_eq!(rt; read_back(&rt, alloc, &mut device), (1, 8_716));
    Ok(())
}

/// A run that starts there, once opening has zeroed the blocks after it, doesn't come to the old ones.
#[test]
fn a_log_goes_on_after_a_torn_block(rt: HostRuntime) -> Result<(), Fail> {
    let alloc = rt.alloc();
    let mut device = torn_between(&rt, alloc)?;
    put(&rt, &mut device, 7, &[0; 512])?;
    put(&rt, &mut device, 8, &[0; 512])?;
    let mut run = Run::start(&rt, alloc, device, 2, 8_716)?;
    run.write(&rt, &full_group())?;
    run.sync(&rt)?;
    let mut device = run.end();
    device.crash(0);
    assert_eq!(rt; read_back(&rt, alloc, &mut device), (1, 9_228));
    Ok(())
}

/// The numbers of blocks go round after 2^39 bytes of lsns. A tail block names how often they did, so it isn't taken at the same
/// number one turn before.
#[test]
fn a_tail_block_names_its_turn(rt: HostRuntime) -> Result<(), Fail> {
    let alloc = rt.alloc();
    let start = START + (1 << 39);
    let mut run = Run::start(&rt, alloc, blank(alloc, LOG)?, 1, start)?;
    run.write(&rt, &GROUPS[..6])?;
    let mut device = run.end();
    assert_eq!(rt; front_of(&rt, &mut device, 4)?, front(17, 18, 1));
    assert_eq!(rt; read_back(&rt, alloc, &mut device), (1, start + 6));
    lay(&rt, &mut device, 2, START)?;
    assert_eq!(rt; read_back(&rt, alloc, &mut device), (0, START));
    Ok(())
}
