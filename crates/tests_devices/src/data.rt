// A data part over devices that fail and crash as they are told.
ghost use Rattle.std.specs.Prelude.{◌≡◌, ◌≤◌, ◌+◌, ◌<◌, ◌*◌, length, None, IfOk, OnOk};
ghost use Rattle.model_base.specs.{default_shape};
ghost use Rattle.model_base.specs.declared.limits.TheConstants.{EARLY_SLOTS};

use crate::parts::{DATA, PAGE, USER, blank, data_part_on, early_shape};
use redo_disk::{DevError, Sectors};
use redo_memdisk::MemDisk;
use redo_page::{PageState, best_copy, check, kept_page, seal};
use redo_store::DataPart;
use std::alloc::Global;
use std::process::Abort;
use std::test::Fail;

/// All bytes of a device.
fn read_all<D: Sectors>(alloc: Global, dev: &mut D) -> Result<Vec<u8>, Fail>
    requires { DATA ≤ (D.seen dev.old).size }
    ensures all { IfOk result (λ image. length image.items ≡ DATA) }
    ensures size { (D.seen dev.new).size ≡ (D.seen dev.old).size }
{
    let mut image = vec![in alloc; 0u8; DATA as usize]?;
    dev.read(0, image.as_mut_slice())?;
    Ok(image)
}

/// A part on a device in memory that fails its call of number 2.
fn failing(rt: &impl Abort, alloc: Global) -> Result<DataPart<MemDisk>, Fail>
    ensures live { IfOk result (λ part. part.failed ≡ None) }
    ensures shape { IfOk result (λ part. part.shape ≡ record default_shape { slots = EARLY_SLOTS }) }
    ensures size { IfOk result (λ part. (⟦<MemDisk as Sectors>⟧.seen part.dev).size ≡ DATA) }
{
    let dev = MemDisk::failing(alloc, DATA, vec![in alloc; 2]?)?;
    Ok(data_part_on(rt, alloc, dev))
}

/// What the write of page 3 leaves that fails at its place, of whose eight sectors a crash keeps four.
fn torn(rt: &impl Abort, alloc: Global) -> Result<MemDisk, Fail>
    ensures { IfOk result (λ dev. (⟦<MemDisk as Sectors>⟧.seen dev).size ≡ DATA) }
{
    let mut part = failing(rt, alloc)?;
    let answer = part.write_batch(&[(3, 9_000)], &[7; USER]);
    assert_eq!(rt; answer, Err(DevError::Failed));
    assert_eq!(rt; part.failed(), Some(DevError::Failed));
    let mut dev = part.into_dev();
    dev.crash(15);
    Ok(dev)
}

#[test]
fn a_torn_place_has_a_copy(rt: HostRuntime) -> Result<(), Fail> {
    let alloc = rt.alloc();
    let shape = early_shape();
    let image = read_all(alloc, &mut torn(&rt, alloc)?)?;
    assert!(rt; check(&image[11 * PAGE..12 * PAGE]) == PageState::Broken);
    assert!(rt; image[11 * PAGE + 2047] == 7 && image[11 * PAGE + 2048] == 0);
    assert!(rt; best_copy(&image, &shape, 3) == Some((0, 9_000)));
    let kept = kept_page(alloc, &image, &shape, 3)?.ok_or("lost")?;
    assert!(rt; kept.lsn == 9_000 && kept.user.as_slice().first() == Some(&7));
    Ok(())
}

/// The place of a page.
fn place_of<D: Sectors>(part: &mut DataPart<D>, page: u32) -> Result<[u8; PAGE], DevError>
    requires live { part.old.failed ≡ None }
    requires shape { part.old.shape ≡ record default_shape { slots = EARLY_SLOTS } }
    requires page { page < default_shape.pages }
    ensures live { OnOk result (part.new.failed ≡ None) }
    ensures shape { part.new.shape ≡ record default_shape { slots = EARLY_SLOTS } }
{
    let mut place = [0; PAGE];
    part.read_page(page, &mut place)?;
    Ok(place)
}

/// Puts a copy of page 5 into a slot.
fn put_copy<D: Sectors>(dev: &mut D, slot: u32, lsn: u64) -> Result<(), DevError>
    requires { PAGE * slot + PAGE ≤ (D.seen dev.old).size }
    ensures { (D.seen dev.new).size ≡ (D.seen dev.old).size }
{
    let mut page = [1; PAGE];
    seal(&mut page, 5, 1, lsn);
    dev.write(PAGE as u64 * u64::from(slot), &page)
}

/// Puts sound copies of page 5 into two slots, and breaks its place.
fn tear<D: Sectors>(dev: &mut D) -> Result<(), DevError>
    requires { DATA ≤ (D.seen dev.old).size }
    ensures { (D.seen dev.new).size ≡ (D.seen dev.old).size }
{
    put_copy(dev, 1, 9_000)?;
    put_copy(dev, 6, 8_500)?;
    dev.write(13 * PAGE as u64, &[9; 512])?;
    dev.sync()
}

/// A device on which copies of page 5 stand in two slots, and its place is broken.
fn torn_five(alloc: Global) -> Result<MemDisk, Fail>
    ensures { IfOk result (λ dev. (⟦<MemDisk as Sectors>⟧.seen dev).size ≡ DATA) }
{
    let mut dev = blank(alloc, DATA)?;
    tear(&mut dev)?;
    Ok(dev)
}

/// The copy of page 4 that counts, and the one after a batch that has the page.
fn copies_of_four<D: Sectors>(part: &mut DataPart<D>) -> Result<[Option<(u32, u64)>; 2], DevError>
    requires live { part.old.failed ≡ None }
    requires shape { part.old.shape ≡ record default_shape { slots = EARLY_SLOTS } }
{
    let before = part.best_copy(4)?;
    part.put_batch(&[(4, 9_200)], &[3; USER])?;
    Ok([before, part.best_copy(4)?])
}

#[test]
fn the_newer_copy_counts(rt: HostRuntime) -> Result<(), Fail> {
    let mut part = data_part_on(&rt, rt.alloc(), torn_five(rt.alloc())?);
    assert!(rt; check(&place_of(&mut part, 5)?) == PageState::Broken);
    assert!(rt; part.best_copy(5)? == Some((1, 9_000)));
    assert!(rt; copies_of_four(&mut part)? == [None, Some((0, 9_200))]);
    Ok(())
}

/// Repairs a page whose place is broken and of which a copy passes.
fn repair_broken<D: Sectors>(part: &mut DataPart<D>, page: u32) -> Result<(), Fail>
    requires live { part.old.failed ≡ None }
    requires page { page < part.old.shape.pages }
    requires page_size { part.old.shape.page_size ≡ PAGE }
    ensures live { IfOk result (λ _. part.new.failed ≡ None) }
    ensures shape { part.new.shape ≡ part.old.shape }
    ensures size { (D.seen part.new.dev).size ≡ (D.seen part.old.dev).size }
{
    let mut place = [0; PAGE];
    part.read_page(page, &mut place)?;
    match (check(&place), part.best_copy(page)?) {
        (PageState::Broken, Some(_)) => Ok(part.repair(page)?),
        _ => Err("the page needs no repair")?,
    }
}

// The copy that counts is put into the broken place of page 5, and stays there.
#[test]
fn a_repaired_place_survives_a_crash(rt: HostRuntime) -> Result<(), Fail> {
    let mut part = data_part_on(&rt, rt.alloc(), torn_five(rt.alloc())?);
    repair_broken(&mut part, 5)?;
    let mut dev = part.into_dev();
    dev.crash(0);
    let mut part = data_part_on(&rt, rt.alloc(), dev);
    let place = place_of(&mut part, 5)?;
    assert!(rt; check(&place) == PageState::Sound(5, 1, 9_000) && place[38] == 1);
    Ok(())
}
