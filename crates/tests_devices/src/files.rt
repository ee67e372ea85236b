// Devices in files.
ghost use Rattle.std.specs.Prelude.{◌+◌, ◌*◌, ◌≤◌};

use crate::counted_files::{Ask, Calls, CountedFiles};
use crate::memdisk::{fill, first_byte};
use redo_disk::{DevError, Sectors};
use redo_memdisk::{Access, DeviceFiles, FileDisk, Unread};
use std::alloc::{AllocError, Global};
use std::fs;
use std::rc::Rc;
use std::test::Fail;

/// The device in the file at this path.
fn device_at<R: DeviceFiles + Drop>(
    files: R,
    alloc: Global,
    path: &str,
) -> Result<FileDisk<R, Unread>, AllocError> {
    Ok(FileDisk::new(files, String::from_str(alloc, path)?, Access::Writing))
}

/// Whether the last of the device's calls that failed did so for this reason.
fn failed_since<R: DeviceFiles>(
    alloc: Global,
    device: &FileDisk<R, Unread>,
    reason: &str,
) -> Result<bool, AllocError> {
    match device.last_error() {
        Some(error) => Ok(format!(in alloc; "{error}")?.as_str() == reason),
        None => Ok(false),
    }
}

/// Fills a sector, syncs and crashes.
fn fill_and_crash<D: Sectors>(device: &mut D, sector: u64) -> Result<(), DevError>
    requires { 512 * sector + 512 ≤ (D.seen device.old).size }
{
    fill(device, sector, 5)?;
    device.sync()?;
    device.crash(0);
    Ok(())
}

#[test]
fn a_file_keeps_what_was_written(rt: HostRuntime) -> Result<(), Fail> {
    let path = "file_disk_test.bin";
    let mut device = device_at(rt.clone()?, rt.alloc(), path)?;
    fill_and_crash(&mut device, 3)?;
    let mut again = device_at(rt.clone()?, rt.alloc(), path)?;
    // one device has the file at a time
    assert!(rt; first_byte(&mut again, 3) == Err(DevError::Failed));
    assert!(rt; failed_since(rt.alloc(), &again, "held by another process")?);
    let mut folder = device_at(rt.clone()?, rt.alloc(), ".")?;
    assert!(rt; first_byte(&mut folder, 3) == Err(DevError::Failed));
    assert!(rt; failed_since(rt.alloc(), &folder, "Is a directory (os error 21)")?);
    let mut nowhere = device_at(rt.clone()?, rt.alloc(), "no/folder")?;
    assert!(rt; first_byte(&mut nowhere, 3) == Err(DevError::Failed));
    drop(device);
    // a hole, what was written, and past the file's end
    for (sector, want) in [(0, 0), (3, 5), (9, 0)] {
        let found = first_byte(&mut again, sector)?;
        assert!(rt; found == want, "at the sector {sector}");
    }
    fs::remove_file(&rt, path)?;
    Ok(())
}

/// The device in a file whose calls are told: all of those with these numbers fail.
fn told_device(
    alloc: Global,
    is_there: bool,
    failing: (usize, usize),
) -> Result<(FileDisk<CountedFiles, Unread>, Rc<Calls>), AllocError> {
    let calls = Rc::new(alloc, Calls::new(is_there, failing))?;
    let files = CountedFiles {
        calls: calls.clone()?,
    };
    Ok((device_at(files, alloc, "told")?, calls))
}

// A file that may not be written is opened for reading, by a device that only reads: it shares its lock with others.
#[test]
fn a_file_that_may_not_be_written_is_read(rt: HostRuntime) -> Result<(), Fail> {
    let calls = Rc::new(rt.alloc(), Calls::new(true, (0, 1)))?;
    let files = CountedFiles {
        calls: calls.clone()?,
    };
    let path = String::from_str(rt.alloc(), "told")?;
    let mut device = FileDisk::<CountedFiles, Unread>::new(files, path, Access::Reading);
    assert!(rt; first_byte(&mut device, 0) == Ok(0));
    let opened = [Ask::Open, Ask::Open, Ask::Clone, Ask::LockShared];
    let called = [Ask::Sync, Ask::Seek, Ask::Read];
    let mut want = opened.to_vec(rt.alloc())?;
    want.extend_from_slice(&called)?;
    assert!(rt; calls.are(&want));
    Ok(())
}

/// Writes, reads, syncs and crashes.
fn call_each<D: Sectors>(device: &mut D) -> Result<(), DevError>
    requires { 512 ≤ (D.seen device.old).size }
{
    fill(device, 0, 1)?;
    first_byte(device, 0)?;
    device.sync()?;
    device.crash(0);
    Ok(())
}

// The first call syncs the file before its own write, and of a new file the folder too; nothing else syncs the folder. What
// is written past the file's end is synced with the file's length, and what comes after that without.
#[test]
fn a_file_is_synced_as_it_is_opened(rt: HostRuntime) -> Result<(), Fail> {
    let made = [Ask::OpenFolder, Ask::Make, Ask::SyncFolder];
    let opened = [Ask::Clone, Ask::Lock, Ask::Sync, Ask::Seek];
    let called = [Ask::Write, Ask::Read, Ask::Sync, Ask::SyncData];
    for (is_there, made) in [(true, &made[..0]), (false, &made[..])] {
        let (mut device, calls) = told_device(rt.alloc(), is_there, (0, 0))?;
        call_each(&mut device)?;
        let mut want = vec![in rt.alloc(); Ask::Open]?;
        for some in [made, &opened, &called] {
            want.extend_from_slice(some)?;
        }
        assert!(rt; calls.are(&want), "where the file is there: {is_there}");
    }
    Ok(())
}

/// Whether a write, a sync, a read and another sync succeed.
fn answers_of<D: Sectors>(device: &mut D) -> [bool; 4]
    requires { 512 ≤ (D.seen device.old).size }
{
    [
        fill(device, 0, 1).is_ok(),
        device.sync().is_ok(),
        first_byte(device, 0).is_ok(),
        device.sync().is_ok(),
    ]
}

#[test]
fn nothing_is_done_once_all_calls_fail(rt: HostRuntime) -> Result<(), Fail> {
    for failing in 0..13 {
        let (mut device, _) = told_device(rt.alloc(), false, (failing, usize::MAX))?;
        // a new file's first write makes nine calls, each sync one and the read one
        let want = [9, 10, 11, 12].map(|calls| calls <= failing);
        let found = answers_of(&mut device);
        assert!(rt; found == want, "from the call {failing} on");
    }
    Ok(())
}

// Where a call fails once, the next one tries again, but for syncs: after one that failed none is made.
#[test]
fn a_sync_that_failed_is_the_last(rt: HostRuntime) -> Result<(), Fail> {
    for failing in 0..13 {
        let (mut device, calls) = told_device(rt.alloc(), false, (failing, failing + 1))?;
        let (want, syncs) = match failing {
            3 => ([false; 4], 0),
            6 => ([false; 4], 1),
            // the file's length isn't told, and it is opened once more
            7 => ([false, true, true, true], 4),
            0..=8 => ([false, true, true, true], 3),
            9 => ([true, false, true, false], 2),
            10 => ([true, true, false, true], 3),
            11 => ([true, true, true, false], 3),
            _ => ([true; 4], 3),
        };
        let found = answers_of(&mut device);
        assert!(rt; found == want, "at the call {failing}");
        assert!(rt; calls.count_of_syncs() == syncs, "at the call {failing}");
        assert!(rt;
            calls.count_of(Ask::SyncFolder) == 1,
            "at the call {failing}"
        );
    }
    Ok(())
}

/// Whether a sync succeeds after a write and a crash.
fn syncs_after_crash<D: Sectors>(device: &mut D) -> Result<bool, DevError>
    requires { 512 ≤ (D.seen device.old).size }
{
    fill(device, 0, 1)?;
    device.crash(0);
    Ok(device.sync().is_ok())
}

// The call of number 6 is the crash's sync.
#[test]
fn a_crash_whose_sync_failed_ends_all_syncs(rt: HostRuntime) -> Result<(), Fail> {
    for (failing, want, syncs) in [(6, false, 2), (7, false, 3), (8, true, 3)] {
        let (mut device, calls) = told_device(rt.alloc(), true, (failing, failing + 1))?;
        let found = syncs_after_crash(&mut device)?;
        assert!(rt;
            found == want && calls.count_of_syncs() == syncs,
            "at the call {failing}"
        );
    }
    Ok(())
}
