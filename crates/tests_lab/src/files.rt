// Calls on devices in files.
ghost use Rattle.std.specs.Prelude.{IfOk};
ghost use Rattle.redo_lab.specs.Files.{IsUncalled};

use crate::calls::{LINE, words_of};
use redo_io::{MemSink, MemSource};
use redo_lab::{LOG_LENGTH, STORE_LENGTH, lab_in_files};
use redo_memdisk::{Access, FileDisk, Unread};
use redo_threads::NoGate;
use std::alloc::AllocError;
use std::fs;
use std::sync::Wait;
use std::test::Fail;
use std::thread::Threads;

const LINE_RUN: &str = "open 8204\n\
    g 8204 8210 1 0 flushed\n\
    marks 8210 8210 8210 8192\n";

/// What is read where the line was run twice.
const LINE_READ: &str = "read 1 8722\np 3 8722 \
    00000000000000000000000000000000000000000000000000000000000000\
    00000000000000000000000000000000000000000000000000000000000000\
    07\n";

/// The device in the file of this name.
fn device<'a>(
    rt: &'a HostRuntime,
    name: &str,
) -> Result<FileDisk<&'a HostRuntime, Unread>, AllocError>
    ensures { IfOk result (λ device. IsUncalled device) }
{
    Ok(FileDisk::new(rt, name.to_string(rt.alloc())?, Access::Writing))
}

/// A call on the devices in these files: its status and what was printed.
fn call(
    rt: &HostRuntime,
    threads: &(impl Threads + Wait + Sync),
    text: &str,
    files: (&str, &str, &str),
) -> Result<(u8, MemSink), AllocError> {
    let alloc = rt.alloc();
    let log = device(rt, files.0)?;
    let store = device(rt, files.1)?;
    let arch = device(rt, files.2)?;
    let mut source = MemSource::new(LINE.as_bytes().to_vec(alloc)?);
    let mut sink = MemSink::new(alloc);
    let words = words_of(alloc, text)?;
    let ended = lab_in_files(
        threads,
        alloc,
        &words,
        &mut source,
        &mut sink,
        log,
        store,
        arch,
        &NoGate,
    );
    Ok((ended.status, sink))
}

/// Whether a call on the devices in these files ends with this status and prints this text.
fn answers(
    rt: &HostRuntime,
    threads: &(impl Threads + Wait + Sync),
    words: &str,
    files: (&str, &str, &str),
    status: u8,
    text: &str,
) -> Result<bool, Fail> {
    let (found, sink) = call(rt, threads, words, files)?;
    Ok(found == status && sink.bytes() == text.as_bytes())
}

/// How long a file is, and whether it begins so.
fn begins_with(rt: &HostRuntime, file: &str, front: &[u8]) -> Result<(usize, bool), Fail> {
    let bytes = fs::read(rt, file)?;
    Ok((bytes.len(), bytes.starts_with(front)))
}

#[test]
fn keeps_a_store_in_files(rt: HostRuntime) -> Result<(), Fail> {
    let files = ("redo.log", "redo.data", "redo.archive");
    assert!(rt; answers(&rt, &rt, "run --files", files, 0, LINE_RUN)?);
    // the log device begins with its format, 3
    let log = begins_with(&rt, files.0, &[0, 0, 0, 3, 0, 0, 0, 0])?;
    assert_eq!(rt; log, (LOG_LENGTH as usize, true));
    // no page was written, so the slots are as they were formatted
    let data = begins_with(&rt, files.1, &[0, 0, 0, 0])?;
    assert_eq!(rt; data, (STORE_LENGTH as usize, true));
    let text = "store 4096 8 1 2048 128\ncheckpoint 1 8192\nblock 8192 17 18 12 0\n\
        group 8204 8210 1\nrec b1 3 100 7\nend 8210\n";
    assert!(rt; answers(&rt, &rt, "dump --files", files, 0, text)?);
    fs::remove_file(&rt, files.0)?;
    fs::remove_file(&rt, files.1)?;
    Ok(())
}

#[test]
fn runs_again_in_files(rt: HostRuntime) -> Result<(), Fail> {
    let files = ("again.log", "again.data", "again.archive");
    assert!(rt; answers(&rt, &rt, "run --files", files, 0, LINE_RUN)?);
    let text = "open 8716\ng 8716 8722 1 0 flushed\nmarks 8722 8722 8722 8704\n";
    assert!(rt; answers(&rt, &rt, "run --files", files, 0, text)?);
    assert!(rt; answers(&rt, &rt, "recover --files", files, 0, LINE_READ)?);
    fs::remove_file(&rt, files.0)?;
    fs::remove_file(&rt, files.1)?;
    Ok(())
}

#[test]
fn tells_of_files_that_cannot_be_made(rt: HostRuntime) -> Result<(), Fail> {
    let text = "fault log device\n";
    assert!(rt;
        answers(
            &rt,
            &rt,
            "run --files",
            ("no/redo.log", "spare.data", "spare.archive"),
            6,
            text
        )?
    );
    let text = "fault data device\n";
    assert!(rt;
        answers(
            &rt,
            &rt,
            "run --files",
            ("spare.log", "no/redo.data", "spare.archive"),
            7,
            text
        )?
    );
    assert!(rt; fs::read(&rt, "spare.data").is_err());
    fs::remove_file(&rt, "spare.log")?;
    Ok(())
}

#[test]
fn restores_from_a_file(rt: HostRuntime) -> Result<(), Fail> {
    let files = ("alone.log", "alone.data", "alone.archive");
    let text = "fault archive none\n";
    assert!(rt; answers(&rt, &rt, "restore --to 8204 --files", files, 12, text)?);
    assert!(rt; fs::read(&rt, files.0).is_err());
    assert!(rt; fs::read(&rt, files.1).is_err());
    fs::remove_file(&rt, files.2)?;
    assert!(rt; answers(&rt, &rt, "run --files", files, 0, LINE_RUN)?);
    assert!(rt; fs::read(&rt, files.2).is_err());
    fs::remove_file(&rt, files.0)?;
    fs::remove_file(&rt, files.1)?;
    let text = "fault archive device\n";
    let files = ("alone.log", "alone.data", "no/redo.archive");
    assert!(rt; answers(&rt, &rt, "restore --to 8204 --files", files, 11, text)?);
    Ok(())
}
