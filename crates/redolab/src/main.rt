// The program: the top call on standard input and output, and on its devices in memory or in files.
#![tactic(auto)]

ghost use Rattle.std.specs.Prelude.{◌≡◌, [], map, true, false, IfErr, IfOk};
ghost use Rattle.std.specs.String.{string_bytes};
ghost use Rattle.model_script.specs.{asked_of};
ghost use Rattle.model_report.specs.declared.fault.Fault.TheVariants.{Memory};
ghost use Rattle.redo_memdisk.specs.File.{file_access};
ghost use Rattle.redo_memdisk.specs.Memory.{new_memory};
ghost use Rattle.redo_memdisk.specs.declared.file.Access.TheVariants.{Reading};
ghost use Rattle.redo_lab.specs.Call.{archives, leaves_devices};
ghost use Rattle.redo_lab.specs.Files.{IsUncalled};
ghost use Rattle.redo_lab.specs.declared.shapes.TheConstants.{ARCHIVE_LENGTH, LOG_LENGTH, STORE_LENGTH};

use model_report::Fault;
use redo_command::{Asked, Command, WordsFault, read_words};
use redo_io::{ReaderSource, WriterSink};
use redo_lab::{ARCHIVE_LENGTH, LOG_LENGTH, STORE_LENGTH, lab, lab_in_files, print_fault};
use redo_memdisk::{Access, Contents, FileDisk, MemDisk, Unread};
use redo_threads::NoGate;
use std::alloc::{AllocError, Global};
use std::io::ErrorKind;
use std::process::ExitCode;
use std::sync::Wait;
use std::thread::Threads;
use std::{env, io};

/// The file of the log device, where the devices are files.
const LOG_FILE: &str = "redo.log";
/// The file of the data device.
const DATA_FILE: &str = "redo.data";
/// The file of the archive's device.
const ARCHIVE_FILE: &str = "redo.archive";

/// The words after the program's name. A word that isn't UTF-8 is in no command.
fn words(rt: &HostRuntime) -> Result<Vec<String>, Fault> {
    match env::args(rt) {
        Ok(args) => args.skip(1).collect(rt.alloc()).map_err(|_| Fault::Memory),
        Err(error) if error.kind() == ErrorKind::OutOfMemory => Err(Fault::Memory),
        Err(_) => Err(Fault::Words),
    }
}

/// What the words ask for. Words that are no command ask for nothing.
fn asked(alloc: Global, words: &[String]) -> Result<Option<Asked>, Fault>
    ensures asked { IfOk result (λ asked. asked ≡ asked_of (map (λ word. string_bytes word) words.now)) }
    ensures memory { IfErr result (λ fault. fault ≡ Memory) }
{
    match read_words(alloc, words) {
        Ok(asked) => Ok(Some(asked)),
        Err(WordsFault::NotCommand) => Ok(None),
        Err(WordsFault::NoMemory) => Err(Fault::Memory),
    }
}

/// What a command opens the files of the store for.
fn access_of(command: Command) -> Access
    ensures { result ≡ Reading → leaves_devices command ≡ true }
{
    match command {
        Command::Recover { .. } | Command::Dump { .. } => Access::Reading,
        _ => Access::Writing,
    }
}

/// What a command opens the archive's file for, if it calls that device: only a run that is archived writes there.
fn archive_access_of(command: Command) -> Access
    ensures { result ≡ Reading → archives command ≡ false }
{
    match command {
        Command::Run { .. } => Access::Writing,
        _ => Access::Reading,
    }
}

/// A log device, a data device and an archive's device in memory.
fn in_memory(alloc: Global) -> Result<(MemDisk, MemDisk, MemDisk), AllocError>
    ensures log { IfOk result (λ devices. devices.0 ≡ new_memory LOG_LENGTH 0 []) }
    ensures store { IfOk result (λ devices. devices.1 ≡ new_memory STORE_LENGTH 0 []) }
    ensures arch { IfOk result (λ devices. devices.2 ≡ new_memory ARCHIVE_LENGTH 0 []) }
{
    Ok((
        MemDisk::new(alloc, LOG_LENGTH)?,
        MemDisk::new(alloc, STORE_LENGTH)?,
        MemDisk::new(alloc, ARCHIVE_LENGTH)?,
    ))
}

/// The device in the file of this name in the current folder. Its first call opens or makes the file.
fn in_file<'a, S: Contents>(
    rt: &'a HostRuntime,
    name: &str,
    access: Access,
) -> Result<FileDisk<&'a HostRuntime, S>, AllocError>
    ensures { IfOk result (λ device. IsUncalled device × (file_access device ≡ access)) }
{
    Ok(FileDisk::new(rt, name.to_string(rt.alloc())?, access))
}

/// Runs the command on devices in memory, and says its status.
fn run_in_memory(
    rt: &HostRuntime,
    threads: &(impl Threads + Wait + Sync),
    words: &[String],
) -> Result<u8, AllocError> {
    let (log, store, arch) = in_memory(rt.alloc())?;
    let mut source = ReaderSource::new(rt.stdin());
    let mut sink = WriterSink::new(io::writer(rt));
    let ended = lab(
        threads,
        rt.alloc(),
        words,
        &mut source,
        &mut sink,
        log,
        store,
        arch,
        &NoGate,
    );
    Ok(ended.status)
}

/// Says on standard error why a file failed, if it did, as far as standard error takes it.
fn print_error(rt: &HostRuntime, name: &str, error: Option<io::Error>) {
    if let Some(error) = error {
        let _ = eprintln!(rt; "{name}: {error}");
    }
}

/// Runs the command on three files, whatever they hold, and says its status. A file whose device isn't called isn't opened.
fn run_in_files<H: Contents + Send, K: Contents + Send, T: Contents + Send>(
    rt: &HostRuntime,
    threads: &(impl Threads + Wait + Sync),
    words: &[String],
    command: Command,
) -> Result<u8, AllocError> {
    let log = in_file::<H>(rt, LOG_FILE, access_of(command))?;
    let store = in_file::<K>(rt, DATA_FILE, access_of(command))?;
    let arch = in_file::<T>(rt, ARCHIVE_FILE, archive_access_of(command))?;
    let mut source = ReaderSource::new(rt.stdin());
    let mut sink = WriterSink::new(io::writer(rt));
    let ended = lab_in_files(
        threads,
        rt.alloc(),
        words,
        &mut source,
        &mut sink,
        log,
        store,
        arch,
        &NoGate,
    );
    print_error(rt, LOG_FILE, ended.log.into_inner().last_error());
    print_error(rt, DATA_FILE, ended.store.into_inner().last_error());
    print_error(rt, ARCHIVE_FILE, ended.arch.last_error());
    Ok(ended.status)
}

/// Runs the command, and says its status.
fn run(rt: &HostRuntime, threads: &(impl Threads + Wait + Sync)) -> Result<u8, Fault> {
    let words = words(rt)?;
    let ended = match asked(rt.alloc(), &words)? {
        Some(asked) if asked.files => {
            run_in_files::<Unread, Unread, Unread>(rt, threads, &words, asked.command)
        }
        _ => run_in_memory(rt, threads, &words),
    };
    ended.map_err(|_| Fault::Memory)
}

fn main(rt: HostRuntime) -> ExitCode {
    let status = match run(&rt, &rt) {
        Ok(status) => status,
        Err(fault) => print_fault(&mut WriterSink::new(io::writer(&rt)), fault),
    };
    ExitCode::from(status)
}
