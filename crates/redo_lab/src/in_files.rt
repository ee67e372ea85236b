// The top call on three files.
ghost use Rattle.std.specs.Prelude.{◌≡◌, false, map};
ghost use Rattle.std.specs.String.{string_bytes};
ghost use Rattle.redo_memdisk.specs.File.{FileGives, file_seen};
ghost use Rattle.redo_lab.specs.Call.{calls_archive, command_of, IsWellCalled, unfused, AreOf, call_on, handed_of};
ghost use Rattle.redo_lab.specs.Cause.{IsCallOf};
ghost use Rattle.redo_lab.specs.Files.{IsAtRestWith, IsUncalled};

use crate::ended::Ended;
use crate::lab_call::lab;
use redo_io::{Sink, Source};
use redo_memdisk::{Contents, FileDisk};
use redo_threads::Gate;
use std::alloc::Global;
use std::sync::Wait;
use std::thread::Threads;

/// `lab` on three files that no call has reached, whatever they hold: `H`, `K` and `T` name their bytes, which no code reads.
/// Where each read of the call gives what these bytes and the call's own writes come to, the files tell to its end.
pub fn lab_in_files<
    'a,
    S: Source,
    O: Sink,
    H: Contents + Send,
    K: Contents + Send,
    T: Contents + Send,
    G: Gate,
    R: Threads + Wait + Sync,
>(
    rt: &R,
    alloc: Global,
    words: &[String],
    src: &mut S,
    out: &mut O,
    log: FileDisk<&'a HostRuntime, H>,
    store: FileDisk<&'a HostRuntime, K>,
    arch: FileDisk<&'a HostRuntime, T>,
    gate: &G,
) -> Ended<FileDisk<&'a HostRuntime, H>, FileDisk<&'a HostRuntime, K>, FileDisk<&'a HostRuntime, T>>
    requires log_uncalled { IsUncalled log }
    requires data_uncalled { IsUncalled store }
    requires archive_uncalled { IsUncalled arch }
    ensures call { IsCallOf (call_on (file_seen H.Contents.bytes) FileGives (file_seen K.Contents.bytes) FileGives
        (handed_of (map (λ word. string_bytes word) words.now) (unfused (file_seen T.Contents.bytes) arch.entry result.arch)
        (S.seen src.old) (S.seen src.new)) log.entry store.entry result.log result.store)
        (IsWellCalled FileGives arch.entry result.arch) (O.seen out.old) (O.seen out.new) result.status }
    ensures untouched { calls_archive (command_of (map (λ word. string_bytes word) words.now)) ≡ false → result.arch ≡ arch.entry }
    ensures entered { AreOf log.entry store.entry result.log result.store }
    ensures at_entry { IsAtRestWith H.Contents.bytes log.entry × IsAtRestWith K.Contents.bytes store.entry
        × IsAtRestWith T.Contents.bytes arch.entry }
{
    lab(rt, alloc, words, src, out, log, store, arch, gate)
}
