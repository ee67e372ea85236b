// The top call.
ghost use Rattle.std.specs.Prelude.{◌≡◌, false, map};
ghost use Rattle.std.specs.String.{string_bytes};
ghost use Rattle.redo_lab.specs.Call.{calls_archive, command_of, IsWellCalled, unfused, AreOf, call_on, handed_of};
ghost use Rattle.redo_lab.specs.Cause.{IsCallOf};

use crate::asked::read_command;
use crate::commands::done;
use crate::ended::{Ended, end};
use crate::laws::laws;
use crate::outcome::unasked;
use redo_disk::Sectors;
use redo_io::{Sink, Source};
use redo_threads::Gate;
use std::alloc::Global;
use std::sync::Wait;
use std::thread::Threads;

/// Does what the words ask for on the two devices, with the script of the source where the command takes one, and prints
/// what came of it. A gate may hold the users of a run in threads.
pub fn lab<
    S: Source,
    O: Sink,
    L: Sectors + Send,
    D: Sectors + Send,
    A: Sectors + Send,
    G: Gate,
    R: Threads + Wait + Sync,
>(
    rt: &R,
    alloc: Global,
    words: &[String],
    src: &mut S,
    out: &mut O,
    log: L,
    store: D,
    arch: A,
    gate: &G,
) -> Ended<L, D, A>
    ensures call { IsCallOf (call_on L.seen L.gives D.seen D.gives (handed_of (map (λ word. string_bytes word) words.now) (unfused A.seen arch result.arch) (S.seen src.old) (S.seen src.new))
        log store result.log result.store) (IsWellCalled A.gives arch result.arch)
        (O.seen out.old) (O.seen out.new) result.status }
    ensures untouched { calls_archive (command_of (map (λ word. string_bytes word) words.now)) ≡ false → result.arch ≡ arch }
    ensures entered { AreOf log store result.log result.store }
{
    laws();
    let command = match read_command(alloc, words) {
        Ok(command) => command,
        Err(fault) => return end(out, unasked(fault, log, store), arch),
    };
    let (done, arch) = done(rt, alloc, command, src, gate, log, store, arch);
    end(out, done, arch)
}
