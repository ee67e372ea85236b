// Calls, and what they come to.
use crate::devices::{Devices, MemDevices, blank};
use redo_disk::Sectors;
use redo_io::{MemSink, MemSource};
use redo_lab::lab;
use redo_threads::{Gate, NoGate};
use std::alloc::{AllocError, Global};
use std::sync::Wait;
use std::test::Fail;
use std::thread::Threads;

/// The script of most calls.
pub(crate) const LINE: &str = "1 f b1 3 100 7";

/// A call, and what it came to once it was made.
#[derive(Drop)]
pub(crate) struct Call {
    words: Vec<String>,
    source: MemSource,
    sink: MemSink,
    status: u8,
    /// How many calls of the log device it made before its opening, and from that on.
    early: u64,
    passed: u64,
}

/// The words of a text.
pub(crate) fn words_of(alloc: Global, text: &str) -> Result<Vec<String>, AllocError> {
    let mut words = Vec::new(alloc);
    for word in text.split_whitespace() {
        words.push(word.to_string(alloc)?)?;
    }
    Ok(words)
}

/// A source that gives this text: in pieces of one byte, not at all, or as a whole.
fn source_of(alloc: Global, way: &str, text: &str) -> Result<MemSource, AllocError> {
    let bytes = text.as_bytes().to_vec(alloc)?;
    match way {
        "in pieces" => Ok(MemSource::short(bytes, 1)),
        "source fails" => Ok(MemSource::failing(bytes, vec![in alloc; 0]?)),
        _ => Ok(MemSource::new(bytes)),
    }
}

/// A sink that takes pieces of one byte, none, or all.
fn sink_of(alloc: Global, way: &str) -> Result<MemSink, AllocError> {
    match way {
        "in pieces" => Ok(MemSink::short(alloc, 1)),
        "sink fails" => Ok(MemSink::failing(alloc, vec![in alloc; 0]?)),
        _ => Ok(MemSink::new(alloc)),
    }
}

impl Call {
    /// A call with these words and this script, which goes `in pieces`, or where the `source fails` or the `sink fails`.
    pub(crate) fn by(
        alloc: Global,
        way: &str,
        words: &str,
        script: &str,
    ) -> Result<Call, AllocError> {
        let words = words_of(alloc, words)?;
        let source = source_of(alloc, way, script)?;
        let sink = sink_of(alloc, way)?;
        Ok(Call {
            words,
            source,
            sink,
            status: 0,
            early: 0,
            passed: 0,
        })
    }

    /// Makes the call on these devices, whose users this gate may hold; the devices after it.
    pub(crate) fn make<L: Sectors + Send + Drop, D: Sectors + Send + Drop, G: Gate>(
        &mut self,
        rt: &(impl AllocGlobal + Threads + Wait + Sync),
        devices: Devices<L, D>,
        gate: &G,
    ) -> Result<Devices<L, D>, AllocError> {
        let Devices { log, store, arch } = devices;
        let words = self.words.as_slice();
        let (source, sink) = (&mut self.source, &mut self.sink);
        let ended = lab(rt, rt.alloc(), words, source, sink, log, store, arch, gate);
        let fuse = ended.log.fuse();
        self.status = ended.status;
        self.early = fuse.early_calls;
        self.passed = fuse.passed;
        Ok(Devices {
            log: ended.log.into_inner(),
            store: ended.store.into_inner(),
            arch: ended.arch,
        })
    }

    /// What the call came to: its status in a line of its own, and what was printed.
    pub(crate) fn told(&self, alloc: Global) -> Result<String, Fail> {
        let printed = str::from_utf8(self.sink.bytes())?;
        Ok(format!(in alloc; "{}\n{printed}", self.status)?)
    }
}

/// What a call on these devices comes to, and the devices after it.
pub(crate) fn call_on(
    rt: &(impl AllocGlobal + Threads + Wait + Sync),
    words: &str,
    script: &str,
    devices: MemDevices,
) -> Result<(String, MemDevices), Fail> {
    let mut call = Call::by(rt.alloc(), "", words, script)?;
    let left = call.make(rt, devices, &NoGate)?;
    Ok((call.told(rt.alloc())?, left))
}

/// How many calls of the log device a call on devices that hold zeros makes before its opening, and from that on.
pub(crate) fn log_calls(
    rt: &(impl AllocGlobal + Threads + Wait + Sync),
    words: &str,
) -> Result<(u64, u64), AllocError> {
    let devices = blank(rt.alloc())?;
    let mut call = Call::by(rt.alloc(), "", words, "")?;
    let _left = call.make(rt, devices, &NoGate)?;
    Ok((call.early, call.passed))
}

/// How many it makes in its opening.
pub(crate) fn calls_of_opening(
    rt: &(impl AllocGlobal + Threads + Wait + Sync),
) -> Result<u64, AllocError> {
    let (_, passed) = log_calls(rt, "run")?;
    Ok(passed)
}
