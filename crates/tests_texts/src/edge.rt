// The edge for text: what the contracts leave open, that calls succeed and that the definitions mean what they say.
ghost use Rattle.std.specs.Prelude.{◌<◌, ◌≤◌};

use redo_io::{
    IoFault, Lines, MemSink, MemSource, PIECE, ReadFault, ReaderSource, Text, WriterSink, put_all,
    read_all,
};
use std::alloc::Global;
use std::io;
use std::io::{ErrorKind, Read};
use std::test::Fail;

const TEXT: &[u8] = b"1 f b1 3 100 7";

// What is read of the text in pieces of at most so many bytes: whether that is the text, or the fault.
fn read_in_pieces(alloc: Global, piece: usize, limit: usize) -> Result<bool, ReadFault>
    requires some { 0 < piece }
    requires few { limit ≤ 100 }
{
    let mut source = MemSource::short(TEXT.to_vec(alloc)?, piece);
    Ok(read_all(alloc, &mut source, limit)?.as_slice() == TEXT)
}

#[test]
fn reads_texts_whole(rt: HostRuntime) -> Result<(), Fail> {
    let alloc = rt.alloc();
    // the text comes in two reads, "1 f b1 3 1" and "00 7"
    assert!(rt; read_in_pieces(alloc, 10, 100)? && read_in_pieces(alloc, 1, 100)?);
    assert!(rt; read_in_pieces(alloc, PIECE, 14)?);
    assert!(rt; read_in_pieces(alloc, PIECE, 13) == Err(ReadFault::TooLong));
    assert!(rt; read_in_pieces(alloc, 5, 13) == Err(ReadFault::TooLong));
    let mut none = MemSource::new(Vec::new(alloc));
    assert!(rt; read_all(alloc, &mut none, 0)?.is_empty());
    Ok(())
}

// Reads a text of a source that fails at this read.
fn read_failing(alloc: Global, read: u64) -> Result<Text, ReadFault> {
    let mut source = MemSource::failing(b"7 a1".to_vec(alloc)?, [read].to_vec(alloc)?);
    read_all(alloc, &mut source, 100)
}

#[test]
fn passes_on_a_failed_read(rt: HostRuntime) -> Result<(), Fail> {
    let alloc = rt.alloc();
    // the second read is the one that finds the end
    for failing in [0, 1] {
        let fault = read_failing(alloc, failing).err();
        assert!(rt; fault == Some(ReadFault::Fault), "at read {failing}");
    }
    assert!(rt; read_failing(alloc, 2)?.as_slice() == b"7 a1".as_slice());
    Ok(())
}

#[test]
fn a_sink_that_fails_keeps_what_it_took(rt: HostRuntime) -> Result<(), Fail> {
    let mut sink = MemSink::failing(rt.alloc(), [1].to_vec(rt.alloc())?);
    let puts = [
        put_all(&mut sink, b"ok\n"),
        put_all(&mut sink, b"lost\n"),
        put_all(&mut sink, b"again\n"),
    ];
    assert!(rt; puts == [Ok(()), Err(IoFault::Failed), Ok(())]);
    assert!(rt; sink.bytes() == b"ok\nagain\n".as_slice());
    Ok(())
}

/// A reader that gives one byte at its first read, fails at its second, and is at its end after that.
#[derive(Drop)]
struct Halting {
    calls: u8,
}

impl Read for Halting {
    fn read(&mut self, out: &mut [u8]) -> io::Result<usize> {
        self.calls = self.calls.saturating_add(1);
        if self.calls == 2 {
            return Err(io::Error::from(ErrorKind::WouldBlock));
        }
        if self.calls > 2 || out.is_empty() {
            return Ok(0);
        }
        out[0] = b'7';
        Ok(1)
    }
}

#[test]
fn stands_over_readers(rt: HostRuntime) -> Result<(), Fail> {
    let mut source = ReaderSource::new(b"0 b0\n".as_slice());
    assert!(rt; read_all(rt.alloc(), &mut source, 5)?.as_slice() == b"0 b0\n".as_slice());

    // a read that fails isn't the end
    let halted = read_all(rt.alloc(), &mut ReaderSource::new(Halting { calls: 0 }), 5);
    assert!(rt; halted.err() == Some(ReadFault::Fault));
    Ok(())
}

#[test]
fn stands_over_writers(rt: HostRuntime) -> Result<(), Fail> {
    let mut held = Vec::new(rt.alloc());
    put_all(&mut WriterSink::new(&mut held), b"0 b0\n")?;
    assert!(rt; held.as_slice() == b"0 b0\n".as_slice());

    // a writer with room for four bytes takes no more
    let mut room = [0; 4];
    let full = put_all(&mut WriterSink::new(room.as_mut_slice()), b"0 b0\n");
    assert!(rt; full == Err(IoFault::Failed) && room == *b"0 b0");
    Ok(())
}

// Whether a text has these lines, and none after them.
fn has_lines(text: &str, wants: [Option<&str>; 4]) -> bool {
    let mut lines = Lines::new(text.as_bytes());
    for (before, want) in wants.iter().enumerate() {
        let want = want.map(|line| (before as u64 + 1, line.as_bytes()));
        if lines.next() != want {
            return false;
        }
    }
    true
}

#[test]
fn numbers_the_lines(rt: HostRuntime) {
    for (text, lines) in [
        ("a\r\n\nb\r", [Some("a"), Some(""), Some("b"), None]),
        ("a\n", [Some("a"), None, None, None]),
        ("a", [Some("a"), None, None, None]),
        ("\r", [Some(""), None, None, None]),
        ("\r\r", [Some("\r"), None, None, None]),
        ("\n", [Some(""), None, None, None]),
        ("", [None, None, None, None]),
    ] {
        assert!(rt; has_lines(text, lines), "of {text:?}");
    }
}
