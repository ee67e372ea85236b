// Writes in a row, each so that it stays.
ghost use Rattle.std.specs.Prelude.{◌≡◌, ◌≤◌, ◌++◌, length, IfSome, None, OnOk, OnErr};
ghost use Rattle.model_archive.specs.{AreTexts, base_text, begun_bytes, pages_end};
ghost use Rattle.model_base.specs.{IsWithinLimits};
ghost use Rattle.model_device.specs.{settled};
ghost use Rattle.redo_apply.specs.{ArePagesOf};
ghost use Rattle.redo_archive.specs.Part.{after_two, begin_requests, FailsTwo};
ghost use Rattle.redo_disk.specs.{error_of, HasCause, HasSize, IsRange, MakesCalls, OnTold, put_requests, Serve, write_at};

use crate::head::fill_archive_head;
use crate::marks::fill_mark;
use crate::pages::write_base;
use model_archive::ARCHIVE_HEADER;
use model_base::{BLOCK_SIZE, Shape};
use redo_apply::Pages;
use redo_disk::{DevError, Sectors, write_and_sync};
use std::alloc::Global;

/// Bytes of the head and the marks.
const HEADER: usize = ARCHIVE_HEADER as usize;

/// Writes bytes at one offset, and then others at another, each so that they survive every crash after it.
pub(crate) fn put_in_turn<A: Sectors>(
    device: &mut A,
    at: u64,
    bytes: &[u8],
    next: u64,
    others: &[u8],
) -> Result<(), DevError>
    requires first { IsRange (A.seen device.old).size at (length bytes.now) }
    requires second { IsRange (A.seen device.old).size next (length others.now) }
    ensures ok { OnOk result (OnTold (A.seen device.old).tells (A.seen device.new).tells
        (λ old new. new ≡ after_two (write_at at bytes.now) (write_at next others.now) old)) }
    ensures err { OnErr result (OnTold (A.seen device.old).tells (A.seen device.new).tells
        (FailsTwo (write_at at bytes.now) (write_at next others.now))) }
    ensures size { (A.seen device.new).size ≡ (A.seen device.old).size }
    ensures cause { HasCause (A.seen device.old).faults (A.seen device.new).faults result }
    ensures calls { MakesCalls A.gives device.old device.new
        (Serve (put_requests (write_at at bytes.now) ++ put_requests (write_at next others.now)) (error_of result)) }
{
    write_and_sync(device, at, bytes)?;
    write_and_sync(device, next, others)
}

/// Begins an archive with these pages: zeroes the head and the marks, writes the pages and the first mark, and then the
/// head. Each of the three is synced before the next begins.
pub(crate) fn put_archive<A: Sectors>(
    alloc: Global,
    device: &mut A,
    shape: &Shape,
    start: u64,
    pages: &Pages,
) -> Result<(), DevError>
    requires limits { IsWithinLimits shape.now }
    requires its_pages { ArePagesOf shape.now pages.now }
    requires long { pages_end shape.now ≤ (A.seen device.old).size }
    requires sized { IfSome (A.seen device.old).tells (HasSize (A.seen device.old).size) }
    ensures ok { OnOk result (AreTexts shape.now.page_size shape.now.space pages.now
        × OnTold (A.seen device.old).tells (A.seen device.new).tells
        (λ old new. new ≡ settled (begun_bytes shape.now start (base_text 0 shape.now.space pages.now) old.reads))) }
    ensures size { (A.seen device.new).size ≡ (A.seen device.old).size }
    ensures cause { HasCause (A.seen device.old).faults (A.seen device.new).faults result }
    ensures calls { OnOk result (MakesCalls A.gives device.old device.new
        (Serve (begin_requests shape.now start pages.now) None)) }
{
    write_and_sync(device, 0, &[0; HEADER])?;
    write_base(alloc, device, shape, pages)?;
    let mut mark = [0; 512];
    fill_mark(&mut mark, 0, start);
    write_and_sync(device, BLOCK_SIZE, &mark)?;
    let mut head = [0; 512];
    fill_archive_head(&mut head, start, shape);
    write_and_sync(device, 0, &head)
}
