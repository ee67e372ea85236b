// The two header blocks, which are made alike before anything else is written.
ghost use Rattle.std.specs.Prelude.{◌≡◌, ◌≤◌, ◌+◌, ◌↔◌, IfOk, IsTrue};
ghost use Rattle.model_log.specs.{read_head, sector_at};
ghost use Rattle.model_log.specs.declared.head.Head.TheVariants.{Good};
ghost use Rattle.redo_disk.specs.{error_of, MakesCalls, part};
ghost use Rattle.redo_open.specs.Put.{AlikeStep, PutsHead};
ghost use Rattle.redo_open.specs.Puts.{PutsWhere};
ghost use Rattle.redo_recover.specs.{IsOnlyRead};
ghost use Rattle.redo_recover.specs.Devices.{OnContent};

use crate::put::put_block;
use model_base::Shape;
use model_log::{Format, Head};
use redo_disk::{DevError, Sectors};
use redo_header::read_one_head;

/// Bytes of a log device up to the end of its second header block.
pub(crate) const HEADS: usize = 1_536;

/// Reads both header blocks, by one call.
fn read_once<L: Sectors>(log: &mut L) -> Result<[u8; HEADS], DevError>
    requires { HEADS ≤ (L.seen log.old).size }
    ensures content { IfOk result (λ heads. OnContent (L.seen log.new).tells (λ content. heads ≡ part content 0 HEADS)) }
    ensures reads { IsOnlyRead L.seen L.gives log.old (error_of result) log.new }
{
    let mut heads = [0; HEADS];
    log.read(0, &mut heads)?;
    Ok(heads)
}

/// The block at this offset of what was read.
fn block_at(heads: &[u8; HEADS], at: usize) -> &[u8; 512]
    requires { at + 512 ≤ HEADS }
    ensures { result.now ≡ sector_at at heads.now }
{
    match heads[at..].split_first_chunk::<512>() {
        Some((block, _)) => block,
        None => unreachable!(),
    }
}

/// Whether a header block names this format and this shape.
fn names(block: &[u8; 512], format: Format, shape: &Shape) -> bool
    ensures { IsTrue result ↔ (read_head block.now ≡ Good format shape.now) }
{
    read_one_head(block) == Head::Good(format, *shape)
}

/// Whether one of the header blocks does.
fn one_names(heads: &[u8; HEADS], format: Format, shape: &Shape) -> bool {
    names(block_at(heads, 0), format, shape) || names(block_at(heads, 1_024), format, shape)
}

/// Reads both header blocks, and once more where neither names the format and the shape by which the store was read: then
/// a read has lied.
pub(crate) fn read_heads<L: Sectors>(
    log: &mut L,
    format: Format,
    shape: &Shape,
) -> Result<[u8; HEADS], DevError>
    requires { HEADS ≤ (L.seen log.old).size }
    ensures content { IfOk result (λ heads. OnContent (L.seen log.new).tells (λ content. heads ≡ part content 0 HEADS)) }
    ensures reads { IsOnlyRead L.seen L.gives log.old (error_of result) log.new }
{
    let heads = read_once(log)?;
    if one_names(&heads, format, shape) {
        Ok(heads)
    } else {
        read_once(log)
    }
}

/// Makes the two header blocks alike, for good: the second from the first where that names the format and the shape by
/// which the store was read, else the first from the second. Where they are alike there is no call.
///
/// On any device, also on one whose reads lie, a block is written over only by one that names them. Where neither does
/// nothing is written.
pub(crate) fn make_alike<L: Sectors>(
    log: &mut L,
    heads: &[u8; HEADS],
    format: Format,
    shape: &Shape,
) -> Result<(), DevError>
    requires { HEADS ≤ (L.seen log.old).size }
    ensures step { AlikeStep format shape.now heads.now (L.seen log.old) result (L.seen log.new) }
    ensures calls { MakesCalls L.gives log.old log.new (PutsWhere (PutsHead format shape.now) (error_of result)) }
{
    let first = block_at(heads, 0);
    let second = block_at(heads, 1_024);
    if first == second {
        Ok(())
    } else if names(first, format, shape) {
        put_block(log, 2, first)
    } else if names(second, format, shape) {
        put_block(log, 0, second)
    } else {
        Ok(())
    }
}
