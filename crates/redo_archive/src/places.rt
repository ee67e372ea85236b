// Where things stand in an archive.
ghost use Rattle.std.specs.Prelude.{◌≡◌, ◌≤◌, ◌<◌, ◌+◌, ◌*◌, ◌^◌};
ghost use Rattle.model_archive.specs.{archive_length, archive_place, pages_end};
ghost use Rattle.model_base.specs.{IsWithinLimits};
ghost use Rattle.model_base.specs.declared.limits.TheConstants.{LSN_LIMIT};
ghost use Rattle.model_archive.specs.declared.layout.TheConstants.{ARCHIVE_HEADER};
ghost use Rattle.model_log.specs.{block_of, blocks_between};

use model_archive::ARCHIVE_HEADER;
use model_base::{BLOCK_SIZE, Shape};
use model_log::BLOCK_DATA;
use redo_lsn::{block_of, sn_of};

/// Where the log blocks begin.
pub(crate) fn pages_end(shape: &Shape) -> u64
    requires { IsWithinLimits shape.now }
    ensures value { result ≡ pages_end shape.now }
    ensures small { result < 2 ^ 32 }
{
    ARCHIVE_HEADER + u64::from(shape.pages) * u64::from(shape.page_size)
}

/// Where the page of this number stands.
pub(crate) fn page_place(shape: &Shape, page: u32) -> u64
    requires limits { IsWithinLimits shape.now }
    requires page { page < shape.now.pages }
    ensures { result ≡ ARCHIVE_HEADER + page * shape.now.page_size }
{
    ARCHIVE_HEADER + u64::from(page) * u64::from(shape.page_size)
}

/// How many blocks, from that of the one lsn on, hold a byte below the other.
pub(crate) fn blocks_between(low: u64, high: u64) -> u64
    requires small { high < LSN_LIMIT }
    requires lower { low < LSN_LIMIT }
    ensures value { result ≡ blocks_between low high }
    ensures small { result < 2 ^ 52 }
{
    (sn_of(high).saturating_sub(sn_of(block_of(low))) + (BLOCK_DATA - 1)) / BLOCK_DATA
}

/// How long a device has to be to hold the blocks with a byte below the mark.
pub(crate) fn archive_length(shape: &Shape, start: u64, mark: u64) -> u64
    requires limits { IsWithinLimits shape.now }
    requires small { mark < LSN_LIMIT }
    requires lower { start < LSN_LIMIT }
    ensures { result ≡ archive_length shape.now start mark }
{
    pages_end(shape) + BLOCK_SIZE * blocks_between(start, mark)
}

/// Where the block at this lsn stands.
pub(crate) fn archive_place(shape: &Shape, start: u64, block: u64) -> u64
    requires limits { IsWithinLimits shape.now }
    requires from { block_of start ≤ block }
    requires small { block < LSN_LIMIT }
    ensures { result ≡ archive_place shape.now start block }
{
    pages_end(shape) + (block - block_of(start))
}
