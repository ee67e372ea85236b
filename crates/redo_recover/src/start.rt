// Where recovery starts: the format and the sizes of the store and its newest checkpoint, off the header of the log device.
ghost use Rattle.std.specs.Prelude.{◌≡◌, ◌≢◌, ◌≤◌, ◌<◌, ◌*◌, length, None, Some, IfOk, IfErr, IfSome, MatchOption};
ghost use Rattle.model_base.specs.{IsWithinLimits};
ghost use Rattle.model_log.specs.{head_of, IsLayout, log_device_length, newest_checkpoint};
ghost use Rattle.model_page.specs.{data_device_length};
ghost use Rattle.redo_disk.specs.{HasSize};
ghost use Rattle.redo_recover.specs.Devices.{OnContents, reread, IsLogRead, log_error_of};
ghost use Rattle.redo_recover.specs.Recovery.{IsCaused};
ghost use Rattle.redo_recover.specs.Start.{IsHeadFault, IsLengthFault, IsRecoveryStart, IsUsable};

use crate::RecFault;
use crate::errors::log_fault;
use crate::piece::sector_at;
use model_base::{BLOCK_SIZE, Shape};
use model_log::{Format, HEADER_BYTES, Layout};
use redo_disk::Sectors;
use redo_header::{Head, newer, read_ckpt, read_head};
use redo_lsn::{layout_of, log_device_length};

/// Bytes of the header blocks.
const HEADER: usize = HEADER_BYTES as usize;

/// The format and the sizes of a store, and its newest checkpoint.
#[derive(Clone, Copy, Debug, PartialEq, Eq)]
pub(crate) struct Start {
    pub(crate) format: Format,
    pub(crate) shape: Shape,
    /// The checkpoint's number.
    pub(crate) number: u64,
    /// The lsn from which the log is scanned.
    pub(crate) ckpt: u64,
}

/// The format and the shape that the header names.
fn head_in(header: &[u8]) -> Result<(Format, Shape), RecFault>
    requires { length header.now ≡ HEADER_BYTES }
    ensures head { IfOk result (λ head. head_of header.now ≡ Head.Good head.0 head.1) }
    ensures limits { IfOk result (λ head. IsWithinLimits head.1) }
    ensures fault { IfErr result (IsHeadFault header.now) }
{
    let size = BLOCK_SIZE as usize;
    match read_head(sector_at(header, 0), sector_at(header, 2 * size)) {
        Head::Good(format, shape) => Ok((format, shape)),
        Head::OtherFormat(format) => Err(RecFault::BadFormat(format)),
        Head::Unformatted => Err(RecFault::NotFormatted),
    }
}

/// Whether both devices are as long as the shape asks.
pub fn check_lengths(shape: &Shape, log_len: u64, data_len: u64) -> Result<(), RecFault>
    requires { IsWithinLimits shape.now }
    ensures fit { IfOk result (λ _. (log_device_length shape.now ≤ log_len) × (data_device_length shape.now ≤ data_len)) }
    ensures fault { IfErr result (IsLengthFault shape.now log_len data_len) }
{
    let log_asked = log_device_length(shape);
    if log_len < log_asked {
        return Err(RecFault::SmallLog(log_asked));
    }
    let data_asked = u64::from(shape.slots + shape.pages) * u64::from(shape.page_size);
    if data_len < data_asked {
        return Err(RecFault::SmallData(data_asked));
    }
    Ok(())
}

/// The number and the lsn of the newest checkpoint that passes.
fn newest_in(header: &[u8], layout: &Layout) -> Option<(u64, u64)>
    requires is_layout { IsLayout layout.now }
    requires whole { length header.now ≡ HEADER_BYTES }
    ensures { result ≡ newest_checkpoint layout.now header.now }
{
    let size = BLOCK_SIZE as usize;
    newer(
        read_ckpt(sector_at(header, size), 1, layout),
        read_ckpt(sector_at(header, 3 * size), 3, layout),
    )
}

/// Reads the header of the log device, and judges both devices by it.
pub(crate) fn read_start<L: Sectors, D: Sectors>(log: &mut L, device: &D) -> Result<Start, RecFault>
    ensures start { IfOk result (λ start. OnContents (L.seen log.new).tells (D.seen device.now).tells
        (λ log_bytes data_bytes. IsRecoveryStart log_bytes data_bytes start)) }
    ensures sized { IfOk result (λ _. IfSome (D.seen device.now).tells (HasSize (D.seen device.now).size)) }
    ensures usable { IfOk result (λ start. IsUsable (L.seen log.old).size (D.seen device.now).size start.shape start.ckpt) }
    ensures caused { IfErr result (IsCaused (reread (L.seen log.old) (L.seen log.new)) (D.seen device.now)) }
    ensures reads { IsLogRead L.seen L.gives log.old (log_error_of result) log.new }
    ensures apart { IfErr result (λ fault. fault ≢ RecFault.DataDev) }
{
    let log_len = log.len();
    if log_len < HEADER_BYTES {
        return Err(RecFault::SmallLog(HEADER_BYTES));
    }
    let mut header = [0; HEADER];
    match log.read(0, &mut header) {
        Ok(()) => {}
        Err(error) => return Err(log_fault(error)),
    }
    let (format, shape) = head_in(&header)?;
    check_lengths(&shape, log_len, device.len())?;
    match newest_in(&header, &layout_of(format, &shape)) {
        Some((number, ckpt)) => Ok(Start {
            format,
            shape,
            number,
            ckpt,
        }),
        None => Err(RecFault::NoCheckpoint),
    }
}
