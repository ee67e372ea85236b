//! Devices to run on: one in memory that crashes as it is told, one in a file, and a fuse round a device that stops it
//! at a planned call. Beside them stands the test by which the definition of an image is tried out.
#![tactic(auto)]

mod apply;
mod contents;
mod cut;
mod file;
mod files;
mod fuse;
mod fused;
mod image;
mod laws;
mod medium;
mod memory;
mod plan;
mod record;

pub use apply::apply_writes;
pub use contents::{Contents, Unread};
pub use file::{Access, FILE_DISK_LEN, FileDisk};
pub use files::DeviceFiles;
pub use fuse::{Fuse, Stage};
pub use fused::Fused;
pub use image::is_image;
pub use laws::{a_file_tells_by_its_calls, a_fuse_counts_calls, a_true_read_is_told};
pub use memory::MemDisk;

/// Bytes of a sector.
const SECTOR: usize = model_base::BLOCK_SIZE as usize;
