//! What a device of sectors keeps, and what a crash may leave of it. The contracts of every device, and of all that
//! stands on one, are written with these definitions. Beside them stand the laws on which the rest is built.
#![tactic(auto)]

mod laws;
mod write;

pub use laws::{
    calls_add_to_sectors, calls_keep_a_device_valid, crash_leaves_an_image,
    sectors_stand_in_images, settled_has_one_image,
};
pub use write::Write;
