//! Disks that a stop may tear: what one is, one in memory that can stop and fail, and one over a
//! file.
#![tactic(auto)]

mod calls;
mod disk;
mod errors;
mod file_disk;
mod image;
mod laws;
mod memory_disk;
mod opener;
mod place;
mod read;
mod script;
mod shared_disk;
mod step;
mod tear;

pub use disk::Disk;
pub use errors::{Failed, Memory};
pub use file_disk::FileDisk;
pub use laws::{Fact, calls_in_turn, images_since, passes_in_turn, whole_calls, wider_fact};
pub use memory_disk::MemoryDisk;
pub use opener::Opener;
pub use place::{HostPlace, OpenedFile, Place};
pub use read::read_up_to;
pub use shared_disk::{Change, Given, SharedDisk};
pub use tear::Tear;
