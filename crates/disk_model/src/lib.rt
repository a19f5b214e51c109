//! A disk: what a read returns, and what a crash at any moment may leave.
//!
//! The trait `Disk` says this of any disk, for five calls. `MemDisk` is a disk in memory that is
//! proved to keep it; it also returns the images of each of its moments, and fails when a test asks
//! it to. `FileDisk` is a file of the system, of which nothing is specified.
#![tactic(auto)]

mod choice;
mod disk;
mod file;
mod memory;
mod opening;
mod size_limit;

pub use choice::Choice;
pub use disk::{Disk, DiskFault, MAX_END};
pub use file::FileDisk;
pub use memory::MemDisk;
pub use opening::{OpenFault, sync_folder_of};
