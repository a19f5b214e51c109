//! A copy of a store on another disk, with all of its imports or the first ones: as a backup that
//! is verified while it is made, as a compaction that frees space, and as the way to undo the
//! import of a wrong release.
#![tactic(auto)]

mod copying;
mod fault;
pub mod laws;
mod planning;
mod reading;
mod writing;

pub use copying::copy;
pub use fault::CopyFault;
