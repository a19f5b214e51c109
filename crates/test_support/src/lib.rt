//! Stores that serve lines, releases and images of disks, for cases. Nothing here has a contract: a
//! case that asks a store through an `Example` is proved without using what the store promises.
#![tactic(auto)]

mod disks;
mod example;
mod releases;

pub use disks::{CHOICES, image_after, image_before_end, put};
pub use example::Example;
pub use releases::Releases;
