//! The meaning of a history of releases: definitions and their laws.
#![tactic(auto)]

mod component;
mod ghost_rows;
pub mod laws;
mod receipt;
mod shown;
mod stamped;

pub use component::{IS_A, subject_of};
pub use ghost_rows::GhostRows;
pub use receipt::{ImportReceipt, Receipt};
pub use stamped::StampedRow;
