//! The digest of all rows of a store. It is the same for the same rows, however a store keeps them,
//! and can be computed from the files of the releases alone.
#![tactic(auto)]

mod digesting;
pub mod laws;
mod text;

pub use digesting::digest;
