//! Shared by tests and measurements of an index: a reader of rows in memory, and whether places may
//! be listed.
#![tactic(auto)]

mod kept;
mod listed;

pub use kept::KeptRows;
pub use listed::{may_add, may_list};
