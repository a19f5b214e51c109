//! A list that frees its memory as its items are taken out.
#![tactic(auto)]

mod list;

pub use list::ShrinkingList;
