//! Search by words: which words a text has, and which descriptions are found by the words of a text.
#![tactic(auto)]

pub mod laws;
mod texts;

pub use texts::has_word;
