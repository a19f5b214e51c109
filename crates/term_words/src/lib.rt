//! Finds descriptions by words of their terms.
//!
//! For each list of rows there is a sorted list of postings of its active descriptions: one for each
//! word of a term, and one for the length and the type of the term. So those that have the words
//! and the type are found, and the shortest of them, without reading a row. A row that is found
//! counts only if it is the version of its component at the date and the pin.
#![tactic(auto)]

mod grouping;
mod keys;
mod known;
pub mod laws;
mod listing;
mod marking;
mod merging;
mod ordered;
mod postings;
mod sealed;
mod sealing;
mod search;
mod splitting;

use as_of_index::PerList;
pub use merging::Merging;
pub use postings::Postings;
pub use sealed::Sealed;
pub use search::{WordSearch, find};

/// The postings of several lists of rows, in the order of these lists.
pub type WordLists = PerList<Sealed>;
