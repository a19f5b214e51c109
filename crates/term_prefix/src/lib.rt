//! Finds descriptions by the beginning of their terms.
//!
//! For each list of rows there is a sorted list of the folded terms of its active descriptions. A
//! term that is found is a candidate: it counts only if its row is the version of its component at
//! the date and the pin.
#![tactic(auto)]

mod folding;
pub mod laws;
mod merging;
mod postings;
mod sealed;
mod search;
mod sorting;
mod text;

use as_of_index::PerList;
pub use merging::Merging;
pub use postings::Postings;
pub use sealed::Sealed;
pub use search::{Search, find};

/// The terms of several lists of rows, in the order of these lists.
pub type Terms = PerList<Sealed>;
