//! Answers the questions that an index of segments can answer: for rows, which are read through a
//! reader that the caller passes, and for identifiers, for which no row is read.
#![tactic(auto)]

mod finding;
mod selecting;

pub use finding::ids;
pub use selecting::select;
