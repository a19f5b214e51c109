//! Cases in files: the files are read line by line, the questions on them are asked, and for each
//! case `ok` is printed, or how an answer differs. Nothing here has a clause.
#![tactic(auto)]

mod answers;
mod fault;
mod folder;
mod quoted;
mod running;
mod shown;
mod words;

pub use answers::{Answer, Answers, NoAnswer};
pub use folder::run;
pub use quoted::unquoted;
pub use words::two_words;
