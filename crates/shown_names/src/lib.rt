//! The names of files and folders, in the form shown to people.
#![tactic(auto)]

mod laws;
mod shown;

pub use laws::no_control_characters;
pub use shown::Shown;
