//! The questions that can be asked of a history, as values, and what each of them asks for.
#![tactic(auto)]

pub mod laws;
mod question;

pub use question::{IdQuestion, Question, RowQuestion};
