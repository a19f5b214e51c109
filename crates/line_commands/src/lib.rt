//! The requests of the protocol: a line has a session's number, a command's word and its arguments,
//! separated by single spaces.
#![tactic(auto)]

mod arguments;
mod columns;
mod command;
pub mod laws;
mod names;
mod parsing;
mod questions;
mod unread;
mod words;

pub use command::{Command, REQUEST_LIMIT, Request, SESSIONS};
pub use parsing::{check_request, import_request, parse};
pub use unread::Unread;
