//! Worked examples of what a history shows, as cases in files: the plain programs and an index of
//! the history have to give the same answers.
#![tactic(auto)]

mod asking;
mod case_state;
mod index_questions;
mod indexed;
mod limits;
mod listed;
mod numbered;
mod plain_questions;
mod posted;
mod told;
mod watched;

use case_state::CaseState;
use std::process::ExitCode;

fn main(rt: HostRuntime) -> ExitCode {
    case_files::run(&rt, CaseState::new(rt.alloc()))
}
