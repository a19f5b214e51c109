//! Stores on disks in memory by worked examples, which are cases in files: imports, and which of
//! them are refused; questions; merges during both, and trims; what crashes, failures and damage
//! leave; lines that come and go in pieces; and disks whose names come to refer to something else.
//! What can be asked of the built program stands in bench/cases/.
#![tactic(auto)]

mod calls;
mod case_state;
mod copies;
mod disks;
mod named;
mod plain;
mod runs;
mod scripts;
mod trials;
mod unwritten;

use case_state::Case;
use std::process::ExitCode;

fn main(rt: HostRuntime) -> ExitCode {
    case_files::run(&rt, Case::new(&rt))
}
