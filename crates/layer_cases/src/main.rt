//! The layers below the index by worked examples, which are cases in files: values, rows and lines;
//! disks in memory, the slots and extents on them, and a cache of blocks; segments and their
//! checksums; directories and stores; disks in files, and releases in folders.
#![tactic(auto)]

mod case_state;
mod folders;
mod listing;
mod rows;
mod segments;
mod slots;
mod stores;
mod values;

use case_state::CaseState;
use std::process::ExitCode;

fn main(rt: HostRuntime) -> ExitCode {
    case_files::run(&rt, CaseState::new(&rt))
}
