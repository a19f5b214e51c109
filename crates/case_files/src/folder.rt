//! The files of a folder.

use crate::answers::{Answers, Asked};
use crate::running::{Tally, run_text};
use std::process::ExitCode;
use std::rt::HostRuntime;
use std::{fs, io};

/// The folder of the files.
const CASES: &str = "cases";

/// Runs the cases of each file in the folder `cases`, in the order of the file names, and prints
/// which passed and how many there were. The status is a success exactly if there was at least one
/// case and nothing failed.
pub fn run<A: Answers + Drop>(rt: &HostRuntime, answers: A) -> ExitCode {
    match run_files(rt, &mut Asked::new(rt.alloc(), answers)) {
        Ok(tally) if tally.cases > 0 && tally.failed == 0 => ExitCode::SUCCESS,
        Ok(_) => ExitCode::FAILURE,
        Err(error) => {
            let _ = eprintln!(rt; "{CASES}: {error}");
            ExitCode::FAILURE
        }
    }
}

/// Runs the cases of each file.
fn run_files<A: Answers + Drop>(rt: &HostRuntime, asked: &mut Asked<A>) -> io::Result<Tally> {
    let mut all = Tally {
        cases: 0,
        failed: 0,
    };
    for name in names_in(rt)? {
        let tally = run_file(rt, asked, &name)?;
        all.cases = all.cases.saturating_add(tally.cases);
        all.failed = all.failed.saturating_add(tally.failed);
    }
    println!(rt; "{} cases, {} failed", all.cases, all.failed)?;
    Ok(all)
}

/// Runs the cases of a file.
fn run_file<A: Answers + Drop>(
    rt: &HostRuntime,
    asked: &mut Asked<A>,
    name: &str,
) -> io::Result<Tally> {
    let path = format!(in rt.alloc(); "{CASES}/{name}")?;
    let text = fs::read_to_string(rt, path.as_str())?;
    run_text(rt, asked, name, text.as_str())
}

/// The names in the folder, in byte order.
fn names_in(rt: &HostRuntime) -> io::Result<Vec<String>> {
    let mut names = Vec::new(rt.alloc());
    for entry in fs::read_dir(rt, CASES)? {
        let entry = entry?;
        names.push(String::from_str(rt.alloc(), entry.file_name())?)?;
    }
    names.sort_unstable();
    Ok(names)
}
