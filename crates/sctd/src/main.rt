//! `sctd` keeps the release history of a SNOMED CT terminology in
//! a file, and answers what each component looked like on any past date.
#![tactic(auto)]

use command_line::{FileHost, demonstrate, run};
use std::fs::{self, File};
use std::io::{ErrorKind, IsTerminal};
use std::process::ExitCode;
use std::rt::HostRuntime;
use std::{env, io};

/// Opens `/` three times, so that descriptors 0 to 2 are in use even if the program was started
/// without them. Otherwise the store's file could get one of them, and replies would be written
/// into it. A folder can be neither read nor written.
fn hold_standard_descriptors(rt: &HostRuntime) -> io::Result<[File; 3]> {
    Ok([fs::open(rt, "/")?, fs::open(rt, "/")?, fs::open(rt, "/")?])
}

/// The words of the command line, beginning with the program's name.
fn words_of(rt: &HostRuntime) -> io::Result<Vec<String>> {
    Ok(env::args(rt)?.collect(rt.alloc())?)
}

/// Whether the words ask for the demonstration.
fn ask_for_demonstration(words: &[String]) -> bool {
    match words {
        [_, command] => command.as_str() == "demo",
        _ => false,
    }
}

fn main(rt: HostRuntime) -> ExitCode {
    let _held = match hold_standard_descriptors(&rt) {
        Ok(held) => held,
        Err(error) => {
            let _ = eprintln!(rt; "sctd: /: {error}");
            let _ = eprintln!(rt; "ERR 2 DiskFault");
            return ExitCode::FAILURE;
        }
    };
    let words = match words_of(&rt) {
        Ok(words) => words,
        Err(error) if error.kind() == ErrorKind::OutOfMemory => {
            let _ = eprintln!(rt; "ERR 1 OutOfMemory");
            return ExitCode::FAILURE;
        }
        Err(_) => {
            let _ = eprintln!(rt; "error: a word of the command line isn't UTF-8");
            return ExitCode::from(2);
        }
    };
    let (mut input, mut output, mut faults) = (rt.stdin(), rt.stdout(), rt.stderr());
    if ask_for_demonstration(&words) && output.is_terminal() {
        return ExitCode::from(demonstrate(rt.alloc(), &mut output, &mut faults));
    }
    let (status, _, _) = run(
        &FileHost::new(&rt),
        &mut 0,
        rt.alloc(),
        &words,
        &mut input,
        &mut output,
        &mut faults,
    );
    ExitCode::from(status)
}
