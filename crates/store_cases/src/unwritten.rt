//! Runs of the program whose output is taken, and then not written.
//!
//! `unwritten WORD` runs the program with this word, with an input that can't be read, and with an
//! output that takes all that is written and whose flush fails. It prints the status, what is
//! written to standard error, and the output.

use case_files::Answer;
use case_values::spell_text;
use command_line::{FileHost, run};
use std::io::{self, ErrorKind, Read, Write};
use std::rt::HostRuntime;

/// Input that can't be read, or output that is taken, and whose flush fails.
#[derive(Drop)]
struct Failing(Vec<u8>);

impl Read for Failing {
    fn read(&mut self, _buf: &mut [u8]) -> io::Result<usize> {
        Err(io::Error::from(ErrorKind::Interrupted))
    }
}

impl Write for Failing {
    fn write(&mut self, buf: &[u8]) -> io::Result<usize> {
        self.0.extend_from_slice(buf)?;
        Ok(buf.len())
    }

    fn flush(&mut self) -> io::Result<()> {
        Err(io::Error::from(ErrorKind::Other))
    }
}

/// Runs the program with a word.
pub fn run_unwritten(rt: &HostRuntime, word: &str) -> Answer {
    let alloc = rt.alloc();
    let words = [
        String::from_str(alloc, "sctd")?,
        String::from_str(alloc, word)?,
    ];
    let mut input = Failing(Vec::new(alloc));
    let mut output = Failing(Vec::new(alloc));
    let mut faults = Vec::new(alloc);
    let host = FileHost::new(rt);
    let (status, _, _) = run(
        &host,
        &mut 0,
        alloc,
        &words,
        &mut input,
        &mut output,
        &mut faults,
    );
    let faults = spell_text(alloc, &faults)?;
    let taken = spell_text(alloc, &output.0)?;
    Ok(format!(in alloc; "{status}\n{faults}{}", taken.trim_end())?)
}
