//! The cases of one file.

use crate::answers::{Answers, Asked};
use crate::fault::Fault;
use crate::shown::Shown;
use crate::words::two_words;
use std::io;
use std::rt::HostRuntime;

/// How many cases there were, and how many cases, parts and files failed.
#[derive(Clone, Copy, Debug, PartialEq, Eq)]
pub(crate) struct Tally {
    pub(crate) cases: u32,
    pub(crate) failed: u32,
}

/// The case or the part that a line belongs to.
#[derive(Clone, Copy)]
struct Open<'a> {
    is_case: bool,
    name: &'a str,
    has_failed: bool,
}

/// A file, up to the line that is being carried out.
#[derive(Drop)]
struct Progress<'a> {
    rt: &'a HostRuntime,
    file: &'a str,
    line: usize,
    open: Option<Open<'a>>,
    tally: Tally,
}

impl<'a> Progress<'a> {
    /// Carries out the next line.
    fn take<A: Answers + Drop>(&mut self, asked: &mut Asked<A>, text: &'a str) -> io::Result<()> {
        self.line = self.line.saturating_add(1);
        let (word, rest) = two_words(text);
        match word {
            "" | "#" => Ok(()),
            "case" | "part" => self.begin(asked, word == "case", rest),
            _ => match self.open {
                Some(open) if open.has_failed => Ok(()),
                Some(_) => {
                    let done = asked.take(word, rest);
                    self.note(asked.shown(), done)
                }
                None => self.note(asked.shown(), Err(Fault::Line("it stands in no case"))),
            },
        }
    }

    /// Ends the open block and begins another one.
    fn begin<A: Answers + Drop>(
        &mut self,
        asked: &mut Asked<A>,
        is_case: bool,
        name: &'a str,
    ) -> io::Result<()> {
        self.end(asked)?;
        self.open = Some(Open {
            is_case,
            name,
            has_failed: false,
        });
        if is_case {
            self.tally.cases = self.tally.cases.saturating_add(1);
        }
        let done = asked.begin(is_case, name);
        self.note(asked.shown(), done)
    }

    /// Ends the open block, and prints `ok` if it is a case that passed.
    fn end<A: Answers + Drop>(&mut self, asked: &mut Asked<A>) -> io::Result<()> {
        match self.open {
            Some(open) if !open.has_failed => {
                let done = asked.end();
                self.note(asked.shown(), done)?;
            }
            _ => return Ok(()),
        }
        match self.open {
            Some(open) if open.is_case && !open.has_failed => println!(self.rt; "ok {}", open.name),
            _ => Ok(()),
        }
    }

    /// Ends the file.
    fn end_file<A: Answers + Drop>(&mut self, asked: &mut Asked<A>) -> io::Result<()> {
        self.end(asked)?;
        self.open = None;
        let done = match asked.end_file() {
            Ok(()) if self.tally.cases == 0 => Err(Fault::Line("no case stands in the file")),
            done => done,
        };
        self.note(asked.shown(), done)
    }

    /// Records and prints that the open block, or the file, failed, if it did.
    fn note(&mut self, shown: &Shown, done: Result<(), Fault>) -> io::Result<()> {
        let Err(fault) = done else {
            return Ok(());
        };
        self.tally.failed = self.tally.failed.saturating_add(1);
        let name = match &mut self.open {
            Some(open) => {
                open.has_failed = true;
                open.name
            }
            None => "the file",
        };
        println!(self.rt; "FAILED {name}: {}, line {}: {fault}", self.file, self.line)?;
        match fault {
            Fault::Differs => println!(self.rt; "wanted:\n{}\ngot:\n{}", shown.wanted, shown.got),
            _ => Ok(()),
        }
    }
}

/// Runs the cases of a file, and returns how many there were and how many failed.
pub(crate) fn run_text<'a, A: Answers + Drop>(
    rt: &'a HostRuntime,
    asked: &mut Asked<A>,
    file: &'a str,
    text: &'a str,
) -> io::Result<Tally> {
    let mut progress = Progress {
        rt,
        file,
        line: 0,
        open: None,
        tally: Tally {
            cases: 0,
            failed: 0,
        },
    };
    for line in text.lines() {
        progress.take(asked, line)?;
    }
    progress.end_file(asked)?;
    Ok(progress.tally)
}
