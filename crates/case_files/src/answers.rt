//! Cases that are questions, each with its expected answer.
//!
//! A line is a question and its answer, as in `time "20201301" -> none`. The answer may continue on
//! the lines below, which begin with `= `. A case ends with `asked 8`, the number of its questions.

use crate::fault::Fault;
use crate::shown::Shown;
use std::alloc::{AllocError, AllocFailed, Global};
use std::mem;

/// Why a question can't be answered.
#[derive(Clone, Copy, Debug, PartialEq, Eq)]
pub enum NoAnswer {
    /// It isn't valid: an unknown word, a word too many or too few, or not a number.
    NoQuestion,
    OutOfMemory,
}

impl From<AllocError> for NoAnswer {
    fn from(_e: AllocError) -> NoAnswer {
        NoAnswer::OutOfMemory
    }
}

impl<T: Drop> From<AllocFailed<T>> for NoAnswer {
    fn from(_e: AllocFailed<T>) -> NoAnswer {
        NoAnswer::OutOfMemory
    }
}

impl From<NoAnswer> for Fault {
    fn from(why: NoAnswer) -> Fault {
        match why {
            NoAnswer::NoQuestion => Fault::Line("it asks nothing that is known"),
            NoAnswer::OutOfMemory => Fault::Memory,
        }
    }
}

/// The answer to a question: one line, or several separated by LF.
pub type Answer = Result<String, NoAnswer>;

/// Answers the questions of cases.
pub trait Answers {
    /// A case begins.
    fn begin(&mut self);

    /// Takes a line of the part with this name.
    fn give(&mut self, part: &str, word: &str, rest: &str) -> Result<(), NoAnswer>;

    /// Answers a question, given as its first word and the text after it.
    fn answer(&mut self, word: &str, rest: &str) -> Answer;
}

/// Splits the text after the first word of a question at the arrow.
fn split_answer(text: &str) -> Result<(&str, &str), Fault> {
    if let Some(wanted) = text.strip_prefix("->") {
        return Ok(("", wanted));
    }
    text.split_once(" ->")
        .ok_or(Fault::Line("its answer lacks"))
}

/// A part of the file, and whether another part or a case names it.
#[derive(Drop)]
struct Part {
    name: String,
    is_asked: bool,
}

/// The questions of cases, and their answers, with the state of the current case.
#[derive(Drop)]
pub(crate) struct Asked<A: Answers + Drop> {
    alloc: Global,
    answers: A,
    /// The parts of the file, and the one whose lines are being read, if it is a part.
    parts: Vec<Part>,
    part: Option<String>,
    /// The last question with its answer, and the expected text; both are empty before the first
    /// question.
    got: String,
    wanted: String,
    /// How many questions were asked, and whether the case's `asked` line has been read since.
    count: u64,
    is_told: bool,
    shown: Shown,
}

impl<A: Answers + Drop> Asked<A> {
    /// A state before the first case.
    pub(crate) fn new(alloc: Global, answers: A) -> Asked<A> {
        Asked {
            alloc,
            answers,
            parts: Vec::new(alloc),
            part: None,
            got: String::new(alloc),
            wanted: String::new(alloc),
            count: 0,
            is_told: false,
            shown: Shown::new(alloc),
        }
    }

    /// Compares the last answer with the expected one.
    fn settle(&mut self) -> Result<(), Fault> {
        let got = mem::replace(&mut self.got, String::new(self.alloc));
        let wanted = mem::replace(&mut self.wanted, String::new(self.alloc));
        if wanted == got {
            return Ok(());
        }
        self.shown.wanted = wanted;
        self.shown.got = got;
        Err(Fault::Differs)
    }

    /// Asks a question, and begins the expected text with its answer.
    fn ask(&mut self, word: &str, rest: &str) -> Result<(), Fault> {
        let (rest, wanted) = split_answer(rest)?;
        self.count = self.count.saturating_add(1);
        self.is_told = false;
        let answer = self.answers.answer(word, rest)?;
        self.got = format!(in self.alloc; "{word} {rest} ->\n{answer}")?;
        self.wanted = format!(in self.alloc; "{word} {rest} ->")?;
        match wanted.strip_prefix(' ') {
            Some(wanted) => self.go_on(wanted),
            None => Ok(()),
        }
    }

    /// Adds a line to the expected answer.
    fn go_on(&mut self, line: &str) -> Result<(), Fault> {
        if self.wanted.is_empty() {
            return Err(Fault::Line("it stands behind no question"));
        }
        self.wanted.push('\n')?;
        self.wanted.push_str(line)?;
        Ok(())
    }

    /// Checks that the case asked this many questions.
    fn tell(&mut self, word: &str) -> Result<(), Fault> {
        self.is_told = true;
        if word.parse::<u64>() != Ok(self.count) {
            return Err(Fault::Line("it isn't the number of questions above"));
        }
        Ok(())
    }

    /// Carries out a line of a case.
    fn take_line(&mut self, word: &str, rest: &str) -> Result<(), Fault> {
        if word == "=" {
            return self.go_on(rest);
        }
        self.settle()?;
        match word {
            "asked" => self.tell(rest),
            _ => self.ask(word, rest),
        }
    }

    /// Marks the parts whose names are words of a line.
    fn mark(&mut self, line: &str) {
        for part in &mut self.parts {
            part.is_asked = part.is_asked || line.split(' ').any(|word| word == part.name.as_str());
        }
    }

    /// Begins a case, or a part of this name.
    pub(crate) fn begin(&mut self, is_case: bool, name: &str) -> Result<(), Fault> {
        self.got.clear();
        self.wanted.clear();
        self.part = None;
        if !is_case {
            self.part = Some(String::from_str(self.alloc, name)?);
            let part = Part {
                name: String::from_str(self.alloc, name)?,
                is_asked: false,
            };
            match self.parts.push(part) {
                Ok(()) => {}
                Err(_) => return Err(Fault::Memory),
            }
        }
        self.count = 0;
        self.is_told = false;
        self.answers.begin();
        Ok(())
    }

    /// Carries out a line, given as its first word and the text after it.
    pub(crate) fn take(&mut self, word: &str, rest: &str) -> Result<(), Fault> {
        self.mark(rest);
        if let Some(part) = &self.part {
            self.answers.give(part.as_str(), word, rest)?;
            return Ok(());
        }
        self.take_line(word, rest)
    }

    /// Ends the case or the part.
    pub(crate) fn end(&mut self) -> Result<(), Fault> {
        self.settle()?;
        if self.part.is_none() && (self.count == 0 || !self.is_told) {
            return Err(Fault::Line("the case doesn't end with the number of its questions"));
        }
        Ok(())
    }

    /// Ends a file, in which each part has to be named.
    pub(crate) fn end_file(&mut self) -> Result<(), Fault> {
        let are_asked = self.parts.iter().all(|part| part.is_asked);
        self.parts.clear();
        if are_asked {
            Ok(())
        } else {
            Err(Fault::Line("no case asks for one of its parts"))
        }
    }

    /// The two texts that differed last.
    pub(crate) fn shown(&self) -> &Shown {
        &self.shown
    }
}
