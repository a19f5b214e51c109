//! A question of a case, and how what is found is told: one on each line, or `none`.

use as_of_index::AsOf;
use case_files::{Answer, NoAnswer, unquoted};
use case_values::{Question, first_word, line_of, number, read_question, split_prefix};
use rf2_values::{EffectiveTime, Row, Sctid};
use std::alloc::{AllocError, Global};

/// A question at a pin, with the prefix or the text that is searched for.
#[derive(Drop)]
pub struct Request {
    pub alloc: Global,
    pub question: Question,
    pub pin: u32,
    pub prefix: String,
}

/// The prefix that a text spells, in which a byte may be given by its digits.
fn prefix_of(alloc: Global, text: &str) -> Answer {
    let quoted = format!(in alloc; "\"{text}\"")?;
    match str::from_utf8(&unquoted(alloc, quoted.as_str())?) {
        Ok(prefix) => Ok(String::from_str(alloc, prefix)?),
        Err(_) => Err(NoAnswer::NoQuestion),
    }
}

impl Request {
    /// Reads a pin and a question.
    pub fn of(alloc: Global, text: &str) -> Result<Request, NoAnswer> {
        let (pin, text) = first_word(text)?;
        let (text, prefix) = split_prefix(text)?;
        Ok(Request {
            alloc,
            question: read_question(alloc, text)?,
            pin: number(pin)?,
            prefix: prefix_of(alloc, prefix)?,
        })
    }

    /// This date, and the pin.
    pub fn at(&self, date: EffectiveTime) -> AsOf {
        let pin = self.pin;
        AsOf { date, pin }
    }
}

/// What stands on a line of an answer.
pub trait Line {
    /// Its text.
    fn line(&self, alloc: Global) -> Answer;
}

impl Line for Row {
    fn line(&self, alloc: Global) -> Answer {
        line_of(alloc, self)
    }
}

impl Line for &Row {
    fn line(&self, alloc: Global) -> Answer {
        line_of(alloc, *self)
    }
}

impl Line for u64 {
    fn line(&self, alloc: Global) -> Answer {
        Ok(format!(in alloc; "{self}")?)
    }
}

impl Line for Sctid {
    fn line(&self, alloc: Global) -> Answer {
        self.value().line(alloc)
    }
}

impl Line for EffectiveTime {
    fn line(&self, alloc: Global) -> Answer {
        Ok(format!(in alloc; "{}", self.value())?)
    }
}

/// What is found, one on each line, or `none`.
pub fn told<T: Line + Drop>(alloc: Global, found: Result<Vec<T>, AllocError>) -> Answer {
    let mut text = String::new(alloc);
    for one in &found? {
        text.push_str(one.line(alloc)?.as_str())?;
        text.push('\n')?;
    }
    match text.pop() {
        Some(_) => Ok(text),
        None => Ok(String::from_str(alloc, "none")?),
    }
}
