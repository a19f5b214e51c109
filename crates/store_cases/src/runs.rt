//! Lines of a part (`scripts.rt`) that are sent in one run of the server, so that a pin lasts from
//! one to the next.
//!
//! - `run PART` sends them to the store of the case, and prints what the server returns, and then
//!   the replies;
//! - `way PART WORDS` sends them to a new store through streams that read and write bytes in small
//!   pieces, and fail, as the words say, and prints what the server returns, and then what it
//!   writes; if these are the first bytes of the replies of the case's last `run`, only how many
//!   they are. `noted-way PART WORDS` also prints how many bytes were written before each read.

use crate::case_state::Case;
use crate::scripts::sent;
use case_files::{Answer, NoAnswer, two_words};
use case_values::{number, spell_text};
use history_store::Layout;
use std::alloc::Global;
use std::cell::Cell;
use std::io::{self, ErrorKind, Read, Write};
use std::mem;

/// How lines are read and replies are written.
#[derive(Clone, Copy)]
struct Way<'a> {
    /// The most bytes that each read returns: numbers joined by `+`, of which the last one is for
    /// all further reads.
    pieces: &'a str,
    /// How the reader fails at its end, if it does, and how many reads are allowed.
    failure: Option<ErrorKind>,
    reads: u32,
    /// The most bytes that a write accepts, and that all writes accept together.
    width: usize,
    room: usize,
}

impl<'a> Way<'a> {
    /// Parses words, each of which comes before its value. Without them no limit matters.
    pub fn of(words: &'a str) -> Result<Way<'a>, NoAnswer> {
        let mut way = Way {
            pieces: "4096",
            failure: None,
            reads: 1_000_000,
            width: 4_096,
            room: 1_000_000,
        };
        let mut before = None;
        for word in words.split_whitespace() {
            match before.take() {
                Some(name) => way.set(name, word)?,
                None => before = Some(word),
            }
        }
        match before {
            Some(_) => Err(NoAnswer::NoQuestion),
            None => Ok(way),
        }
    }

    /// Sets the value of a word.
    fn set(&mut self, word: &str, value: &'a str) -> Result<(), NoAnswer> {
        match (word, value) {
            ("pieces", _) => self.pieces = value,
            ("fails", "Interrupted") => self.failure = Some(ErrorKind::Interrupted),
            ("fails", "Other") => self.failure = Some(ErrorKind::Other),
            ("reads", _) => self.reads = number(value)?,
            ("width", _) => self.width = number(value)?,
            ("room", _) => self.room = number(value)?,
            _ => return Err(NoAnswer::NoQuestion),
        }
        Ok(())
    }
}

/// Returns its bytes in pieces, and then the end, or a failure if the way has one. After that it
/// would return further bytes. At each read it notes how many bytes have been written so far.
#[derive(Drop)]
struct Pieces<'a> {
    alloc: Global,
    way: Way<'a>,
    rest: &'a [u8],
    /// The bytes that it would return after the end or the failure.
    later: &'a [u8],
    has_ended: bool,
    written: &'a Cell<usize>,
    /// What was noted: numbers, each after a `+`.
    noted: String,
}

impl Pieces<'_> {
    /// The most bytes that the next read returns.
    fn next_length(&mut self) -> io::Result<usize> {
        let (length, others) = match self.way.pieces.split_once('+') {
            Some(lengths) => lengths,
            None => (self.way.pieces, self.way.pieces),
        };
        self.way.pieces = others;
        match number(length) {
            Ok(length) => Ok(length),
            Err(_) => Err(io::Error::from(ErrorKind::InvalidInput)),
        }
    }
}

impl Read for Pieces<'_> {
    fn read(&mut self, buf: &mut [u8]) -> io::Result<usize> {
        let written = self.written.get();
        let note = format!(in self.alloc; "+{written}")?;
        self.noted.push_str(note.as_str())?;
        if self.rest.is_empty() && !self.has_ended {
            self.has_ended = true;
            self.rest = self.later;
            return match self.way.failure {
                Some(kind) => Err(io::Error::from(kind)),
                None => Ok(0),
            };
        }
        let length = self.next_length()?;
        let n = self.rest.len().min(length).min(buf.len());
        buf[..n].copy_from_slice(&self.rest[..n]);
        self.rest = &self.rest[n..];
        Ok(n)
    }
}

/// Accepts `width` bytes at a time, as long as there is room, and counts them in `written`.
#[derive(Drop)]
struct Narrow<'a> {
    taken: Vec<u8>,
    width: usize,
    room: usize,
    written: &'a Cell<usize>,
}

impl Write for Narrow<'_> {
    fn write(&mut self, buf: &[u8]) -> io::Result<usize> {
        let n = buf.len().min(self.width).min(self.room);
        self.taken.extend_from_slice(&buf[..n])?;
        self.room -= n;
        self.written.set(self.taken.len());
        Ok(n)
    }

    fn flush(&mut self) -> io::Result<()> {
        Ok(())
    }
}

/// Lets the server of the store answer the lines of a part, and returns what is printed of that,
/// how many bytes were written before each read, and what the server writes.
fn answered(
    case: &mut Case<'_>,
    part: &str,
    way: Way<'_>,
) -> Result<(String, String, Vec<u8>), NoAnswer> {
    let alloc = case.alloc;
    let (bytes, later) = sent(case, part)?;
    let written = Cell::new(0usize);
    let mut input = Pieces {
        alloc,
        way,
        rest: bytes.as_slice(),
        later: later.as_slice(),
        has_ended: false,
        written: &written,
        noted: String::new(alloc),
    };
    let mut output = Narrow {
        taken: Vec::new(alloc),
        width: way.width,
        room: way.room,
        written: &written,
    };
    let answer = case.serve(way.reads, &mut input, &mut output)?;
    let noted = String::from_str(alloc, input.noted.strip_prefix('+').unwrap_or("-"))?;
    Ok((
        answer,
        noted,
        mem::replace(&mut output.taken, Vec::new(alloc)),
    ))
}

/// Sends the lines of a part to the store, or to a new one, and prints what the server returns and
/// writes.
pub fn run(case: &mut Case<'_>, word: &str, words: &str) -> Answer {
    let alloc = case.alloc;
    if word != "run" {
        case.begin_with(Layout::Two)?;
    }
    let (part, words) = two_words(words);
    let (mut answer, noted, taken) = answered(case, part, Way::of(words)?)?;
    if word == "noted-way" {
        answer.push('\n')?;
        answer.push_str(&noted)?;
    }
    if word != "run" && !case.last.is_empty() && case.last.starts_with(&taken) {
        let first = format!(in alloc; "\nthe first {} bytes", taken.len())?;
        answer.push_str(&first)?;
    } else if !taken.is_empty() {
        let lines = spell_text(alloc, taken.strip_suffix(b"\n").unwrap_or(&taken))?;
        answer.push('\n')?;
        answer.push_str(&lines)?;
    }
    if word == "run" {
        case.last = taken;
    }
    Ok(answer)
}
