//! Lines and files of releases, and lines of the protocol.
//!
//! - `line SHAPE TEXT` prints the fault of a line, or `no fault`: a shape is a kind and, after a
//!   plus sign, the number of a member's further columns;
//! - `row KIND TEXT` prints the kind, the number and the line of the row that is read from a line;
//! - `file KIND TEXT` prints how many rows a file has, or its first faulty line and the fault;
//! - `file_of KIND TEXT` prints the same for a file that begins with the column names of its kind,
//!   and, if it differs, for the file with a byte order mark before them;
//! - `names KIND` prints the column names, and `names_as KIND KIND` the result of reading a file of
//!   the first kind's column names as one of the second kind;
//! - `line_bytes KIND TEXT` prints how many bytes a line takes, and `term_bytes KIND TEXT` how many
//!   the term of its row takes.
//!
//! In each text a bar stands for a TAB, and a name in capitals for an identifier.
//!
//! - `request TEXT` prints the session and the command of a line of the protocol, or the number and
//!   the name of the refusal. For a question about the imports that the session sees, the question
//!   alone is printed as the command;
//! - `request_fits TEXT` prints the same with `yes` in place of the command.

use crate::segments::joined;
use case_files::{Answer, NoAnswer, two_words, unquoted};
use case_values::{
    kind_of, line_of, read_row, row_bytes, shape_of, spell_id, spell_number, spell_text,
};
use line_commands::{Command, Request, parse};
use rf2_rows::{
    Body, FileFault, Key, Kind, Row, RowFault, Shape, column_names, parse_line, read_file,
};
use std::alloc::{AllocError, Global};

/// The fault of a line.
fn fault_of(alloc: Global, shape: Shape, line: &[u8]) -> Answer {
    match parse_line(alloc, shape, line) {
        Ok(_) => Ok(String::from_str(alloc, "no fault")?),
        Err(RowFault::Line(fault)) => Ok(format!(in alloc; "{fault:?}")?),
        Err(RowFault::OutOfMemory) => Err(NoAnswer::OutOfMemory),
    }
}

/// Reads a file: how many rows it has, or its first fault.
fn outcome(alloc: Global, kind: Kind, bytes: &[u8]) -> Answer {
    match read_file(alloc, kind, bytes) {
        Ok(rows) => Ok(format!(in alloc; "{} rows", rows.len())?),
        Err(FileFault::Row { line, fault }) => Ok(format!(in alloc; "line {line}: {fault:?}")?),
        Err(FileFault::OutOfMemory) => Err(NoAnswer::OutOfMemory),
    }
}

/// Reads a file that begins with the column names, with and without a byte order mark.
fn outcome_below(alloc: Global, kind: Kind, bytes: &[u8]) -> Answer {
    let file = joined(alloc, column_names(kind), bytes)?;
    let plain = outcome(alloc, kind, &file)?;
    let marked = outcome(alloc, kind, &joined(alloc, b"\xef\xbb\xbf", &file)?)?;
    if plain == marked {
        return Ok(plain);
    }
    Ok(format!(in alloc; "{plain}, and with a mark {marked}")?)
}

/// Whether a copy of the row, and a row made from its columns, equal it, and its key consists of
/// its kind, its number and its day.
fn is_copied(alloc: Global, row: &Row) -> Result<bool, AllocError> {
    let copy = row.try_clone(alloc)?;
    let body = copy.body.try_clone(alloc)?;
    let made = Row::of(row.id, row.time, row.active, row.module_id, body);
    let (id, time, kind) = (row.id, row.time, row.kind());
    Ok(
        row.key() == Key { id, time, kind }
            && copy.is_same(row)
            && made.is_some_and(|made| made == copy),
    )
}

/// Describes a row.
fn spell_row(alloc: Global, row: &Row) -> Answer {
    if !is_copied(alloc, row)? {
        return Ok(String::from_str(alloc, "a copy is another row, or it has another key")?);
    }
    let (id, line) = (spell_id(alloc, row.kind(), row.id)?, line_of(alloc, row)?);
    Ok(format!(in alloc; "{:?} {id}\n{line}", row.kind())?)
}

/// The request in a line of the protocol, or the refusal.
fn spell_request(alloc: Global, line: &[u8], is_whole: bool) -> Answer {
    match parse(line) {
        Ok(_) if !is_whole => Ok(String::from_str(alloc, "yes")?),
        Ok(Request { session, command }) => match command {
            Command::Ask(question) => Ok(format!(in alloc; "{session} {question:?}")?),
            command => Ok(format!(in alloc; "{session} {command:?}")?),
        },
        Err(reason) => Ok(format!(in alloc; "{} {}", reason.code(), reason.name())?),
    }
}

/// Answers a question about a line or a file.
pub fn answer(alloc: Global, word: &str, rest: &str) -> Answer {
    if matches!(word, "request" | "request_fits") {
        return spell_request(alloc, &unquoted(alloc, rest)?, word == "request");
    }
    let (shape, text) = two_words(rest);
    let shape = shape_of(shape)?;
    let kind = shape.kind;
    match word {
        "names" => return spell_text(alloc, column_names(kind)),
        "names_as" => return outcome(alloc, kind_of(text)?, column_names(kind)),
        _ => {}
    }
    let text = row_bytes(alloc, text)?;
    match word {
        "line" => fault_of(alloc, shape, &text),
        "line_bytes" => spell_number(alloc, text.len() as u64),
        "term_bytes" => match &read_row(alloc, kind, &text)?.body {
            Body::Description(columns) => spell_number(alloc, columns.term.as_bytes().len() as u64),
            _ => Err(NoAnswer::NoQuestion),
        },
        "file" => outcome(alloc, kind, &text),
        "file_of" => outcome_below(alloc, kind, &text),
        "row" => spell_row(alloc, &read_row(alloc, kind, &text)?),
        _ => Err(NoAnswer::NoQuestion),
    }
}
