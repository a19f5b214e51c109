//! Rows as text, in which a bar stands for a TAB, and a name in capitals for an identifier.

use case_files::{Answer, NoAnswer, unquoted};
use rf2_rows::{Kind, Row, RowFault, Shape, parse_line, write_row};
use std::alloc::{AllocError, Global};

/// The names in capitals and the bar, with the texts that they stand for.
const NAMES: [(&str, &str); 8] = [
    ("CORE", "900000000000207008"),
    ("PRIM", "900000000000074008"),
    ("SYN", "900000000000013009"),
    ("ECI", "900000000000448009"),
    ("INF", "900000000000011006"),
    ("MOD", "900000000000451002"),
    ("|", "\t"),
    ("\\r", "\r"),
];

/// Replaces the names by their identifiers, and each bar by a TAB.
pub fn row_text(alloc: Global, text: &str) -> Result<String, AllocError> {
    let mut row = String::from_str(alloc, text)?;
    for (name, meaning) in &NAMES {
        row = row.replace(alloc, *name, *meaning)?;
    }
    Ok(row)
}

/// The bytes of such a text that is in quotes.
pub fn row_bytes(alloc: Global, quoted: &str) -> Result<Vec<u8>, NoAnswer> {
    unquoted(alloc, row_text(alloc, quoted)?.as_str())
}

/// The text of these bytes, with names in place of identifiers, and a bar in place of each TAB.
pub fn spell_text(alloc: Global, bytes: &[u8]) -> Answer {
    let Ok(text) = str::from_utf8(bytes) else {
        return Ok(String::from_str(alloc, "(no text)")?);
    };
    let mut spelled = String::from_str(alloc, text)?;
    for (name, meaning) in &NAMES {
        spelled = spelled.replace(alloc, *meaning, *name)?;
    }
    Ok(spelled)
}

/// The number of a component; for a member, in hexadecimal.
pub fn spell_id(alloc: Global, kind: Kind, id: u128) -> Result<String, AllocError> {
    match kind {
        Kind::Association | Kind::Member => format!(in alloc; "{id:032x}"),
        _ => format!(in alloc; "{id}"),
    }
}

/// The line of a row.
pub fn line_of(alloc: Global, row: &Row) -> Answer {
    let mut line = Vec::new(alloc);
    write_row(row, &mut line)?;
    spell_text(alloc, line.as_slice())
}

/// How many columns a line has after its first six.
fn count_further(line: &[u8]) -> usize {
    let tabs = line.iter().filter(|byte| **byte == b'\t').count();
    tabs.saturating_sub(5)
}

/// Reads the row of a line. A member may have any number of further columns.
pub fn read_row(alloc: Global, kind: Kind, line: &[u8]) -> Result<Row, NoAnswer> {
    let further = count_further(line);
    match parse_line(alloc, Shape { kind, further }, line) {
        Ok(row) => Ok(row),
        Err(RowFault::Line(_)) => Err(NoAnswer::NoQuestion),
        Err(RowFault::OutOfMemory) => Err(NoAnswer::OutOfMemory),
    }
}
