//! Segments, made from rows.
//!
//! A part has the rows of a segment: lines, each after its kind and the number of its import.
//! - `encoded NAME` prints the bytes of a segment in hexadecimal, 40 in each line, which have to
//!   decode to its rows, and `length NAME` how many bytes there are, or `none` if that isn't the
//!   length that is computed from its rows;
//! - `checked NAME` prints the bytes of the same segment with checksums, and `turned NAME BITS` how
//!   many of its bytes cause its refusal if these bits of that byte alone are inverted;
//! - `sum TEXT` prints the checksum of a text, which has to be the same if it is computed in two
//!   parts;
//! - `summed NAME AT TAKEN TEXT` prints the checksum of a record in which TAKEN bytes at AT are
//!   replaced by those of a text, and the result of decoding it with that checksum;
//! - `record NAME PLACE` prints the row whose record begins at this byte of the segment;
//! - `joined NAME NAME` prints how many rows the bytes of two segments decode to, or the fault;
//! - `changed NAME AT TAKEN TEXT` prints the same for a segment in which TAKEN bytes at AT are
//!   replaced by those of a text; `fitted NAME AT TAKEN TEXT` for a segment of one record, whose
//!   length field is then set to its new length: that record has to have the same fault if it is
//!   read by itself.

ghost use Rattle.std.specs.Prelude.{IsTrue, ◌≤◌, ◌++◌, ◌∷◌, []};
ghost use Rattle.std.specs.List.{AllByRecursion};
ghost use Rattle.history_model.specs.InOrder.{IsAscending};
ghost use Rattle.history_model.specs.History.{stamped_cmp};

use case_files::{Answer, NoAnswer, two_words, unquoted};
use case_values::{
    first_word, kind_of, line_of, number, or_fault, read_row, row_text, spell_hex, spell_option,
    three_words, turned,
};
use checksum::{append, crc32c};
use history_model::StampedRow;
use segment::{Form, SegmentFault, decode, encode, encoded_len, record_at};
use std::alloc::{AllocError, Global};
use std::fmt::Write;

/// Whether the row's key is greater than those of rows in key order.
fn comes_after(rows: &[StampedRow], row: &StampedRow) -> bool
    requires { IsAscending stamped_cmp rows.now }
    ensures { IsTrue result → IsAscending stamped_cmp (rows.now ++ row.now ∷ []) }
{
    match rows {
        [] => true,
        [.., last] => last.is_below(row),
    }
}

/// Whether the rows can be encoded.
fn are_in_order(rows: &[StampedRow]) -> bool
    ensures ascending { IsTrue result → IsAscending stamped_cmp rows.now }
    ensures from_one { IsTrue result → AllByRecursion (λ s. 1 ≤ s.import) rows.now }
{
    for (i, row) in rows.iter().enumerate() {
        if row.import == 0 || !comes_after(&rows[..i], row) {
            return false;
        }
    }
    true
}

/// The segment of these rows, which have to be in key order.
fn segment_of(alloc: Global, form: Form, rows: &[StampedRow]) -> Result<Vec<u8>, NoAnswer> {
    if !are_in_order(rows) {
        return Err(NoAnswer::NoQuestion);
    }
    Ok(encode(alloc, form, rows)?)
}

/// Whether these are the same rows.
fn are_same(a: &[StampedRow], b: &[StampedRow]) -> bool {
    let mut pairs = a.iter().zip(b);
    a.len() == b.len() && pairs.all(|(a, b)| a.import == b.import && a.row.is_same(&b.row))
}

/// Bytes in hexadecimal, 40 in each line.
fn spell_bytes(alloc: Global, bytes: &[u8]) -> Answer {
    let mut text = String::new(alloc);
    for line in bytes.chunks(40) {
        let digits = spell_hex(alloc, line)?;
        writeln!(text, "{digits}")?;
    }
    Ok(text.trim_end().to_string(alloc)?)
}

/// How many rows a segment has, or its fault.
fn count_rows(alloc: Global, form: Form, bytes: &[u8]) -> Answer {
    let found = decode(alloc, form, bytes);
    let told = found.map(|rows| Ok(format!(in alloc; "{} rows", rows.len())?));
    or_fault(alloc, told)
}

/// The row whose record begins at this byte, its import, and where the next record begins.
fn spell_record(alloc: Global, bytes: &[u8], place: usize) -> Answer {
    match record_at(alloc, Form::Plain, bytes, place) {
        Ok((stamped, next)) => {
            let line = line_of(alloc, &stamped.row)?;
            Ok(format!(in alloc;
                "{line} of import {}, the next one at {next}",
                stamped.import
            )?)
        }
        Err(fault) => Ok(format!(in alloc; "{fault:?}")?),
    }
}

/// Replaces some of the bytes by others: `AT TAKEN TEXT`.
fn changed(alloc: Global, bytes: &[u8], words: &str) -> Result<Vec<u8>, NoAnswer> {
    let (at, taken, put) = three_words(words)?;
    let (front, rest) = split(bytes, number(at)?)?;
    let (_, rest) = split(rest, number(taken)?)?;
    let front = joined(alloc, front, &unquoted(alloc, put)?)?;
    Ok(joined(alloc, &front, rest)?)
}

/// The bytes before a position, and those from it on.
fn split(bytes: &[u8], at: usize) -> Result<(&[u8], &[u8]), NoAnswer> {
    bytes.split_at_checked(at).ok_or(NoAnswer::NoQuestion)
}

/// The record with its length field set to its actual length.
fn with_length(alloc: Global, record: &[u8]) -> Result<Vec<u8>, NoAnswer> {
    let (_, fields) = split(record, 4)?;
    let length = u32::try_from(record.len()).ok();
    let length = length.ok_or(NoAnswer::NoQuestion)?.to_be_bytes();
    Ok(joined(alloc, &length, fields)?)
}

/// The bytes of both, one after the other.
pub fn joined(alloc: Global, front: &[u8], rest: &[u8]) -> Result<Vec<u8>, AllocError> {
    let mut bytes = front.to_vec(alloc)?;
    bytes.extend_from_slice(rest)?;
    Ok(bytes)
}

/// The checksum of bytes, which has to be the same if it is computed in two parts, wherever they
/// are split.
fn spell_sum(alloc: Global, bytes: &[u8]) -> Answer {
    let sum = crc32c(bytes);
    for at in 0..bytes.len() {
        let (front, rest) = split(bytes, at)?;
        if append(crc32c(front), rest) != sum {
            return Ok(format!(in alloc; "another one in two parts, from {at} on")?);
        }
    }
    Ok(format!(in alloc; "{sum:08x}")?)
}

/// How many bytes of a segment cause its refusal if these bits of that byte alone are inverted.
fn count_turned(alloc: Global, bytes: &[u8], bits: u8) -> Answer {
    let mut refused: usize = 0;
    for place in 0..bytes.len() {
        let changed = turned(alloc, bytes, place, bits)?;
        if let Err(SegmentFault::BadSegment) = decode(alloc, Form::Checked, &changed) {
            refused = refused.saturating_add(1);
        }
    }
    Ok(format!(in alloc; "{refused} of {} refused", bytes.len())?)
}

/// The checksum of a record's fields, and the result of decoding the record with this checksum.
fn spell_summed(alloc: Global, record: &[u8]) -> Answer {
    let (_, fields) = split(record, 4)?;
    let sum = crc32c(fields);
    let rows = count_rows(
        alloc,
        Form::Checked,
        &joined(alloc, &sum.to_be_bytes(), fields)?,
    )?;
    Ok(format!(in alloc; "{sum:08x}, {rows}")?)
}

/// A row of a segment.
#[derive(Drop)]
pub struct Given {
    name: String,
    stamped: StampedRow,
}

/// Reads a row of the segment with this name.
pub fn read_given(alloc: Global, name: &str, word: &str, rest: &str) -> Result<Given, NoAnswer> {
    let (import, line) = first_word(rest)?;
    let line = row_text(alloc, line)?;
    let row = read_row(alloc, kind_of(word)?, line.as_bytes())?;
    let import = number(import)?;
    let name = String::from_str(alloc, name)?;
    let stamped = StampedRow { row, import };
    Ok(Given { name, stamped })
}

/// The rows of a segment; `nothing` has none.
fn rows_of(alloc: Global, given: &[Given], name: &str) -> Result<Vec<StampedRow>, NoAnswer> {
    let mut rows = Vec::new(alloc);
    for Given { name: own, stamped } in given {
        if own.as_str() == name {
            rows.push(stamped.try_clone(alloc)?)?;
        }
    }
    if rows.is_empty() && name != "nothing" {
        return Err(NoAnswer::NoQuestion);
    }
    Ok(rows)
}

/// The result of decoding a changed record whose length field is set to its new length.
fn spell_fitted(alloc: Global, bytes: &[u8]) -> Answer {
    let record = with_length(alloc, bytes)?;
    let found = count_rows(alloc, Form::Plain, &record)?;
    let alone = spell_record(alloc, &record, 0)?;
    if found.as_str() == "1 rows" || alone == found {
        return Ok(found);
    }
    Ok(format!(in alloc; "{found}, and by itself {alone}")?)
}

/// Answers a question about segments.
pub fn answer(alloc: Global, given: &[Given], word: &str, rest: &str) -> Answer {
    if word == "sum" {
        return spell_sum(alloc, &unquoted(alloc, rest)?);
    }
    let (name, words) = two_words(rest);
    let form = match word {
        "checked" | "turned" => Form::Checked,
        _ => Form::Plain,
    };
    let rows = rows_of(alloc, given, name)?;
    let bytes = segment_of(alloc, form, &rows)?;
    match word {
        "encoded" | "checked" if words.is_empty() => match decode(alloc, form, &bytes) {
            Ok(found) if are_same(&found, &rows) => spell_bytes(alloc, &bytes),
            _ => Ok(String::from_str(alloc, "other rows")?),
        },
        "length" if words.is_empty() => {
            let (length, counted) = (bytes.len() as u64, encoded_len(&rows));
            spell_option(alloc, (length == counted).then_some(length))
        }
        "record" => spell_record(alloc, &bytes, number(words)?),
        "turned" => count_turned(alloc, &bytes, number(words)?),
        "joined" => {
            let more = segment_of(alloc, form, &rows_of(alloc, given, words)?)?;
            count_rows(alloc, form, &joined(alloc, &bytes, &more)?)
        }
        "changed" => count_rows(alloc, form, &changed(alloc, &bytes, words)?),
        "fitted" => spell_fitted(alloc, &changed(alloc, &bytes, words)?),
        "summed" => spell_summed(alloc, &changed(alloc, &bytes, words)?),
        _ => Err(NoAnswer::NoQuestion),
    }
}
