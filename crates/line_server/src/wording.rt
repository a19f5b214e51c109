//! Builds the text of replies.

ghost use Rattle.std.specs.Prelude.{◌≡◌, ◌≤◌, ◌<◌, ◌+◌, ◌++◌, ◌∷◌, [], ℕ, List, Option, Ok, Err};
ghost use Rattle.std.specs.Prelude.{decimal, IfOk, length, codes};
ghost use Rattle.arrayvec.specs.ArrayString.{array_string_len};
ghost use Rattle.line_server.specs.ReplyValue.{Rows, Ids, Dates, Done, digits_of};
ghost use Rattle.line_server.specs.ReplyValue.{reply_value, line};
ghost use Rattle.line_server.specs.Replies.{import_words, number_or_none, receipt_of};

use crate::refusal::LineRefusal;
use crate::reply::Reply;
use arrayvec::ArrayString;
use history_store::{ImportReceipt, Receipt};
use itoa::Buffer;
use rf2_rows::{EffectiveTime, Row, write_row};
use std::alloc::{AllocError, Global};

/// A last line that begins with this word, to be continued.
fn begin_line(word: &str) -> ArrayString<128>
    requires { length word.now ≤ 3 }
    ensures bytes { result.bytes ≡ word.now }
    ensures len { array_string_len result ≡ length word.now }
{
    let mut last = ArrayString::<128>::new();
    last.push_str(word);
    last
}

/// Appends a space and a word.
fn put_word(last: &mut ArrayString<128>, word: &str)
    requires { array_string_len last.old + length word.now + 1 ≤ 128 }
    ensures bytes { last.new.bytes ≡ last.old.bytes ++ 32 ∷ word.now }
    ensures len { array_string_len last.new ≡ array_string_len last.old + length word.now + 1 }
{
    last.push_str(" ");
    last.push_str(word);
}

/// Appends a space and a number.
fn put_number(last: &mut ArrayString<128>, number: u64)
    requires { array_string_len last.old + 21 ≤ 128 }
    ensures bytes { last.new.bytes ≡ last.old.bytes ++ 32 ∷ decimal number }
    ensures len { array_string_len last.new ≤ array_string_len last.old + 21 }
{
    last.push_str(" ");
    last.push_str(Buffer::new().format(number));
}

/// Appends a space and a number, or `-` if there is none.
fn put_number_or_none(last: &mut ArrayString<128>, number: Option<u64>)
    requires { array_string_len last.old + 21 ≤ 128 }
    ensures bytes { last.new.bytes ≡ last.old.bytes ++ 32 ∷ number_or_none number }
    ensures len { array_string_len last.new ≤ array_string_len last.old + 21 }
{
    match number {
        Some(number) => put_number(last, number),
        None => put_word(last, "-"),
    }
}

/// The reply `OK` without more words. Allocates nothing.
pub fn reply_done(alloc: Global) -> Reply
    ensures { result ≡ reply_value (Ok (Done [])) }
{
    Reply::of_lines(Vec::new(alloc), begin_line("OK"))
}

/// The reply `OK` with a number.
pub(crate) fn reply_number(alloc: Global, number: u64) -> Reply
    ensures { result ≡ reply_value (Ok (Done (decimal number ∷ []))) }
{
    let mut last = begin_line("OK");
    put_number(&mut last, number);
    Reply::of_lines(Vec::new(alloc), last)
}

/// The number of a date, such as 20200131.
fn number_of_date(date: Option<EffectiveTime>) -> Option<u64>
    ensures { result ≡ date }
{
    match date {
        Some(date) => Some(u64::from(date.value())),
        None => None,
    }
}

/// The reply to an import, or to a check.
pub(crate) fn reply_import(alloc: Global, receipt: Receipt) -> Reply
    ensures { result ≡ reply_value (Ok (Done (import_words receipt))) }
{
    let mut last = begin_line("OK");
    put_number(&mut last, u64::from(receipt.number));
    put_number(&mut last, receipt.new);
    put_number(&mut last, receipt.repeated);
    Reply::of_lines(Vec::new(alloc), last)
}

/// The reply to RECEIPT.
pub(crate) fn reply_receipt(alloc: Global, number: u32, receipt: ImportReceipt) -> Reply
    ensures { result ≡ reply_value (Ok (Done (receipt_of number receipt.new receipt.latest))) }
{
    let mut last = begin_line("OK");
    put_number(&mut last, u64::from(number));
    put_number(&mut last, receipt.new);
    put_number_or_none(&mut last, number_of_date(receipt.latest));
    Reply::of_lines(Vec::new(alloc), last)
}

/// The reply to STATUS: the numbers of imports, rows and segments, and how many rows are left to a
/// merge. Allocates nothing.
pub fn reply_status(
    alloc: Global,
    imports: u32,
    rows: u64,
    segments: u32,
    left: Option<u64>,
) -> Reply
    ensures { result ≡ reply_value (Ok (Done (decimal imports ∷ decimal rows ∷ decimal segments ∷
        number_or_none left ∷ []))) }
{
    let mut last = begin_line("OK");
    put_number(&mut last, u64::from(imports));
    put_number(&mut last, rows);
    put_number(&mut last, u64::from(segments));
    put_number_or_none(&mut last, left);
    Reply::of_lines(Vec::new(alloc), last)
}

/// The reply to a refused line: `ERR`, the number, the name, and the file and line if there are
/// any. Allocates nothing.
pub fn reply_refusal(alloc: Global, refusal: LineRefusal) -> Reply
    ensures { result ≡ reply_value (Err refusal) }
{
    let mut last = begin_line("ERR");
    put_number(&mut last, u64::from(refusal.code()));
    put_word(&mut last, refusal.name());
    match refusal.place() {
        Some((file, line)) => {
            put_number(&mut last, file as u64);
            put_number(&mut last, line as u64);
            Reply::of_lines(Vec::new(alloc), last)
        }
        None => Reply::of_lines(Vec::new(alloc), last),
    }
}

/// The last line of a reply that lists rows, identifiers or dates.
fn end(count: usize) -> ArrayString<128>
    ensures bytes { result.bytes ++ 10 ∷ [] ≡ line (codes "END" ∷ decimal count ∷ []) }
    ensures short { array_string_len result < 128 }
{
    let mut last = begin_line("END");
    put_number(&mut last, count as u64);
    last
}

/// The reply that lists rows.
pub(crate) fn reply_rows(alloc: Global, rows: &[Row]) -> Result<Reply, AllocError>
    ensures { IfOk result (λ reply. reply ≡ reply_value (Ok (Rows rows.now))) }
{
    let mut body = Vec::new(alloc);
    for row in rows {
        body.extend_from_slice(b"ROW ")?;
        write_row(row, &mut body)?;
        body.push(b'\n')?;
    }
    Ok(Reply::of_lines(body, end(rows.len())))
}

/// The reply that lists identifiers.
pub(crate) fn reply_ids(alloc: Global, ids: &[u64]) -> Result<Reply, AllocError>
    ensures { IfOk result (λ reply. reply ≡ reply_value (Ok (Ids ids.now))) }
{
    let mut body = Vec::new(alloc);
    for &id in ids {
        body.extend_from_slice(b"ID ")?;
        body.extend_from_slice(Buffer::new().format(id).as_bytes())?;
        body.push(b'\n')?;
    }
    Ok(Reply::of_lines(body, end(ids.len())))
}

/// The reply with a digest, in lower-case hexadecimal digits.
pub(crate) fn reply_digest(alloc: Global, digest: [u8; 32]) -> Result<Reply, AllocError>
    ensures reply { IfOk result (λ reply. reply ≡ reply_value (Ok (digits_of digest))) }
    ensures bytes { length digest ≡ 32 }
{
    let digits = hex::encode(alloc, digest)?;
    let mut last = begin_line("OK");
    put_word(&mut last, digits.as_str());
    Ok(Reply::of_lines(Vec::new(alloc), last))
}

/// The reply that lists dates.
pub(crate) fn reply_dates(alloc: Global, dates: &[EffectiveTime]) -> Result<Reply, AllocError>
    ensures { IfOk result (λ reply. reply ≡ reply_value (Ok (Dates dates.now))) }
{
    let mut body = Vec::new(alloc);
    for &date in dates {
        body.extend_from_slice(b"DATE ")?;
        body.extend_from_slice(Buffer::new().format(date.value()).as_bytes())?;
        body.push(b'\n')?;
    }
    Ok(Reply::of_lines(body, end(dates.len())))
}
