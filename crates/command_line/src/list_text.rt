//! The text of the list of imports, which the hub writes, too.

ghost use Rattle.std.specs.Prelude.{◌≡◌, IfOk, string_bytes};
ghost use Rattle.command_line.specs.Private.Listed.{AreWholeLines, back_line, entry_line, is_list};

use bstr::ByteSlice;
use history_store::Receipt;
use std::alloc::{AllocError, Global};

/// The first line of each list.
pub(crate) const FIRST_LINE: &[u8] = b"sctd imports 1\n";

/// What a line begins with that says how many imports the store has.
const BACK: &[u8] = b"back\t";

/// What the list says of an import.
#[derive(Clone, Copy)]
pub(crate) struct Entry<'a> {
    pub receipt: Receipt,
    /// The time in UTC.
    pub time: &'a str,
    /// The name of the release.
    pub name: &'a str,
    /// The digest of the release's files in hexadecimal digits, or `-`.
    pub digest: &'a str,
    /// Who asked for the import.
    pub who: &'a str,
}

/// The line of an import.
pub(crate) fn entry_line(alloc: Global, entry: Entry<'_>) -> Result<String, AllocError>
    ensures { IfOk result (λ line. string_bytes line ≡ entry_line entry.entry.receipt
        entry.entry.time.now entry.entry.name.now entry.entry.digest.now entry.entry.who.now) }
{
    let Entry {
        receipt,
        time,
        name,
        digest,
        who,
    } = entry;
    let Receipt {
        number,
        new,
        repeated,
    } = receipt;
    let release = format!(in alloc; "{number}\t{time}\t{name}")?;
    let rows = format!(in alloc; "{new}\t{repeated}")?;
    format!(in alloc; "{release}\t{rows}\t{digest}\t{who}\n")
}

/// The line that says that the store has only so many imports.
pub(crate) fn back_line(alloc: Global, imports: u32, time: &str) -> Result<String, AllocError>
    ensures { IfOk result (λ line. string_bytes line ≡ back_line imports time.now) }
{
    format!(in alloc; "back\t{imports}\t{time}\n")
}

/// Whether a text is a list of imports, or what a cut leaves of one.
pub(crate) fn is_list(text: &[u8]) -> bool
    ensures { result ≡ is_list text.now }
{
    text.starts_with(FIRST_LINE) || FIRST_LINE.starts_with(text)
}

/// Whether a list has a line that counts for an import, and says the same of it as this line, but for
/// its time and who asked: the import was repeated.
pub(crate) fn is_listed(list: &[u8], number: u32, line: &[u8]) -> bool {
    let mut is_listed = false;
    for known in list.split(|byte| *byte == b'\n') {
        match imports_by(known) {
            Some(imports) if imports < number => is_listed = false,
            Some(imports) if imports == number && !known.starts_with(BACK) => {
                is_listed = import_in(known) == import_in(line);
            }
            _ => {}
        }
    }
    is_listed
}

/// How many imports a store had by a line of its list, if that can be read.
fn imports_by(line: &[u8]) -> Option<u32> {
    let columns = line.strip_prefix(BACK).unwrap_or(line);
    let (number, _) = columns.split_once_str(b"\t")?;
    str::from_utf8(number).ok()?.parse().ok()
}

/// What a line says of an import, without its time and who asked: its number, and the rest.
fn import_in(line: &[u8]) -> Option<(&[u8], &[u8])> {
    let (number, rest) = line.split_once_str(b"\t")?;
    let (_, rest) = rest.split_once_str(b"\t")?;
    let (import, _) = rest.rsplit_once_str(b"\t")?;
    Some((number, import))
}

/// How many bytes of a text are whole lines.
pub(crate) fn whole_lines(text: &[u8]) -> usize
    ensures { AreWholeLines text.now result }
{
    match text.rfind_byte(b'\n') {
        Some(last) => last + 1,
        None => 0,
    }
}
