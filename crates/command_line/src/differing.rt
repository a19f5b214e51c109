//! Finds the other row of a contradiction in the release.

use import_check::ReleaseFile;

/// Finds the first row of a release that has the same kind, id and date as a refused row, and
/// differs from it. The refused row is given by its file and its line, both counted from 1; so is
/// the row that is returned.
pub(crate) fn find_other(
    files: &[ReleaseFile],
    file: usize,
    line: usize,
) -> Option<(usize, usize)> {
    let refused = files.get(file.wrapping_sub(1))?;
    let row = line_of(&refused.bytes, line)?;
    for (i, other) in files.iter().enumerate() {
        if other.kind as u8 == refused.kind as u8
            && let Some(line) = find_in(&other.bytes, row)
        {
            return Some((i.wrapping_add(1), line));
        }
    }
    None
}

/// The line with this number of a file, counted from 1, without its end.
fn line_of(bytes: &[u8], line: usize) -> Option<&[u8]> {
    let found = bytes
        .split(|byte| *byte == b'\n')
        .nth(line.wrapping_sub(1))?;
    Some(without_end(found))
}

/// The number of the first line of a file, after its column names, that contradicts a row.
fn find_in(bytes: &[u8], row: &[u8]) -> Option<usize> {
    let at = bytes
        .split(|byte| *byte == b'\n')
        .skip(1)
        .position(|line| contradicts(without_end(line), row))?;
    Some(at.wrapping_add(2))
}

/// Whether a line has a row's id and date, and differs from it.
fn contradicts(line: &[u8], row: &[u8]) -> bool {
    line != row && key_of(line) == key_of(row)
}

/// The first two columns: id and date.
fn key_of(line: &[u8]) -> Option<(&[u8], &[u8])> {
    let mut columns = line.split(|byte| *byte == b'\t');
    Some((columns.next()?, columns.next()?))
}

/// The line without a CR at its end.
pub(crate) fn without_end(line: &[u8]) -> &[u8] {
    line.strip_suffix(b"\r".as_slice()).unwrap_or(line)
}
