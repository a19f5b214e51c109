//! Reports all contradictions of a release.

use crate::telling::{meaning, write_place};
use disk_model::Disk;
use history_store::Store;
use import_check::{ContradictingLine, Contradictions, OtherRow, ReleaseFile};
use rf2_rows::{Row, write_row};
use shown_names::Shown;
use std::alloc::{AllocError, Global};
use std::io::{self, Write};

/// The greatest number of contradictions that are reported.
pub(crate) const MOST_TOLD: usize = 1_000;

/// The number of the refusal for a row that differs from another one with the same id and date.
pub(crate) const CONTRADICTION: usize = 32;

/// The files of a release without their bytes, to keep their names for messages.
pub(crate) fn files_without_bytes(
    alloc: Global,
    files: &[ReleaseFile],
) -> Result<Vec<ReleaseFile>, AllocError> {
    let mut named = Vec::new(alloc);
    for file in files {
        named.push(ReleaseFile {
            name: String::from_str(alloc, file.name.as_str())?,
            kind: file.kind,
            bytes: Vec::new(alloc),
        })?;
    }
    Ok(named)
}

/// Reports the contradictions of a release, and how many more there are.
pub(crate) fn tell_contradictions<D: Disk, E: Write>(
    alloc: Global,
    files: &[ReleaseFile],
    found: &Contradictions,
    store: &Store<D>,
    faults: &mut E,
) {
    for one in &found.listed {
        let _ = write_one(alloc, files, one, store, faults);
    }
    if found.further > 0 {
        let _ = writeln!(faults, "sctd: and {} more contradictions", found.further);
    }
}

/// Writes where a row is, and the row from which it differs.
fn write_one<D: Disk, E: Write>(
    alloc: Global,
    files: &[ReleaseFile],
    one: &ContradictingLine,
    store: &Store<D>,
    faults: &mut E,
) -> io::Result<()> {
    write!(faults, "sctd: ")?;
    write_place(files, one.line.file, one.line.line, faults)?;
    write!(faults, ": {}: ", meaning(CONTRADICTION))?;
    match &one.other {
        OtherRow::Known(row) => write_known(alloc, row, store, faults)?,
        OtherRow::Line(first) => write_place(files, first.file, first.line, faults)?,
    }
    writeln!(faults)
}

/// Writes a row of the store, and which import brought it. The row is left out if there is no
/// memory for it.
fn write_known<D: Disk, E: Write>(
    alloc: Global,
    row: &Row,
    store: &Store<D>,
    faults: &mut E,
) -> io::Result<()> {
    match store.import_of(row.key()) {
        Some(number) => write!(faults, "import {number} brought ")?,
        None => write!(faults, "the store has ")?,
    }
    tell_known_row(alloc, row, faults)
}

/// Writes a row. It is left out if there is no memory for it.
pub(crate) fn tell_known_row<E: Write>(alloc: Global, row: &Row, faults: &mut E) -> io::Result<()> {
    let mut text = Vec::new(alloc);
    match write_row(row, &mut text) {
        Ok(()) => write!(faults, "{}", Shown(text.as_slice())),
        Err(_) => write!(faults, "the other one"),
    }
}
