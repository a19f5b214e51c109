//! Warnings about a release by its files alone, whatever a store has.

ghost use Rattle.std.specs.Prelude.{◌↔◌, IsTrue, All};
ghost use Rattle.command_line.specs.Private.Warnings.{HasRows, IsCut};

use crate::usual::warn_of_lacking;
use import_check::{Release, ReleaseFile, Scope};
use rf2_values::Kind;
use shown_names::Shown;
use std::io::Write;

/// Warns if a release has no file of concepts, descriptions or relationships, if it has concepts
/// and lacks files that nearly every such release has, if it has no row, of its files that don't
/// end with the end of a line, and of the greatest effective time of its rows, if that is known and
/// is after the day that it is today.
pub(crate) fn warn_of_files<E: Write>(
    release: &Release,
    latest: Option<u32>,
    today: Option<u32>,
    scope: Scope,
    faults: &mut E,
) {
    let files = &release.files;
    if !files.iter().any(|file| is_of_terminology(file.kind)) {
        let _ = writeln!(
            faults,
            "sctd: warning: no Concept, Description or Relationship file was taken"
        );
    }
    warn_of_lacking(files, scope, faults);
    if has_no_rows(files) {
        let _ = writeln!(faults, "sctd: warning: the release has no row");
    }
    warn_of_cut_files(files, faults);
    warn_of_late_rows(latest, today, faults);
}

/// Whether files of this kind have concepts, descriptions or relationships; those with concrete
/// values don't count. Nearly every release has such a file.
fn is_of_terminology(kind: Kind) -> bool {
    match kind {
        Kind::Concept | Kind::Description | Kind::Relationship => true,
        Kind::Association | Kind::Concrete | Kind::Member => false,
    }
}

/// Whether no file has a line after its first, which has the column names.
fn has_no_rows(files: &[ReleaseFile]) -> bool
    ensures { IsTrue result ↔ All (λ file. HasRows file.bytes.items → ⊥) files.now }
{
    files.iter().all(|file| !has_rows(&file.bytes))
}

/// Whether a file has a line after its first.
fn has_rows(bytes: &[u8]) -> bool
    ensures { IsTrue result ↔ HasRows bytes.now }
{
    bytes[..bytes.len().saturating_sub(1)].contains(&b'\n')
}

/// Whether the last line of a file has no end, so that a part of it may be missing.
fn is_cut(bytes: &[u8]) -> bool
    ensures { IsTrue result ↔ IsCut bytes.now }
{
    match bytes.last() {
        Some(last) => *last != b'\n',
        None => false,
    }
}

/// Warns of files whose last lines have no end.
fn warn_of_cut_files<E: Write>(files: &[ReleaseFile], faults: &mut E) {
    for file in files {
        if is_cut(&file.bytes) {
            let name = Shown(file.name.as_bytes());
            let _ = writeln!(
                faults,
                "sctd: warning: {name}: its last line has no end; was the file cut off?"
            );
        }
    }
}

/// Warns of rows that are dated after today.
fn warn_of_late_rows<E: Write>(latest: Option<u32>, today: Option<u32>, faults: &mut E) {
    if let (Some(latest), Some(today)) = (latest, today) {
        if latest > today {
            let _ = writeln!(
                faults,
                "sctd: warning: an effectiveTime is {latest}, and today is {today}"
            );
        }
    }
}
