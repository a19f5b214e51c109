//! Messages while a release is imported.

use import_check::{Release, ReleaseFile, Scope};
use release_folder::{Watcher, is_nearly_to_take, kind_to_take};
use rf2_values::Kind;
use shown_names::Shown;
use std::io::Write;

/// Reports which files of a release are read, and which aren't.
#[derive(Drop)]
pub(crate) struct Progress<'a, E: Write> {
    pub faults: &'a mut E,
    /// Which files of the release are read.
    pub scope: Scope,
    /// Only print messages about what may be wrong.
    pub quiet: bool,
    /// How many files weren't read that would be if the scope were the whole package.
    pub later: u64,
}

impl<E: Write> Watcher for Progress<'_, E> {
    fn reads(&mut self, name: &str) {
        if !self.quiet {
            let _ = writeln!(self.faults, "sctd: reading {name}");
        }
    }

    fn passes_over(&mut self, path: &str) {
        if is_nearly_to_take(path.as_bytes(), self.scope) {
            let _ = writeln!(
                self.faults,
                "sctd: warning: passed over {path}, whose name is nearly one to take: \
mind its case, and an x before it"
            );
        } else if is_to_take(path, self.scope) {
            let folders = folders_in(self.scope);
            let _ = writeln!(
                self.faults,
                "sctd: warning: passed over {path}, whose name is one to take: \
a release has it in {folders}"
            );
        } else {
            if is_in_place(path) && is_to_take(path, Scope::Whole) {
                self.later = self.later.saturating_add(1);
            }
            if !self.quiet {
                let _ = writeln!(self.faults, "sctd: passed over {path}");
            }
        }
    }
}

/// The folders of a release in which files are read.
fn folders_in(scope: Scope) -> &'static str {
    match scope {
        Scope::Basic => "Terminology or Refset/Content",
        Scope::Whole => "Terminology or a folder of Refset",
    }
}

/// Whether a file has the name of a release file. If such a file isn't read, it is in another
/// folder.
fn is_to_take(path: &str, scope: Scope) -> bool {
    let name = match path.rsplit_once('/') {
        Some((_, name)) => name,
        None => path,
    };
    kind_to_take(name.as_bytes(), scope).is_some()
}

/// Whether a file is in a folder that is read if the scope is the whole package.
fn is_in_place(path: &str) -> bool {
    match path.rsplit_once('/') {
        Some((folder, _)) => match folder.split_once('/') {
            Some((above, name)) => above == "Refset" && !name.contains('/'),
            None => folder == "Terminology",
        },
        None => false,
    }
}

/// Reports that files of a release weren't read that would be if the scope were the whole package,
/// and what to do to import them.
pub(crate) fn tell_later<E: Write>(later: u64, quiet: bool, faults: &mut E) {
    if later > 0 && !quiet {
        let _ = writeln!(
            faults,
            "sctd: passed over {later} of its files, of text definitions and reference sets: a \
store keeps them from layout 3 on; sctd copy --layout 3, and import the release again"
        );
    }
}

/// Prints which files of a release were read.
pub(crate) fn tell_taken<E: Write>(release: &Release, faults: &mut E) {
    for file in &release.files {
        let name = Shown(file.name.as_bytes());
        let (kind, rows) = (word_of(file.kind), rows_of(file));
        let _ = writeln!(faults, "sctd: took {name}: {kind}, rows: {rows}");
    }
}

/// How many lines a file has after its first, which has the column names.
fn rows_of(file: &ReleaseFile) -> usize {
    let ends = file.bytes.iter().filter(|byte| **byte == b'\n').count();
    match file.bytes.last() {
        Some(b'\n') => ends.saturating_sub(1),
        _ => ends,
    }
}

/// The name of a kind in messages.
fn word_of(kind: Kind) -> &'static str {
    match kind {
        Kind::Concept => "Concept",
        Kind::Description => "Description",
        Kind::Relationship => "Relationship",
        Kind::Association => "Association",
        Kind::Concrete => "RelationshipConcreteValues",
        Kind::Member => "Refset",
    }
}
