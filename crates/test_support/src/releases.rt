//! The releases that cases import or check, found by name. Any two names are those of different
//! releases, which don't change.
//!
//! A part is a release: its lines, each after the kind of the file that it belongs to, as in
//! `concept 138875005|20200131|1|CORE|PRIM`. Consecutive lines of one kind make one file, and a
//! kind without a line begins another file. Members with two further columns are of the kind
//! `member+2`. A line `text KIND TEXT` is a file of this text, which is in quotes, and `below KIND
//! TEXT` one whose first line has the column names. There are also
//! - `nothing`, a release without files;
//! - `r1`, `r2` and `r3`, the samples, and `cut/BYTES`, the first file of `r1` without its last
//!   BYTES bytes;
//! - `years/FIRST/COUNT`, with versions of the root concept for COUNT years, each of the last day
//!   of January, and `term/BYTES`, with a description whose term has BYTES bytes.

use case_files::NoAnswer;
use case_values::{first_word, number, row_bytes, row_text, shape_of};
use history_store::Refusal;
use import_check::{Release, ReleaseFile, Scope};
use line_server::{Source, SourceFault};
use rf2_rows::{Kind, Shape, column_names};
use samples::sample;
use std::alloc::{AllocError, Global};

/// What a line of a release is.
#[derive(Clone, Copy, PartialEq, Eq)]
enum Sort {
    /// A row of a file, or the beginning of another file if it is empty.
    Row,
    /// A whole file.
    Text,
    /// A file after the line of its column names.
    Below,
}

/// A line of a release.
#[derive(Drop)]
struct Given {
    release: String,
    shape: Shape,
    sort: Sort,
    bytes: Vec<u8>,
}

/// The lines of all releases that were given.
#[derive(Drop)]
pub struct Releases {
    alloc: Global,
    given: Vec<Given>,
}

/// A file with these bytes.
fn file(alloc: Global, kind: Kind, bytes: Vec<u8>) -> Result<ReleaseFile, AllocError> {
    Ok(ReleaseFile {
        name: String::from_str(alloc, "example.txt")?,
        kind,
        bytes,
    })
}

/// The line of the column names of a file.
fn columns(alloc: Global, shape: Shape) -> Result<Vec<u8>, AllocError> {
    let mut bytes = column_names(shape.kind).to_vec(alloc)?;
    for number in 0..shape.further {
        let name = format!(in alloc; "\tcolumn{number}")?;
        bytes.extend_from_slice(name.as_bytes())?;
    }
    bytes.extend_from_slice(b"\r\n")?;
    Ok(bytes)
}

/// The bytes of a file that begins with this line, up to it.
fn front(alloc: Global, given: &Given) -> Result<Vec<u8>, AllocError> {
    match given.sort {
        Sort::Text => Ok(Vec::new(alloc)),
        _ => columns(alloc, given.shape),
    }
}

/// Appends a line to the last file, or to a new one.
fn put_line(
    alloc: Global,
    files: &mut Vec<ReleaseFile>,
    last: Option<Shape>,
    given: &Given,
) -> Result<(), NoAnswer> {
    if given.sort != Sort::Row || last != Some(given.shape) || given.bytes.is_empty() {
        let front = front(alloc, given)?;
        files.push(file(alloc, given.shape.kind, front)?)?;
    }
    if let Some(file) = files.last_mut() {
        file.bytes.extend_from_slice(&given.bytes)?;
        if given.sort == Sort::Row && !given.bytes.is_empty() {
            file.bytes.extend_from_slice(b"\r\n")?;
        }
    }
    Ok(())
}

/// A release of one file with these rows.
fn of_rows(alloc: Global, kind: Kind, rows: &[String]) -> Result<Release, AllocError> {
    let mut bytes = columns(alloc, Shape::of(kind))?;
    for row in rows {
        bytes.extend_from_slice(row_text(alloc, row)?.as_bytes())?;
        bytes.extend_from_slice(b"\r\n")?;
    }
    let mut files = Vec::new(alloc);
    files.push(file(alloc, kind, bytes)?)?;
    Ok(Release { files })
}

/// A release with `count` versions of the root concept, for the years from `first` on.
fn root_years(alloc: Global, first: u32, count: u32) -> Result<Release, AllocError> {
    let mut rows = Vec::new(alloc);
    for year in first..first.saturating_add(count) {
        rows.push(format!(in alloc; "138875005|{year}0131|1|CORE|PRIM")?)?;
    }
    of_rows(alloc, Kind::Concept, &rows)
}

/// A release with a description whose term has this many bytes.
fn long_term(alloc: Global, bytes: usize) -> Result<Release, AllocError> {
    let term = "a".repeat(alloc, bytes)?;
    let mut rows = Vec::new(alloc);
    rows.push(format!(in alloc; "1000015|20200131|1|CORE|1000004|de|SYN|{term}|ECI")?)?;
    of_rows(alloc, Kind::Description, &rows)
}

/// The sample with this name.
fn known(alloc: Global, name: &str) -> Result<Release, NoAnswer> {
    sample(alloc, name)?.ok_or(NoAnswer::NoQuestion)
}

/// Only the concept file of the first sample, without its last `less` bytes.
fn cut_concepts(alloc: Global, less: usize) -> Result<Release, NoAnswer> {
    let mut release = known(alloc, "r1")?;
    release.files.truncate(1);
    for file in &mut release.files {
        let left = file.bytes.len().saturating_sub(less);
        file.bytes.truncate(left);
    }
    Ok(release)
}

/// A release that the words of a name describe.
fn described(alloc: Global, word: &str, words: &str) -> Result<Release, NoAnswer> {
    match word {
        "cut" => cut_concepts(alloc, number(words)?),
        "years" => {
            let (first, count) = words.split_once('/').ok_or(NoAnswer::NoQuestion)?;
            Ok(root_years(alloc, number(first)?, number(count)?)?)
        }
        "term" => Ok(long_term(alloc, number(words)?)?),
        _ => Err(NoAnswer::NoQuestion),
    }
}

impl Releases {
    /// No releases.
    pub fn new(alloc: Global) -> Releases {
        Releases {
            alloc,
            given: Vec::new(alloc),
        }
    }

    /// Adds a line of a release.
    pub fn give(&mut self, release: &str, word: &str, rest: &str) -> Result<(), NoAnswer> {
        let release = String::from_str(self.alloc, release)?;
        let sort = match word {
            "text" => Sort::Text,
            "below" => Sort::Below,
            _ => Sort::Row,
        };
        let given = if sort == Sort::Row {
            let bytes = row_text(self.alloc, rest)?.as_bytes().to_vec(self.alloc)?;
            Given {
                release,
                shape: shape_of(word)?,
                sort,
                bytes,
            }
        } else {
            let (kind, text) = first_word(rest)?;
            Given {
                release,
                shape: shape_of(kind)?,
                sort,
                bytes: row_bytes(self.alloc, text)?,
            }
        };
        self.given.push(given)?;
        Ok(())
    }

    /// The files of the release with this name; none if there is no such release.
    fn files_of(&self, name: &str) -> Result<Vec<ReleaseFile>, NoAnswer> {
        let mut files = Vec::new(self.alloc);
        let mut last = None;
        for given in &self.given {
            if given.release.as_str() == name {
                put_line(self.alloc, &mut files, last, given)?;
                last = (given.sort == Sort::Row).then_some(given.shape);
            }
        }
        Ok(files)
    }

    /// The release with this name.
    pub fn find(&self, name: &str) -> Result<Release, NoAnswer> {
        if let Some((word, words)) = name.split_once('/') {
            return described(self.alloc, word, words);
        }
        let files = self.files_of(name)?;
        if files.is_empty() && name != "nothing" {
            return known(self.alloc, name);
        }
        Ok(Release { files })
    }
}

impl Source for Releases {
    ghost use Rattle.std.specs.Prelude.{None};

    ghost is_honest = { λ _. ⊥ };

    ghost releases = { λ _ _ _. None };

    fn release(
        &mut self,
        _alloc: Global,
        name: &str,
        _scope: Scope,
    ) -> Result<Release, SourceFault> {
        match self.find(name) {
            Ok(release) => Ok(release),
            Err(NoAnswer::NoQuestion) => Err(SourceFault::NoFolder),
            Err(NoAnswer::OutOfMemory) => Err(SourceFault::OutOfMemory),
        }
    }

    fn note_refusal(&mut self, _alloc: Global, _name: &str, _scope: Scope, _refusal: Refusal) {}
}
