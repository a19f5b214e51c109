//! Messages for people, on standard error: why something was refused, in addition to the ERR line
//! that programs read.

use crate::contradicting::CONTRADICTION;
use crate::differing::find_other;
use crate::endings::Ending;
use crate::host::Host;
use history_store::Refusal;
use import_check::ReleaseFile;
use line_server::{LineRefusal, ServeFault};
use rf2_values::EffectiveTime;
use shown_names::Shown;
use std::io::{self, Write};
use store_image::Damage;

/// What the number of a refusal means.
pub(crate) fn meaning(code: usize) -> &'static str {
    match code {
        1 => "memory ran out",
        3 => "the store has to be opened again",
        4 => "the file isn't empty",
        5 => {
            "no free place in the store's 16 GiB is long enough for the segment, or that would \
reach 4 GiB"
        }
        6 => "there are too many segments; merge, and import again",
        7 => "the file is no store",
        8 => "the store is damaged; restore your copy",
        13 => "import numbers or epochs ran out",
        14 => "a copy's layout can't be lower than that of its store",
        20 => "a line is over 65,535 bytes",
        21 => "it isn't UTF-8",
        22 => "the first line isn't the column names of its kind",
        23 => "the line hasn't as many columns as the first line of its file",
        24 => "the first column is no SCTID",
        25 => "the id is an SCTID of another kind",
        26 => "effectiveTime is no date of eight digits",
        27 => "active is neither 0 nor 1",
        28 => "a column isn't an SCTID that may stand there",
        29 => "relationshipGroup is no number up to 4,294,967,295",
        30 => "the id of a member of a reference set is no UUID",
        31 => "a language code, a term or a value is empty",
        32 => "the row differs from another one of the same id and date",
        // Of a line that a task asks, the name of a release alone can be too long.
        40 | 43 => {
            "a release's name is ASCII letters, digits, _, - and ., in parts with one / between \
them; no part is . or .., and it has at most 1,024 bytes"
        }
        44 => "the store has fewer imports",
        _ => "it was refused",
    }
}

/// What else may be the reason why a store's directory can't be read.
const UPGRADED: &str = " (or, if `sctd upgrade` of an older program was ever used on it, copy it \
with the `sctd copy` of that program)";

/// What a message about the end of a task says of the store: its name, and the system error of its
/// file.
#[derive(Clone, Copy)]
pub(crate) struct Context<'a> {
    /// The name of the store: the path of its file.
    pub store: &'a str,
    /// The system error of the last call on the file that failed, if one has failed.
    pub last_error: Option<io::Error>,
}

/// Prints the last system error on the store's file, even if no task was refused, since `serve`
/// continues after an `ERR 2`. If there was none, prints why the task was refused, unless that was
/// printed already.
pub(crate) fn tell_why<E: Write>(
    ended: Result<Ending, ServeFault>,
    context: &Context<'_>,
    faults: &mut E,
) {
    let store = Shown(context.store.as_bytes());
    let _ = match (context.last_error, ended) {
        (Some(error), _) => writeln!(faults, "sctd: {store}: {error}"),
        (None, Ok(Ending::Refused(refusal))) => write_refusal(refusal, store, faults),
        (None, _) => Ok(()),
    };
}

/// Writes why a task on the disk of this name was refused, or its last system error.
pub(crate) fn tell_end<H: Host, E: Write>(
    host: &H,
    path: &str,
    ended: Result<Ending, ServeFault>,
    disk: &H::Disk,
    faults: &mut E,
) {
    let context = Context {
        store: path,
        last_error: host.last_error(disk),
    };
    tell_why(ended, &context, faults);
}

/// Figures about an open store, for people: its layout, how many blocks it needs, and the greatest
/// effective time of a row.
#[derive(Clone, Copy)]
pub(crate) struct Figures {
    /// The layout: 1, 2 or 3.
    pub layout: u32,
    /// How many blocks of 4,096 bytes the store needs.
    pub blocks: u64,
    /// The greatest effective time of a row, if there is a row.
    pub latest: Option<EffectiveTime>,
}

/// Prints a store's figures, and the length of its file.
pub(crate) fn tell_figures<E: Write>(
    store: &str,
    figures: Figures,
    size: Option<u64>,
    faults: &mut E,
) {
    let _ = write_figures(store, figures, size, faults);
}

/// Writes the figures as a line.
fn write_figures<E: Write>(
    store: &str,
    figures: Figures,
    size: Option<u64>,
    faults: &mut E,
) -> io::Result<()> {
    let name = Shown(store.as_bytes());
    write!(faults, "sctd: {name}: layout {}", figures.layout)?;
    if let Some(bytes) = size {
        write!(faults, ", {bytes} bytes")?;
    }
    write!(faults, ", {} blocks in use", figures.blocks)?;
    if let Some(latest) = figures.latest {
        let day = latest.value();
        write!(faults, ", latest effective time {day}")?;
    }
    writeln!(faults)
}

/// Prints how many segments a store has, after a merge.
pub(crate) fn tell_segments<E: Write>(store: &str, segments: u32, faults: &mut E) {
    let name = Shown(store.as_bytes());
    let _ = writeln!(faults, "sctd: {name}: segments left: {segments}");
}

/// Writes why a task on a store was refused, if that wasn't written before.
fn write_refusal<E: Write>(
    refusal: LineRefusal,
    store: Shown<'_>,
    faults: &mut E,
) -> io::Result<()> {
    if let LineRefusal::Store(Refusal::Unreadable(damage)) = refusal {
        let also = if damage == Damage::Directory {
            UPGRADED
        } else {
            ""
        };
        return writeln!(
            faults,
            "sctd: {store}: the store is damaged: {damage}; restore your copy{also}"
        );
    }
    let code = usize::from(refusal.code());
    let why = meaning(code);
    match code {
        // The reason was printed when the file, the folder or the release was read.
        2 | 20..=32 | 45 => Ok(()),
        40 | 43 => writeln!(faults, "sctd: {why}"),
        _ => writeln!(faults, "sctd: {store}: {why}"),
    }
}

/// Whether a line of the release was refused.
pub(crate) fn is_about_row(refusal: Refusal) -> bool {
    matches!(
        refusal,
        Refusal::Line { .. } | Refusal::Contradiction { .. }
    )
}

/// Prints which line of a release was refused and why, if a line was. Files that are no longer in
/// memory are identified by their numbers.
pub(crate) fn tell_row<E: Write>(files: &[ReleaseFile], refusal: Refusal, faults: &mut E) {
    let _ = match refusal {
        Refusal::Line { file, line, .. } => {
            let why = meaning(usize::from(refusal.code()));
            write_line(files, file, line, why, faults)
        }
        Refusal::Contradiction { file, line } => write_contradiction(files, file, line, faults),
        _ => Ok(()),
    };
}

/// Writes why a line was refused.
fn write_line<E: Write>(
    files: &[ReleaseFile],
    file: usize,
    line: usize,
    why: &str,
    faults: &mut E,
) -> io::Result<()> {
    write!(faults, "sctd: ")?;
    write_place(files, file, line, faults)?;
    writeln!(faults, ": {why}")
}

/// Writes which row was refused, and from which other one it differs.
fn write_contradiction<E: Write>(
    files: &[ReleaseFile],
    file: usize,
    line: usize,
    faults: &mut E,
) -> io::Result<()> {
    let why = meaning(CONTRADICTION);
    write!(faults, "sctd: ")?;
    write_place(files, file, line, faults)?;
    match find_other(files, file, line) {
        Some((other, at)) => {
            write!(faults, ": {why}: ")?;
            write_place(files, other, at, faults)?;
            writeln!(faults)
        }
        None if files.is_empty() => writeln!(faults, ": {why}"),
        None => writeln!(faults, ": {why}: one that the store has"),
    }
}

/// Writes a line's number and the name of its file, or the file's number, counted from 1, if the
/// name isn't known.
pub(crate) fn write_place<E: Write>(
    files: &[ReleaseFile],
    file: usize,
    line: usize,
    faults: &mut E,
) -> io::Result<()> {
    match files.get(file.wrapping_sub(1)) {
        Some(found) => {
            let name = Shown(found.name.as_bytes());
            write!(faults, "{name}, line {line}")
        }
        None => write!(faults, "file {file}, line {line}"),
    }
}
