//! What a store reports, besides its replies to lines, and calls that no line makes.
//!
//! - `imports`, `rows`, `segments`, `layout`, `blocks`, `left`, `closed` and `latest` print what
//!   the store reports: `layout` is the number of its layout, `blocks` how many blocks of the disk
//!   it needs, `left` how many rows of a merge are left, `closed` whether it has to be opened
//!   again, and `latest` its latest day;
//! - `step ROWS` merges up to ROWS rows, also 0, and prints how many are left, and `trim` prints
//!   how many bytes it cuts off;
//! - `unspelled LINE` asks for rows that no line can spell: the question of a line of the protocol
//!   with the limit 0, or, if it has no limit, about concepts. It prints how many rows are found;
//! - `contradictions LIMIT RELEASE` prints how many contradictions of a release there are besides
//!   the listed ones, and then a line for each listed one: its file, its line and its row, and
//!   where the other row is and what that row is.
//!
//! A refusal is printed as its number and Rust's debug text of it; `refusals` prints them all.

use case_files::{Answer, NoAnswer};
use case_values::{line_of, number, spell_number, spell_option};
use history_store::{Damage, Refusal};
use import_check::{ContradictingLine, OtherRow, Release};
use line_commands::{Command, parse};
use question_model::{Question, RowQuestion};
use rf2_rows::{Kind, LineFault};
use std::alloc::Global;
use test_support::Example;

/// Each refusal; of those that have a part or a position, one example.
const REFUSALS: [Refusal; 17] = [
    Refusal::OutOfMemory,
    Refusal::DiskFault,
    Refusal::ReopenNeeded,
    Refusal::NotEmpty,
    Refusal::Full,
    Refusal::TooManySegments,
    Refusal::NotAStore,
    Refusal::Damaged,
    Refusal::Unreadable(Damage::Segment(3)),
    Refusal::NothingToMerge,
    Refusal::MergeBusy,
    Refusal::NoMerge,
    Refusal::MergeUnfinished,
    Refusal::CountSpent,
    Refusal::LaterVersion,
    Refusal::NotKept,
    Refusal::Contradiction { file: 1, line: 2 },
];

/// The faults of a line of a release.
const FAULTS: [LineFault; 12] = [
    LineFault::LineLength,
    LineFault::NotUtf8,
    LineFault::Header,
    LineFault::Columns,
    LineFault::Id,
    LineFault::Partition,
    LineFault::Time,
    LineFault::Active,
    LineFault::Reference,
    LineFault::Number,
    LineFault::MemberId,
    LineFault::EmptyText,
];

/// The answer `done`.
pub fn done(alloc: Global) -> Answer {
    Ok(String::from_str(alloc, "done")?)
}

/// A refusal.
pub fn spell_refusal(alloc: Global, refusal: Refusal) -> Answer {
    Ok(format!(in alloc; "refused {} {refusal:?}", refusal.code())?)
}

/// All refusals, one on each line.
pub fn all_refusals(alloc: Global) -> Answer {
    let mut text = String::new(alloc);
    let (file, line) = (1, 2);
    let faults = FAULTS.iter();
    let faults = faults.map(|fault| Refusal::Line {
        file,
        line,
        fault: *fault,
    });
    for refusal in REFUSALS.iter().copied().chain(faults) {
        text.push_str(spell_refusal(alloc, refusal)?.as_str())?;
        text.push('\n')?;
    }
    text.pop();
    Ok(text)
}

/// Whether an answer is a refusal, by a call or in a reply.
pub fn is_refused(answer: &str) -> bool {
    answer.starts_with("refused ") || answer.starts_with("ERR ")
}

/// Whether an answer is the refusal with this number and name.
pub fn is_refusal(answer: &str, refusal: &str) -> bool {
    is_refused(answer) && answer.ends_with(refusal)
}

/// What a store reports: a number, or `none`.
fn show(alloc: Global, store: &Example, word: &str) -> Answer {
    let number = match word {
        "imports" => Some(u64::from(store.imports())),
        "rows" => Some(store.row_count()),
        "segments" => Some(u64::from(store.segments())),
        "layout" => Some(u64::from(store.layout_number())),
        "blocks" => Some(store.blocks_in_use()),
        "left" => store.merge_left(),
        "closed" => Some(u64::from(store.needs_reopen())),
        "latest" => store.latest_time().map(|day| u64::from(day)),
        _ => return Err(NoAnswer::NoQuestion),
    };
    spell_option(alloc, number)
}

/// Gives a question the limit 0, or asks it about concepts, unless it is about one row.
fn unspell(question: &mut RowQuestion<'_>) -> Result<(), NoAnswer> {
    match question {
        RowQuestion::Page { limit, .. }
        | RowQuestion::Delta { limit, .. }
        | RowQuestion::Terms { limit, .. }
        | RowQuestion::Search { limit, .. } => *limit = 0,
        RowQuestion::About { kind, .. } | RowQuestion::Timeline { kind, .. } => {
            *kind = Kind::Concept;
        }
        _ => return Err(NoAnswer::NoQuestion),
    }
    Ok(())
}

/// How many rows are found that no line asks for.
fn count_unspelled(alloc: Global, store: &mut Example, line: &str) -> Answer {
    let Ok(request) = parse(line.as_bytes()) else {
        return Err(NoAnswer::NoQuestion);
    };
    let Command::At {
        number,
        question: Question::ForRows(mut question),
    } = request.command
    else {
        return Err(NoAnswer::NoQuestion);
    };
    unspell(&mut question)?;
    match store.count(&question, number) {
        Some(Ok(count)) => Ok(format!(in alloc; "{count} rows")?),
        Some(Err(refusal)) => spell_refusal(alloc, refusal),
        None => Err(NoAnswer::NoQuestion),
    }
}

/// A contradiction, on a new line.
fn spell_contradiction(alloc: Global, store: &Example, found: &ContradictingLine) -> Answer {
    let (file, line) = (found.line.file, found.line.line);
    let row = line_of(alloc, &found.line.row)?;
    let other = line_of(alloc, found.other.row())?;
    let source = match &found.other {
        OtherRow::Known(row) => {
            let import = store.import_of(row.key()).ok_or(NoAnswer::NoQuestion)?;
            format!(in alloc; "import {import}")?
        }
        OtherRow::Line(first) => format!(in alloc; "file {}, line {}", first.file, first.line)?,
    };
    Ok(format!(in alloc; "\nfile {file}, line {line}: {row} but {source} has {other}")?)
}

/// The contradictions of a release, or why they can't be listed.
pub fn ask_contradictions(
    alloc: Global,
    store: &mut Example,
    limit: usize,
    release: Release,
) -> Answer {
    match store.contradictions(release, limit) {
        Ok(found) => {
            let mut text = format!(in alloc; "{} further", found.further)?;
            for contradiction in &found.listed {
                text.push_str(spell_contradiction(alloc, store, contradiction)?.as_str())?;
            }
            Ok(text)
        }
        Err(refusal) => spell_refusal(alloc, refusal),
    }
}

/// Makes a call, or prints what the store reports.
pub fn call(alloc: Global, store: &mut Example, word: &str, words: &str) -> Answer {
    let count = match (word, words) {
        ("step", rows) => store.merge_step(number(rows)?),
        ("trim", "") => store.trim(),
        ("unspelled", line) => return count_unspelled(alloc, store, line),
        (_, "") => return show(alloc, store, word),
        _ => return Err(NoAnswer::NoQuestion),
    };
    match count {
        Ok(count) => spell_number(alloc, count),
        Err(refusal) => spell_refusal(alloc, refusal),
    }
}
