//! Questions about the rows that the first PIN imports show: `at PIN`, and one of these.
//!
//! `get KIND ID DATE` asks for the component's row at the date, `versions KIND ID`, `replacements
//! ID DATE`, `replaces ID DATE`, `about KIND ID DATE`, `timeline KIND ID`, `page KIND DATE AFTER
//! LIMIT`, `delta KIND FROM DATE AFTER LIMIT`, `members REFSET DATE AFTER LIMIT`, `values REFSET
//! DATE AFTER LIMIT`, `called ID DATE REFSET`, `terms DATE LIMIT "PREFIX"`, `search DATE AFTER LIMIT
//! "PREFIX"` and `words DATE TYPE OFFSET LIMIT "TEXT"` ask for rows, `children ID DATE`,
//! `descendants ID DATE` and `ancestors ID DATE` for identifiers, as `sources TYPE ID DATE AFTER
//! LIMIT` does, and `dates` for days. `rows KIND ID DATE LIMIT` asks for all rows of a kind behind a
//! key. AFTER is a number or `-`, as are TYPE and both ID and DATE of a key.

use crate::words::{above, day_of, kind_of, number, sctid_of};
use case_files::NoAnswer;
use rf2_rows::{EffectiveTime, Key, Kind, Sctid};
use std::alloc::Global;

/// A question, without the prefix or the text that it searches for.
#[derive(Clone, Copy)]
pub enum Question {
    Get(Kind, u128, EffectiveTime),
    Versions(Kind, u128),
    Replacements(Sctid, EffectiveTime),
    Replaces(Sctid, EffectiveTime),
    About(Kind, Sctid, EffectiveTime),
    Timeline(Kind, Sctid),
    Page(Kind, EffectiveTime, Option<u128>, u32),
    Delta(Kind, EffectiveTime, EffectiveTime, Option<u128>, u32),
    Members(Sctid, EffectiveTime, Option<u128>, u32),
    Values(Sctid, EffectiveTime, Option<u64>, u32),
    Called(Sctid, EffectiveTime, Sctid),
    Terms(EffectiveTime, u32),
    Search(EffectiveTime, Option<u128>, u32),
    Words(EffectiveTime, Option<Sctid>, u32, u32),
    Children(Sctid, EffectiveTime),
    Descendants(Sctid, EffectiveTime),
    Ancestors(Sctid, EffectiveTime),
    Sources(Option<Sctid>, Sctid, EffectiveTime, Option<u64>, u32),
    AllRows(Kind, Option<Key>, u32),
    Dates,
}

/// Reads a question about a component at a date.
fn ask_of_component(word: &str, words: &[&str]) -> Result<Question, NoAnswer> {
    let [id, date] = words else {
        return Err(NoAnswer::NoQuestion);
    };
    let (id, date) = (sctid_of(*id)?, day_of(*date)?);
    match word {
        "replacements" => Ok(Question::Replacements(id, date)),
        "replaces" => Ok(Question::Replaces(id, date)),
        "descendants" => Ok(Question::Descendants(id, date)),
        "ancestors" => Ok(Question::Ancestors(id, date)),
        _ => Ok(Question::Children(id, date)),
    }
}

/// Reads a question about a component of a kind, at a date or at all dates.
fn ask_of_kind(word: &str, words: &[&str]) -> Result<Question, NoAnswer> {
    match (word, words) {
        ("get", [kind, id, date]) => {
            Ok(Question::Get(kind_of(*kind)?, number(*id)?, day_of(*date)?))
        }
        ("about", [kind, id, date]) => {
            Ok(Question::About(kind_of(*kind)?, sctid_of(*id)?, day_of(*date)?))
        }
        ("timeline", [kind, id]) => Ok(Question::Timeline(kind_of(*kind)?, sctid_of(*id)?)),
        ("versions", [kind, id]) => Ok(Question::Versions(kind_of(*kind)?, number(*id)?)),
        _ => Err(NoAnswer::NoQuestion),
    }
}

/// Reads a question for the first rows of a kind.
fn ask_for_page(words: &[&str]) -> Result<Question, NoAnswer> {
    let [kind, date, after, limit] = words else {
        return Err(NoAnswer::NoQuestion);
    };
    let (kind, date) = (kind_of(*kind)?, day_of(*date)?);
    Ok(Question::Page(kind, date, above(*after)?, number(*limit)?))
}

/// Reads a question for the first rows of a kind that changed from one date to another.
fn ask_for_delta(words: &[&str]) -> Result<Question, NoAnswer> {
    let [kind, from, date, after, limit] = words else {
        return Err(NoAnswer::NoQuestion);
    };
    let (kind, from, date) = (kind_of(*kind)?, day_of(*from)?, day_of(*date)?);
    let (after, limit) = (above(*after)?, number(*limit)?);
    Ok(Question::Delta(kind, from, date, after, limit))
}

/// Reads a question about a reference set.
fn ask_of_refset(word: &str, words: &[&str]) -> Result<Question, NoAnswer> {
    match (word, words) {
        ("members", [refset, date, after, limit]) => {
            let (refset, date) = (sctid_of(*refset)?, day_of(*date)?);
            Ok(Question::Members(refset, date, above(*after)?, number(*limit)?))
        }
        ("values", [refset, date, after, limit]) => {
            let (refset, date) = (sctid_of(*refset)?, day_of(*date)?);
            Ok(Question::Values(refset, date, above(*after)?, number(*limit)?))
        }
        ("called", [id, date, refset]) => {
            Ok(Question::Called(sctid_of(*id)?, day_of(*date)?, sctid_of(*refset)?))
        }
        _ => Err(NoAnswer::NoQuestion),
    }
}

/// Reads a type, or `-` for any type.
fn type_of(word: &str) -> Result<Option<Sctid>, NoAnswer> {
    match word {
        "-" => Ok(None),
        word => Ok(Some(sctid_of(word)?)),
    }
}

/// Reads a question for descriptions by the words of their terms.
fn ask_for_words(words: &[&str]) -> Result<Question, NoAnswer> {
    let [date, wanted_type, offset, limit] = words else {
        return Err(NoAnswer::NoQuestion);
    };
    let (date, wanted_type) = (day_of(*date)?, type_of(*wanted_type)?);
    Ok(Question::Words(date, wanted_type, number(*offset)?, number(*limit)?))
}

/// Reads a question for the sources of relationships.
fn ask_for_sources(words: &[&str]) -> Result<Question, NoAnswer> {
    let [type_id, id, date, after, limit] = words else {
        return Err(NoAnswer::NoQuestion);
    };
    let type_id = type_of(*type_id)?;
    let (id, date) = (sctid_of(*id)?, day_of(*date)?);
    Ok(Question::Sources(type_id, id, date, above(*after)?, number(*limit)?))
}

/// Reads a question for all rows of a kind.
fn ask_for_rows(words: &[&str]) -> Result<Question, NoAnswer> {
    let [kind, id, day, limit] = words else {
        return Err(NoAnswer::NoQuestion);
    };
    let kind = kind_of(*kind)?;
    let after = match (*id, *day) {
        ("-", "-") => None,
        (id, day) => Some(Key {
            id: number(id)?,
            time: day_of(day)?,
            kind,
        }),
    };
    Ok(Question::AllRows(kind, after, number(*limit)?))
}

/// Reads a question for descriptions.
fn ask_for_terms(words: &[&str]) -> Result<Question, NoAnswer> {
    match words {
        [date, limit] => Ok(Question::Terms(day_of(*date)?, number(*limit)?)),
        [date, after, limit] => {
            Ok(Question::Search(day_of(*date)?, above(*after)?, number(*limit)?))
        }
        _ => Err(NoAnswer::NoQuestion),
    }
}

/// Reads a question from its words.
fn question_of(word: &str, words: &[&str]) -> Result<Question, NoAnswer> {
    match (word, words.len()) {
        ("replacements" | "replaces", _) => ask_of_component(word, words),
        ("children" | "descendants" | "ancestors", _) => ask_of_component(word, words),
        ("page", _) => ask_for_page(words),
        ("delta", _) => ask_for_delta(words),
        ("members" | "values" | "called", _) => ask_of_refset(word, words),
        ("sources", _) => ask_for_sources(words),
        ("words", _) => ask_for_words(words),
        ("rows", _) => ask_for_rows(words),
        ("dates", 0) => Ok(Question::Dates),
        ("terms", 2) | ("search", 3) => ask_for_terms(words),
        _ => ask_of_kind(word, words),
    }
}

/// Reads a question from a text.
pub fn read_question(alloc: Global, text: &str) -> Result<Question, NoAnswer> {
    let words: Vec<&str> = text.split(' ').collect(alloc)?;
    match words.as_slice() {
        [word, words @ ..] => question_of(*word, words),
        [] => Err(NoAnswer::NoQuestion),
    }
}
