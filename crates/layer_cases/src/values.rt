//! Identifiers, days, members, keys, rows made from columns, and file names as they are printed;
//! counts of faults, and the order of shrinking lists.
//!
//! - `sctid TEXT` prints the class of the identifier in a text, `sctid_of NUMBER` the identifier
//!   with a number, `time TEXT` the number of the day in a text, and `member TEXT` that of the
//!   member, in hexadecimal; each prints `none` if there is none, or if what has the number that
//!   was read is another one;
//! - `further TEXT` prints how many further columns of a member the text has, or `none`;
//! - `below KIND ID DAY < KIND ID DAY` prints whether the first key is less by `compare`, `<` and
//!   `==`, also with the keys swapped, and each equal to itself;
//! - `bytes_of a key` prints how many bytes a key takes in memory;
//! - `shown TEXT` prints a file name as the program prints it;
//! - `term TEXT` prints whether a row of a description may have this term, and `concept_of ID
//!   MODULE STATUS` whether a row of a concept may have these numbers;
//! - `raised NUMBER` prints the count after one more fault;
//! - `in_order COUNT` prints whether a list of COUNT numbers returns them in order, and then none;
//!   the number that it says it has at first has to be right too.

use crate::rows;
use case_files::{Answer, NoAnswer, unquoted};
use case_values::{
    day_of, kind_of, number, sctid_of, spell_number, spell_option, spell_yes, three_words,
};
use fault_counts::raised;
use rf2_values::{
    Body, Concept, Description, EffectiveTime, Further, Key, Member, Row, Sctid, Text,
};
use shown_names::Shown;
use shrinking_list::ShrinkingList;
use std::alloc::{AllocError, Global};
use std::cmp::Ordering;
use std::mem::size_of;

/// The class of the identifier in a text.
fn class_of(alloc: Global, text: &[u8]) -> Answer {
    let Some(id) = Sctid::parse(text).filter(|id| Sctid::of(id.value()) == Some(*id)) else {
        return Ok(String::from_str(alloc, "none")?);
    };
    match id.class() {
        Some(class) => Ok(format!(in alloc; "{class:?}")?),
        None => Ok(String::from_str(alloc, "of another class")?),
    }
}

/// The number of the day in a text.
fn day_in(text: &[u8]) -> Option<u32> {
    let day = EffectiveTime::parse(text)?.value();
    (EffectiveTime::of(day) == EffectiveTime::parse(text)).then_some(day)
}

/// The number of the member in a text.
fn member_in(alloc: Global, text: &[u8]) -> Answer {
    match Member::parse(text).filter(|member| Member::of(member.value()) == *member) {
        Some(member) => Ok(format!(in alloc; "{:032x}", member.value())?),
        None => Ok(String::from_str(alloc, "none")?),
    }
}

/// How many further columns a text has. If it has any, `Further` has to keep its bytes unchanged.
fn further_in(alloc: Global, text: &[u8]) -> Answer {
    let count = Further::count(text);
    let is_kept = match &Further::of(alloc, text)? {
        Some(kept) => {
            count.is_some() && kept.as_bytes() == text && kept.try_clone(alloc)? == *kept
        }
        None => count.is_none(),
    };
    if !is_kept {
        return Ok(String::from_str(alloc, "kept otherwise than counted")?);
    }
    spell_option(alloc, count)
}

/// Reads a key: a kind, a number and a day.
fn key_of(words: &str) -> Result<Key, NoAnswer> {
    let (kind, id, day) = three_words(words)?;
    let (id, time, kind) = (number(id)?, day_of(day)?, kind_of(kind)?);
    Ok(Key { id, time, kind })
}

/// Whether the first of two keys is less than the second, by each way of comparing them.
fn is_below(words: &str) -> Result<bool, NoAnswer> {
    let (a, b) = words.split_once(" < ").ok_or(NoAnswer::NoQuestion)?;
    let (a, b) = (key_of(a)?, key_of(b)?);
    let compared = (a.compare(&b), b.compare(&a), a.compare(&a));
    let is_less = compared == (Ordering::Less, Ordering::Greater, Ordering::Equal);
    Ok(is_less && a < b && !(b < a) && a != b && a == a)
}

/// Makes a row of a description with this term, and with valid other columns.
fn with_term(alloc: Global, term: &[u8]) -> Result<Option<Row>, NoAnswer> {
    let (concept, day) = (sctid_of("138875005")?, day_of("20200131")?);
    let language_code = Text::of(alloc, b"de")?.ok_or(NoAnswer::NoQuestion)?;
    let Some(term) = Text::of(alloc, term)? else {
        return Ok(None);
    };
    let body = Body::Description(Description {
        concept,
        language_code,
        type_id: concept,
        term,
        case_significance: concept,
    });
    Ok(Row::of(1_000_015, day, true, concept, body))
}

/// Makes a row of a concept with these numbers.
fn with_numbers(words: &str) -> Result<Option<Row>, NoAnswer> {
    let (id, module_id, status) = three_words(words)?;
    let definition_status = sctid_of(status)?;
    let body = Body::Concept(Concept { definition_status });
    let (day, module_id) = (day_of("20200131")?, sctid_of(module_id)?);
    Ok(Row::of(number(id)?, day, true, module_id, body))
}

/// Whether a list of the numbers below this one returns them in order, and then none.
fn are_in_order(alloc: Global, count: u32) -> Result<bool, AllocError> {
    let mut list = ShrinkingList::new((0..count).collect(alloc)?);
    let mut is_so = list.len() as u64 == u64::from(count);
    for wanted in 0..count {
        is_so = is_so && list.next() == Some(wanted);
    }
    Ok(is_so && list.next().is_none() && list.next().is_none())
}

/// Answers a question about a value, or one about rows.
pub fn answer(alloc: Global, word: &str, rest: &str) -> Answer {
    let text = unquoted(alloc, rest);
    match word {
        "sctid" => class_of(alloc, &text?),
        "sctid_of" => spell_option(alloc, Sctid::of(number(rest)?).map(|id| id.value())),
        "time" => spell_option(alloc, day_in(&text?)),
        "member" => member_in(alloc, &text?),
        "further" => further_in(alloc, &text?),
        "shown" => Ok(format!(in alloc; "{}", Shown(&text?))?),
        "below" => spell_yes(alloc, is_below(rest)?),
        "bytes_of" if rest == "a key" => spell_number(alloc, size_of::<Key>() as u64),
        "term" => spell_option(alloc, with_term(alloc, &text?)?.map(|_| "a row")),
        "concept_of" => spell_option(alloc, with_numbers(rest)?.map(|_| "a row")),
        "raised" => spell_number(alloc, raised(number(rest)?)),
        "in_order" => spell_yes(alloc, are_in_order(alloc, number(rest)?)?),
        _ => rows::answer(alloc, word, rest),
    }
}
