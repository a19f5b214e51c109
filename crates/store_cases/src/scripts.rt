//! Parts whose lines are no lines of a release. In a *script* each is a call after the word `call`,
//! a question of this program; others have bytes of a disk, each after `at` and the offset of the
//! first, as in `at 4096 53435448`, or the rows that a store has to hold. The lines of a part may
//! also be sent to a server in one run (`runs.rt`): then `bytes TEXT` sends the bytes of a text in
//! quotes, and `later LINE` is a line that the reader would give after its end or its failure. The
//! part `-` has no lines.
//!
//! - `remember PIN PART` remembers the answers, where `PIN` stands for the pin, and prints how many
//!   parts' answers are remembered; `known PIN PART` prints the number of the first remembered ones
//!   that are equal to the store's;
//! - `holds PART` prints whether the store has exactly those rows of a part that its imports bring,
//!   each with its import number. The part lists the rows, each after the number of the import
//!   that first brings it, as in `row 1 C 138875005 138875005|20200131|1|CORE|PRIM`; the versions
//!   of a component stand in the order of their times.
//!
//! In a *look*, whose answers are printed one after the other, in one line, a call may also be
//! `known PIN PART`, `run PART`, which sends the lines of another part in one run (`runs.rt`), or
//! `in-1 CALL`, a call that is made, and whose answer is printed, only by a store of layout 1.

use crate::case_state::Case;
use crate::runs::run;
use case_files::{Answer, NoAnswer, two_words, unquoted};
use case_values::{first_word, number, spell_number, spell_yes, three_words};
use std::alloc::{AllocError, Global};

/// A line of a part, and the word before it.
#[derive(Drop)]
pub struct Line {
    part: String,
    word: String,
    text: String,
}

/// Appends a line with its end.
fn put_line(bytes: &mut Vec<u8>, text: &str) -> Result<(), AllocError> {
    bytes.extend_from_slice(text.as_bytes())?;
    bytes.extend_from_slice(b"\n")
}

/// Reads a line of a part.
pub fn read_line(alloc: Global, part: &str, word: &str, text: &str) -> Result<Line, AllocError> {
    Ok(Line {
        part: String::from_str(alloc, part)?,
        word: String::from_str(alloc, word)?,
        text: String::from_str(alloc, text)?,
    })
}

/// The lines of the part with this name, without the words before them.
pub fn lines_of(case: &Case<'_>, name: &str) -> Result<Vec<String>, NoAnswer> {
    let mut found = Vec::new(case.alloc);
    for line in &case.lines {
        if line.part.as_str() == name {
            found.push(String::from_str(case.alloc, line.text.as_str())?)?;
        }
    }
    if found.is_empty() && name != "-" {
        return Err(NoAnswer::NoQuestion);
    }
    Ok(found)
}

/// The bytes that the lines of a part send to a server, and those after the end.
pub fn sent(case: &Case<'_>, name: &str) -> Result<(Vec<u8>, Vec<u8>), NoAnswer> {
    let (mut bytes, mut later) = (Vec::new(case.alloc), Vec::new(case.alloc));
    lines_of(case, name)?;
    for line in &case.lines {
        if line.part.as_str() != name {
            continue;
        }
        match line.word.as_str() {
            "bytes" => bytes.extend_from_slice(&unquoted(case.alloc, line.text.as_str())?)?,
            "later" => put_line(&mut later, line.text.as_str())?,
            _ => put_line(&mut bytes, line.text.as_str())?,
        }
    }
    Ok((bytes, later))
}

/// The answers to the calls of a part, one on each line, where `PIN` stands for a pin.
fn answers(case: &mut Case<'_>, words: &str) -> Answer {
    let (pin, part) = first_word(words)?;
    let mut text = String::new(case.alloc);
    for call in &lines_of(case, part)? {
        let call = call.replace(case.alloc, "PIN", pin)?;
        text.push_str(case.ask_line(call.as_str())?.as_str())?;
        text.push('\n')?;
    }
    Ok(text)
}

/// Remembers the answers to the calls of a part.
pub fn remember(case: &mut Case<'_>, words: &str) -> Answer {
    let answers = answers(case, words)?;
    case.remembered.push(answers)?;
    spell_number(case.alloc, case.remembered.len() as u64)
}

/// The number of the first remembered answers that are equal to the store's.
pub fn known(case: &mut Case<'_>, words: &str) -> Answer {
    let answers = answers(case, words)?;
    for (place, remembered) in case.remembered.iter().enumerate() {
        if *remembered == answers {
            return spell_number(case.alloc, (place as u64).saturating_add(1));
        }
    }
    Ok(String::from_str(case.alloc, "other answers")?)
}

/// The answers of a store to the calls of a look.
pub fn look(case: &mut Case<'_>, part: &str) -> Answer {
    let mut text = String::new(case.alloc);
    for line in &lines_of(case, part)? {
        let (word, rest) = two_words(line);
        if word == "in-1" && case.store()?.layout_number() != 1 {
            continue;
        }
        let answer = match word {
            "known" => known(case, rest),
            "run" => run(case, word, rest),
            "in-1" => case.ask_line(rest),
            _ => case.ask(word, rest),
        }?;
        if !text.is_empty() {
            text.push_str(", ")?;
        }
        text.push_str(answer.replace(case.alloc, "\n", ", ")?.as_str())?;
    }
    Ok(text)
}

/// The reply that lists the versions of a component, or, if none is given, all rows, up to a pin.
fn versions(alloc: Global, rows: &[String], component: &str, pin: u32) -> Answer {
    let mut text = String::new(alloc);
    let mut count = 0u32;
    for row in rows {
        let (import, row) = first_word(row)?;
        if let Some(line) = row.strip_prefix(component) {
            if number::<u32>(import)? <= pin {
                text.push_str(format!(in alloc; "ROW {line}\n")?.as_str())?;
                count = count.saturating_add(1);
            }
        }
    }
    text.push_str(format!(in alloc; "END {count}")?.as_str())?;
    Ok(text)
}

/// Whether a pin shows exactly those rows that the imports up to it bring.
fn shows(case: &mut Case<'_>, rows: &[String], pin: u32) -> Result<bool, NoAnswer> {
    for row in rows {
        let (_, kind, row) = three_words(row)?;
        let (id, _) = first_word(row)?;
        let component = format!(in case.alloc; "{kind} {id} ")?;
        let wanted = versions(case.alloc, rows, component.as_str(), pin)?;
        let question = format!(in case.alloc; "0 AT {pin} HISTORY {kind} {id}")?;
        if case.reply(question.as_str())? != wanted {
            return Ok(false);
        }
    }
    Ok(true)
}

/// Whether the store has exactly the rows of a part that its imports bring.
pub fn holds(case: &mut Case<'_>, part: &str) -> Answer {
    let rows = lines_of(case, part)?;
    let (imports, count) = (case.store()?.imports(), case.store()?.row_count());
    let all = versions(case.alloc, &rows, "", imports)?;
    let mut is_so = all.ends_with(format!(in case.alloc; "END {count}")?.as_str());
    for pin in 0..=imports {
        is_so = is_so && shows(case, &rows, pin)?;
    }
    spell_yes(case.alloc, is_so)
}
