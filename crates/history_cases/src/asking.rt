//! An index of lists of a history's rows, and the questions about it.
//!
//! - `lists 1-2 3-3` makes an index of a list for each of these ranges of imports, `spread COUNT`
//!   of COUNT lists, to which the rows are dealt in turn, the last one first, and `dates DATE ..`
//!   of a list for each of these dates; each prints how many lists the index has. From then on the
//!   index is asked too.
//! - `merge 1-2 3-3 COUNT` posts the terms, words and links of one list, which are merged from
//!   those of two ranges of imports in steps of COUNT, and `link twice` posts the links of the first
//!   list of rows, twice each. Both print how many lists are posted.
//! - `posted COUNT` posts the terms, words and links of the first COUNT lists only, `post 1-1 ..`
//!   those of other lists, and `link NUMBER ..` the links of these rows of the first list, and they
//!   print the same; `read 1-1 ..` lets other lists be read, and prints how many; `put I J 4-5`
//!   replaces two lists by the rows of a range, and prints how many lists the index then has. From
//!   then on only the index is asked.
//! - `cut COUNT` keeps the terms of the first list's first COUNT postings, and `put-links I J` lets
//!   the links of list J take the place of those of list I and their own: only the index is asked
//!   then. `put-list I J` lets the list do so. They print how many lists' links there are.
//! - `fails PIN` and a question of `case_values` lets each read for it fail, and prints how many
//!   there are.
//! - `hints COUNT` makes COUNT hints, and `hinted PIN KIND ID DATE` prints, using these hints, the
//!   list that has the component's row at the date, counted from 0, and the row's day; `place PIN
//!   KIND ID DATE` prints the same without hints.
//! - `row LIST NUMBER DATE PIN` prints the id of a row of a list, and its day if it is current at
//!   the date, for a pin.

use crate::case_state::CaseState;
use crate::indexed::Indexed;
use crate::listed::{lists_of, spread};
use crate::posted::PostedLists;
use crate::told::Request;
use as_of_index::{AsOf, Hints};
use case_files::{Answer, NoAnswer};
use case_values::{day_of, first_word, kind_of, number};
use rf2_values::Kind;
use std::alloc::{AllocError, Global};

/// The most questions that a line may stand for, with those that are made on the way.
const MANY: usize = 1_000_000;
/// How the answer begins if the plain programs and the index answer otherwise.
const DIFFERS: &str = "plainly ";

/// Adds the texts of a question for each word of its first group, such as `{1,2}`, if it has one.
fn choose(alloc: Global, text: &str, all: &mut Vec<String>) -> Result<bool, AllocError> {
    let Some((front, rest)) = text.split_once('{') else {
        return Ok(false);
    };
    let Some((group, behind)) = rest.split_once('}') else {
        return Ok(false);
    };
    for word in group.split(',') {
        all.push(format!(in alloc; "{front}{word}{behind}")?)?;
    }
    Ok(true)
}

/// Reads a component, and a date and a pin, from `PIN KIND ID DATE`.
pub(crate) fn component_at(words: &str) -> Result<(Kind, u128, AsOf), NoAnswer> {
    let (pin, words) = first_word(words)?;
    let (kind, words) = first_word(words)?;
    let (id, date) = first_word(words)?;
    let as_of = AsOf {
        date: day_of(date)?,
        pin: number(pin)?,
    };
    Ok((kind_of(kind)?, number(id)?, as_of))
}

impl CaseState {
    /// The index, if there is one.
    pub(crate) fn index(&self) -> Result<&Indexed, NoAnswer> {
        self.made.as_ref().ok_or(NoAnswer::NoQuestion)
    }

    /// What a pin shows, by the plain programs and the index, or by the index alone.
    pub(crate) fn ask(&self, text: &str) -> Answer {
        let request = Request::of(self.alloc, text)?;
        let Some(made) = &self.made else {
            return self.ask_plainly(&request);
        };
        let indexed = request.ask_index(made)?;
        if made.is_alone {
            return Ok(indexed);
        }
        let found = self.ask_plainly(&request)?;
        if found == indexed {
            return Ok(found);
        }
        Ok(format!(in self.alloc; "{DIFFERS}{found}, and by the index {indexed}")?)
    }

    /// The answer of the plain programs.
    fn ask_plainly(&self, request: &Request) -> Answer {
        let shown = plain_history::rows_at(self.alloc, request.pin, &self.rows)?;
        request.ask_plainly(&shown)
    }

    /// The total number of lines in the answers to the questions that a text stands for.
    pub(crate) fn ask_all(&self, text: &str) -> Answer {
        let text = text.strip_prefix("at ").ok_or(NoAnswer::NoQuestion)?;
        let mut texts = Vec::new(self.alloc);
        texts.push(String::from_str(self.alloc, text)?)?;
        let mut count = 0usize;
        for _ in 0..MANY {
            let Some(text) = texts.pop() else {
                return Ok(format!(in self.alloc; "{count} lines")?);
            };
            if !choose(self.alloc, text.as_str(), &mut texts)? {
                let found = self.ask(text.as_str())?;
                if found.starts_with(DIFFERS) {
                    return Ok(format!(in self.alloc; "at {text}: {found}")?);
                }
                let lines = found.lines().filter(|line| *line != "none").count();
                count = count.saturating_add(lines);
            }
        }
        Err(NoAnswer::NoQuestion)
    }

    /// How many reads a question makes, each of which fails once in each way.
    pub(crate) fn ask_failing(&self, text: &str) -> Answer {
        Request::of(self.alloc, text)?.fail_each_read(self.index()?)
    }

    /// Makes an index of lists.
    pub(crate) fn list(&mut self, word: &str, rest: &str) -> Answer {
        let lists = match word {
            "spread" => spread(self.alloc, &self.rows, number(rest)?)?,
            _ => lists_of(self.alloc, &self.rows, rest)?,
        };
        let count = lists.len();
        self.made = Some(Indexed::new(self.alloc, lists)?);
        Ok(format!(in self.alloc; "{count} lists")?)
    }

    /// Changes the index, or the postings or rows besides it, and prints how many lists there are
    /// of what is changed.
    pub(crate) fn change(&mut self, word: &str, rest: &str) -> Answer {
        let (alloc, rows) = (self.alloc, self.rows.as_slice());
        let made = self.made.as_mut().ok_or(NoAnswer::NoQuestion)?;
        match word {
            "read" => made.lists = lists_of(alloc, rows, rest)?,
            "put" | "put-links" | "put-list" => made.put(alloc, word, rows, rest)?,
            "posted" => {
                let front = made.lists.get(..number(rest)?).ok_or(NoAnswer::NoQuestion)?;
                made.posted = PostedLists::of(alloc, front)?;
            }
            "post" => made.posted = PostedLists::of(alloc, &lists_of(alloc, rows, rest)?)?,
            "link" => made.link(alloc, rest)?,
            "cut" => made.cut_terms(alloc, number(rest)?)?,
            _ => made.merge(alloc, rows, rest)?,
        }
        let count = match word {
            "read" => made.lists.len(),
            "put" => made.index.lists(),
            _ => made.posted.links.lists(),
        };
        made.is_alone = !matches!((word, rest), ("merge" | "put-list", _) | ("link", "twice"));
        Ok(format!(in alloc; "{count} lists")?)
    }

    /// Makes hints.
    pub(crate) fn hint(&mut self, count: &str) -> Answer {
        let count: usize = number(count)?;
        self.hints = Some(Hints::new(self.alloc, count)?);
        Ok(format!(in self.alloc; "{count} hints")?)
    }

    /// The place of a component's row, found with hints for `hinted`.
    pub(crate) fn place(&mut self, word: &str, words: &str) -> Answer {
        let made = self.made.as_ref().ok_or(NoAnswer::NoQuestion)?;
        let (kind, id, as_of) = component_at(words)?;
        let found = match (word, &mut self.hints) {
            ("hinted", Some(hints)) => made.index.place_from_hints(hints, kind, id, as_of),
            ("place", _) => made.index.place_at(kind, id, as_of),
            _ => return Err(NoAnswer::NoQuestion),
        };
        let Some((list, place)) = found else {
            return Ok(String::from_str(self.alloc, "none")?);
        };
        let day = place.key.time.value();
        Ok(format!(in self.alloc; "list {list}, {day}")?)
    }

    /// The row with this number of a list, and its day if it is current.
    pub(crate) fn row(&self, words: &str) -> Answer {
        let made = self.index()?;
        let (list, words) = first_word(words)?;
        let (row, words) = first_word(words)?;
        let (date, pin) = first_word(words)?;
        let (list, row): (usize, u32) = (number(list)?, number(row)?);
        let (date, pin) = (day_of(date)?, number(pin)?);
        let as_of = AsOf { date, pin };
        let Some(id) = made.index.id_at(list, row) else {
            return Ok(String::from_str(self.alloc, "none")?);
        };
        match made.index.current_at(list, row, as_of) {
            None => Ok(format!(in self.alloc; "{id}")?),
            Some(place) => {
                let (day, own, at) = (place.key.time.value(), place.key.id, place.at);
                let is_own = if own == id { "" } else { "not its own, " };
                Ok(format!(in self.alloc; "{is_own}{own} of {day} at {at}")?)
            }
        }
    }
}
